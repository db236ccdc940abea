//! Members of objects of JSON, and lists of them. Where memory runs out, the members that were put
//! before stay.

use crate::texts::lines::Listed;
use crate::texts::serial::serial_hex;
use rpki_basics::Serial;
use serde_json::{Map, Value, push, put};
use std::alloc::{AllocError, Global};
use std::fmt::Display;

/// The members of an object, in the order of their names.
pub type Members = Map<String, Value>;

/// Puts a text.
pub fn put_text(
    alloc: Global,
    members: &mut Members,
    name: &str,
    text: &str,
) -> Result<(), AllocError> {
    let text = String::from_str(alloc, text)?;
    put(members, alloc, name, Value::from(text))
}

/// Puts the text that an item displays.
pub fn put_shown<T: Display>(
    alloc: Global,
    members: &mut Members,
    name: &str,
    item: &T,
) -> Result<(), AllocError> {
    let text = item.to_string(alloc)?;
    put(members, alloc, name, Value::from(text))
}

/// Puts a serial number in upper hexadecimal, two digits for each octet.
pub fn put_serial(
    alloc: Global,
    members: &mut Members,
    name: &str,
    serial: Serial,
) -> Result<(), AllocError> {
    let text = serial_hex(alloc, serial)?;
    put(members, alloc, name, Value::from(text))
}

/// Puts a list of the texts that `text_of` gives of these items, in order.
pub fn put_texts<I, F>(
    alloc: Global,
    members: &mut Members,
    name: &str,
    items: I,
    text_of: F,
) -> Result<(), AllocError>
where
    I: Listed + Drop,
    I::Item: Drop,
    F: Fn(I::Item) -> Result<String, AllocError>,
    requires { F.IsAlwaysCallable text_of }
{
    let mut values = Vec::new(alloc);
    match push_texts(&mut values, items, text_of) {
        Ok(()) => put(members, alloc, name, Value::from(values)),
        Err(error) => {
            drop(values);
            Err(error)
        }
    }
}

/// Appends the text that `text_of` gives of each item.
fn push_texts<I, F>(values: &mut Vec<Value>, items: I, text_of: F) -> Result<(), AllocError>
where
    I: Listed + Drop,
    I::Item: Drop,
    F: Fn(I::Item) -> Result<String, AllocError>,
    requires { F.IsAlwaysCallable text_of }
{
    for item in items {
        let text = text_of(item)?;
        push(values, Value::from(text))?;
    }
    Ok(())
}

/// Puts a list of objects, of which each has the members that `fill` puts for its item, in order.
pub fn put_objects<I, F>(
    alloc: Global,
    members: &mut Members,
    name: &str,
    items: I,
    fill: F,
) -> Result<(), AllocError>
where
    I: Listed + Drop,
    I::Item: Drop,
    F: Fn(&mut Members, I::Item) -> Result<(), AllocError>,
    requires { F.IsAlwaysCallable fill }
{
    let mut values = Vec::new(alloc);
    match push_objects(alloc, &mut values, items, fill) {
        Ok(()) => put(members, alloc, name, Value::from(values)),
        Err(error) => {
            drop(values);
            Err(error)
        }
    }
}

/// Appends an object for each item, with the members that `fill` puts.
fn push_objects<I, F>(
    alloc: Global,
    values: &mut Vec<Value>,
    items: I,
    fill: F,
) -> Result<(), AllocError>
where
    I: Listed + Drop,
    I::Item: Drop,
    F: Fn(&mut Members, I::Item) -> Result<(), AllocError>,
    requires { F.IsAlwaysCallable fill }
{
    for item in items {
        let mut members = Map::new(alloc);
        match fill(&mut members, item) {
            Ok(()) => push(values, Value::from(members))?,
            Err(error) => {
                drop(members);
                return Err(error);
            }
        }
    }
    Ok(())
}
