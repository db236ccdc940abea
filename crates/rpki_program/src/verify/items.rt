//! Options and operands, by the table of options.

ghost use Rattle.std.specs.Prelude.{◌≡◌, ◌<◌, ◌≤◌, ◌+◌, ◌++◌, map, length, codes, IfOk, IfSome};
ghost use Rattle.std.specs.Prelude.{OnOk};
ghost use Rattle.rpki_cli.specs.Words.{texts};
ghost use Rattle.rpki_program.specs.Verify.Items.{is_dashed, AreItems, IsPart, IsNext, is_flag};
ghost use Rattle.rpki_program.specs.Verify.Items.{is_set, value_in, values, operand_in, operands};
ghost use Rattle.rpki_program.specs.Verify.Requests.{word_given};
ghost use Rattle.rpki_program.specs.declared.verify.items.Item.TheVariants.{Operand};

use crate::verify::options::{OptionName, option_of};
use crate::verify::usage::Fault;
use std::alloc::{AllocError, Global};
use std::marker::Model;

/// A word of the command line.
#[derive(Drop)]
pub struct Word<'a>(pub &'a str);

impl<'a> Model for Word<'a> {
    ghost use Rattle.std.specs.Prelude.{ℕ, List};

    ghost Value = { List ℕ };

    ghost view = { λ w. w.0.now };
}

/// What one or two words after a command are.
#[derive(Drop)]
pub enum Item<'a> {
    /// A flag.
    Flag(OptionName),
    /// An option with its value.
    Value(OptionName, Word<'a>),
    /// An operand.
    Operand(Word<'a>),
}

/// What a word is where an item begins.
#[derive(Drop)]
enum Part<'a> {
    /// This item.
    Whole(Item<'a>),
    /// An option whose value is the next word.
    Name(OptionName),
    /// The word after which each word is an operand.
    End,
    /// None of these.
    Wrong(Fault<'a>),
}

/// Whether a word begins with `-`, and is not `-`.
fn is_dashed(word: &str) -> bool
    ensures { result ≡ is_dashed word.now }
{
    matches!(word.as_bytes(), [b'-', _, ..])
}

/// What this word is where an item begins.
fn part_of<'a>(word: &'a str) -> Part<'a>
    ensures { IsPart word.now result }
{
    if !is_dashed(word) {
        return Part::Whole(Item::Operand(Word(word)));
    }
    if word == "--" {
        return Part::End;
    }
    match option_of(word) {
        None => joined_part(word),
        Some(name) => {
            if name.takes_value() {
                Part::Name(name)
            } else {
                Part::Whole(Item::Flag(name))
            }
        }
    }
}

/// What this word is, if it is an option and its value in one.
fn joined_part<'a>(word: &'a str) -> Part<'a>
    ensures { IsPart word.now result }
{
    let Some((front, value)) = parts_of(word) else {
        return Part::Wrong(Fault::UnknownOption(word));
    };
    match option_of(front) {
        None => Part::Wrong(Fault::UnknownOption(word)),
        Some(name) => {
            if name.takes_value() {
                Part::Whole(Item::Value(name, Word(value)))
            } else {
                Part::Wrong(Fault::NoValueTaken(name))
            }
        }
    }
}

/// What stands before and after the first `=` of a word, if it has one.
fn parts_of<'a>(word: &'a str) -> Option<(&'a str, &'a str)>
    ensures { IfSome result (λ p. word.now ≡ p.0.now ++ (codes "=" ++ p.1.now)) }
{
    word.split_once('=')
}

/// The item at the front of these words, and how many words it is; none is at `--`.
fn next_item<'a>(word: &'a str, rest: &'a [&'a str]) -> Result<Option<(Item<'a>, usize)>, Fault<'a>>
    ensures item { IfOk result (λ next. IsNext word.now (texts rest.now) next) }
    ensures some { IfOk result (λ next. IfSome next (λ p. 0 < p.1)) }
    ensures few { IfOk result (λ next. IfSome next (λ p. p.1 ≤ 1 + length rest.now)) }
{
    match part_of(word) {
        Part::Whole(item) => Ok(Some((item, 1))),
        Part::End => Ok(None),
        Part::Wrong(fault) => Err(fault),
        Part::Name(name) => match rest.split_first() {
            None => Err(Fault::NoValue(name)),
            Some((value, _)) => Ok(Some((Item::Value(name, Word(value)), 2))),
        },
    }
}

/// The items of the words after a command.
pub fn items_of<'a>(alloc: Global, words: &'a [&'a str]) -> Result<Vec<Item<'a>>, Fault<'a>>
    ensures { IfOk result (λ items. AreItems (texts words.now) items.items) }
{
    let mut items = Vec::new(alloc);
    let mut at = 0;
    while at < words.len() {
        match next_item(words[at], &words[at + 1..]) {
            Err(fault) => return Err(fault),
            Ok(None) => {
                push_operands(&mut items, &words[at + 1..])?;
                return Ok(items);
            }
            Ok(Some((item, taken))) => {
                items.push(item)?;
                at += taken;
            }
        }
    }
    Ok(items)
}

/// Appends each word as an operand.
fn push_operands<'a>(items: &mut Vec<Item<'a>>, words: &[&'a str]) -> Result<(), AllocError>
    ensures { OnOk result (items.new.items ≡ items.old.items ++ map Operand (texts words.now)) }
{
    for word in words {
        items.push(Item::Operand(Word(word)))?;
    }
    Ok(())
}

/// Whether an item is this flag.
fn is_flag(item: &Item<'_>, name: OptionName) -> bool
    ensures { result ≡ is_flag name item.now }
{
    match item {
        Item::Flag(flag) => flag.is(name),
        Item::Value(_, _) | Item::Operand(_) => false,
    }
}

/// Whether this flag stands among the items.
pub fn is_set(items: &[Item<'_>], name: OptionName) -> bool
    ensures { result ≡ is_set name items.now }
{
    items.iter().any(|item| is_flag(item, name))
}

/// The value that an item gives to this option, if it gives one.
fn value_in<'a>(item: &Item<'a>, name: OptionName) -> Option<&'a str>
    ensures { word_given result ≡ value_in name item.now }
{
    match item {
        Item::Value(option, value) => { if option.is(name) { Some(value.0) } else { None } }
        Item::Flag(_) | Item::Operand(_) => None,
    }
}

/// The operand that an item is, if it is one.
fn operand_in<'a>(item: &Item<'a>) -> Option<&'a str>
    ensures { word_given result ≡ operand_in item.now }
{
    match item {
        Item::Operand(word) => Some(word.0),
        Item::Flag(_) | Item::Value(_, _) => None,
    }
}

/// The values of this option, in their order.
pub fn values<'a>(
    alloc: Global,
    items: &[Item<'a>],
    name: OptionName,
) -> Result<Vec<&'a str>, AllocError>
    ensures { IfOk result (λ v. values name items.now ≡ texts v.items) }
{
    let mut values = Vec::new(alloc);
    for item in items {
        if let Some(value) = value_in(item, name) {
            values.push(value)?;
        }
    }
    Ok(values)
}

/// The operands, in their order.
pub fn operands<'a>(alloc: Global, items: &[Item<'a>]) -> Result<Vec<&'a str>, AllocError>
    ensures { IfOk result (λ v. operands items.now ≡ texts v.items) }
{
    let mut operands = Vec::new(alloc);
    for item in items {
        if let Some(operand) = operand_in(item) {
            operands.push(operand)?;
        }
    }
    Ok(operands)
}

/// The value of an option that stands at most once, if it stands.
pub fn value<'a>(items: &[Item<'a>], name: OptionName) -> Result<Option<&'a str>, Fault<'a>>
    ensures { IfOk result (λ v. values name items.now ≡ word_given v) }
{
    let mut only = None;
    for item in items {
        if let Some(value) = value_in(item, name) {
            if only.is_some() {
                return Err(Fault::Twice(name));
            }
            only = Some(value);
        }
    }
    Ok(only)
}
