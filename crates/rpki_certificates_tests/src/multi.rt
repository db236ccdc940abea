//! Tests of `rpki_multi`: whole objects, whose octets another program made, and rows of objects
//! that are put together from their fields.
//!
//! A test hands want of memory on and asserts everything else.

mod building;
mod octets;
mod reading;
