//! Tests of `rpki_lists` by a kind of entries: numbers that ascend.
//!
//! A test hands want of memory on and asserts everything else.

mod calls;
mod numbers;
mod rows;
mod slices;
