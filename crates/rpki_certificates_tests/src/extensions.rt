//! Tests of `rpki_extensions`. Lists of extensions, and what they say or why they are refused, are
//! rows of the programs; rows of each value by itself are in the sweeps.
//!
//! A test hands want of memory on and asserts everything else.

mod copies;
