//! Tests of `rpki_crls`, each a table of rows that one small function walks.
//!
//! The octets follow from RFC 5280, section 5, and RFC 6487, section 5. A test hands want of memory
//! on and asserts everything else. What is done with a list that was read is in the sweeps.

mod lists;
mod parts;
