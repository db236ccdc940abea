//! Tests of `rpki_tagged`: tables of rows that small functions walk, and contents that are built.
//!
//! The octets follow from draft-michaelson-rpki-rta, section 4, and X.690. A test hands want of
//! memory on and asserts everything else.

mod built;
mod rows;
