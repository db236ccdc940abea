//! Tests of `rpki_files`, each a table of rows that one small function walks.
//!
//! The octets follow from RFC 9286, section 4.2, RFC 9323, section 4, and X.690. A test hands want
//! of memory on and asserts everything else. Long lists are in the sweeps.

mod built;
mod calls;
mod checklists;
mod names;
mod rows;
