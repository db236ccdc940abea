//! Tests of `rpki_der`, each a table of rows that one small function walks.
//!
//! The expected values stand in X.690 or follow from it by hand. A test hands want of memory on and
//! asserts everything else, so `tools/test growth` can refuse each of its allocations in turn. Rows
//! that are cut and followed, deep input, how often a stream is called, and texts of errors are in
//! the sweeps.

mod calls;
mod lengths;
mod streams;
mod values;
mod writing;
