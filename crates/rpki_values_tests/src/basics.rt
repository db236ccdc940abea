//! Tests of `rpki_basics`, each a table of rows that one small function walks.
//!
//! The expected values stand in the standards, follow from them by hand, or are those of Python's
//! datetime. A test hands want of memory on and asserts everything else, so `tools/test growth` can
//! refuse each of its allocations in turn. Texts of errors are in the sweeps.

mod dates;
mod digests;
mod reading;
mod uris;
mod values;
