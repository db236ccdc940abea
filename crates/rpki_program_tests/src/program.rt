//! Tests of what words say to `rpki_program`, each a table of rows that one small function walks.
//! Words that ask for nothing are cases of `rows/verify_usage.jsonl`.
//!
//! The expected values follow from the definitions by hand. A test hands on that memory ran out and
//! asserts everything else, so `tools/test growth` can refuse each of its allocations in turn.

mod file_kinds;
mod moments;
