//! Tests of `rpki_resources`, each a table of rows that one small function walks.
//!
//! The expected values stand in RFC 3779, RFC 5952 or follow from them by hand. A test hands want
//! of memory on and asserts everything else, so `tools/test growth` can refuse each of its
//! allocations in turn. Errors that are swallowed, and rows that are made, long or cut, are in the
//! sweeps.

mod calls;
mod claims;
mod octets;
mod pairs;
mod prefixes;
mod sets;
mod texts;
