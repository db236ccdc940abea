//! Tests of `rpki_attributes`, each a table of rows that one small function walks.
//!
//! The expected octets follow by hand from RFC 5652, sections 5.3, 5.4 and 11. A test hands want of
//! memory on and asserts everything else, so `tools/test growth` can refuse each of its allocations
//! in turn. Pieces and values that nest are in the sweeps.

mod making;
mod read;
