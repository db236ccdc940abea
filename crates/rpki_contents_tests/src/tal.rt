//! Tests of `rpki_tal`, each a table of rows that one small function walks.
//!
//! The expected values follow from RFC 8630 and RFC 4648 by hand. A test hands want of memory on
//! and asserts everything else. URIs that are equal, and texts of faults, are in the sweeps.

mod calls;
mod texts;
mod uris;
