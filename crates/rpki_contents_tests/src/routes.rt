//! Tests of `rpki_routes`, each a table of rows that one small function walks.
//!
//! The expected values follow from RFC 9582, RFC 3779 and the ASPA profile by hand. A test hands
//! want of memory on and asserts everything else. Very many entries that are built are in the
//! sweeps.

mod aspas;
mod built;
mod built_roas;
mod calls;
mod roas;
