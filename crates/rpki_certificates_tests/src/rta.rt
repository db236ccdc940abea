//! Tests of `rpki_rta`: whole attestations, whose octets another program made, are validated step
//! by step under what anchors their paths; and the verdicts on a long path are counted. Keys are
//! those of the stand-in.
//!
//! A test hands want of memory on and asserts everything else. Attestations that are validated in
//! one call, right and wrong, are rows of the programs.

mod asked;
mod calls;
mod given;
mod long;
mod octets;
