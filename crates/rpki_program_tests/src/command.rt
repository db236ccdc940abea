//! Tests of `rpki_cli`, `rpki_show`, `rpki_command`, `rpki_program` and `rpki_verdicts`: tables of
//! runs, which `rows` walks.
//!
//! The expected values follow from the profile by hand, or are those of other programs. A test
//! hands on that memory ran out and asserts everything else, so `tools/test growth` can refuse each
//! of its allocations in turn. Other contents, objects and words are cases of `rows/`; streams that
//! fail at each of their calls are in the sweeps.

mod asked;
mod attestations;
mod attested;
mod checked;
mod each;
mod first_read;
mod given;
mod granted;
mod issued;
mod issued_octets;
mod objects;
mod octets;
mod rows;
mod shown;
mod signed;
mod verdicts;
mod walks;
