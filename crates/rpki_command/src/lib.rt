//! The commands of the program with verdicts, `rpki_objects`: what each says of the files that it is
//! asked about.
#![tactic(auto)]

mod anchors;
mod check;
mod hand;
mod held;
pub mod laws;
mod program;
mod rta;
mod walk;

pub use program::Objects;
