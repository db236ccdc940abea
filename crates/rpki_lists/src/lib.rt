//! Lists of contents that are kept as the octets of their entries, and a reader of slices that
//! takes no memory; and what several contents have: a version, and the numbers that they name.
#![tactic(auto)]

pub mod encode;
mod iter;
mod kind;
pub mod laws;
mod list;
mod made;
pub mod named;
mod rule;
mod slice;
pub mod version;

pub use encode::{EntriesEncoder, Written};
pub use iter::EntryIter;
pub use kind::{EntryKind, Refused, SliceEntry};
pub use list::EntryList;
pub use made::{list_of, octets_of};
pub use rule::{Rule, take_list};
pub use slice::{BitSlice, SliceReader};
