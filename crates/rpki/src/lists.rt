//! Lists of contents that are kept as the octets of their entries.

pub use rpki_lists::{
    EntriesEncoder, EntryIter, EntryKind, EntryList, Refused, Rule, SliceEntry, Written, encode,
    laws, take_list,
};
