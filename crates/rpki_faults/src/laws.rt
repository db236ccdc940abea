//! What the definitions say: laws, as functions that do nothing.

pub mod order;
pub mod sets;
