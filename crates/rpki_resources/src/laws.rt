//! What the definitions say: laws, as functions that do nothing.

pub mod forms;
pub mod sets;
