//! What a slice begins with, and what contents in a slice say. No reader is needed, and no memory
//! is taken.

pub use crate::read::{is_ia5, u8_of, u32_of, value_of};
