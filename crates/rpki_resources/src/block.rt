//! Blocks of numbers.

/// The numbers from `min` to `max`, both of them in it.
#[derive(Clone, Copy, Debug, PartialEq, Eq)]
pub struct Block<T> {
    pub min: T,
    pub max: T,
}
