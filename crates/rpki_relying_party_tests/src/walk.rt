//! Tests of walks over places that are numbers. The answers follow by hand.

mod numbers;
mod walks;
