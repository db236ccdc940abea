//! Tests of folders as copies of the repositories. The answers follow by hand.

pub mod files;
mod held;
