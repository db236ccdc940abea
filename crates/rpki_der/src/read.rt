//! The reader.

mod constructed;
mod contents;
mod header;
mod integer;
mod items;
mod primitive;
mod skip;
mod skips;
mod string;
mod window;

pub use constructed::Constructed;
pub use contents::is_ia5;
pub use header::value_of;
pub use integer::{u8_of, u32_of};
pub use items::ListItem;
