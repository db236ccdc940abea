//! What takes octets, and what gives them.

mod counted;
mod sink;
mod source;

pub use counted::Counted;
pub use sink::{Sink, SinkFailed};
pub use source::{Source, SourceError, SourceFailed};
