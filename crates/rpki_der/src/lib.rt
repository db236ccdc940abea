//! Values of X.690: reading them in DER and in BER, keeping their octets, and writing them in DER.
#![tactic(auto)]

mod as_octets;
mod bit_string;
pub mod build;
mod captured;
mod count;
pub mod drip;
pub mod encode;
mod error;
mod hex;
pub mod laws;
mod mode;
mod oid;
mod read;
pub mod slices;
mod static_text;
mod stream;
mod tag;

pub use as_octets::AsOctets;
pub use bit_string::BitString;
pub use captured::Captured;
pub use count::Count;
pub use encode::{Encode, EncodeError};
pub use error::{ContentFault, DecodeError, InvalidSignedAttr};
pub use hex::{LowerHex, UpperHex, upper_digit};
pub use mode::Mode;
pub use oid::Oid;
pub use read::{Constructed, ListItem};
pub use static_text::StaticText;
pub use stream::{Counted, Sink, SinkFailed, Source, SourceError, SourceFailed};
pub use tag::Tag;
