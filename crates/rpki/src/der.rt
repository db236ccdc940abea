//! Values of X.690: reading them in DER and in BER, and writing them in DER.

pub use rpki_der::{
    AsOctets, BitString, Captured, Constructed, ContentFault, Count, Counted, DecodeError, Encode,
    EncodeError, InvalidSignedAttr, ListItem, LowerHex, Mode, Oid, Sink, SinkFailed, Source,
    SourceError, SourceFailed, StaticText, Tag, UpperHex, build, drip, encode, laws, slices,
    upper_digit,
};
pub use rpki_lists::{BitSlice, SliceReader};
