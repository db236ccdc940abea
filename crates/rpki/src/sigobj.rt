//! Signed objects and their signed attributes, over any kind of content.

pub use rpki_attributes::{
    AttrsFault, MessageDigest, MessageDigestEncoder, SignedAttrs, SignedAttrsEncoder,
};
pub use rpki_signing::SignedObjectBuilder;
pub use rpki_sigobj::{Content, Signed, SignedObject, oid_of};

/// What is wrong with a signed object or with its signed attributes.
pub mod faults {
    pub use rpki_attributes::faults::{
        ATTRIBUTE_TWICE, ATTRIBUTES_TOO_LONG, NO_CONTENT_TYPE, NO_MESSAGE_DIGEST, NO_SIGNING_TIME,
    };
    pub use rpki_sigobj::faults::{OTHER_CONTENT_TYPE, WRONG_CONTENT_TYPE};
}

/// What the definitions of signed objects and of signed attributes say.
pub mod laws {
    pub use rpki_attributes::laws::{
        attributes_are_made, attributes_are_written, attributes_without_others, messages,
        octets_after_signed_attributes_are_left, signed_attributes,
    };
    pub use rpki_signing::laws::{built_objects_are_valid, objects_are_written};
    pub use rpki_sigobj::laws::{
        octets_after_a_signed_object_are_left, refused_objects, signed_objects, valid_objects,
        written_contents_are_read, written_objects_are_read,
    };
}
