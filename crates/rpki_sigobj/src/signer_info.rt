//! What the signer of a signed object says.

ghost use Rattle.std.specs.Prelude.{◌≡◌, ◌<◌, IfOk, IfSome, length, option_map};
ghost use Rattle.rpki_der.specs.Read.Parse.{optional};
ghost use Rattle.rpki_der.specs.Read.Reads.{Reads, Stays};
ghost use Rattle.rpki_der.specs.Tags.{SEQUENCE};
ghost use Rattle.rpki_extensions.specs.KeyIdentifiers.{key_id_at};
ghost use Rattle.rpki_sigobj.specs.SignerInfo.{version_at, typed_attrs_at, signer_fields_at};
ghost use Rattle.rpki_sigobj.specs.SignerInfo.{signer_info_at};

use crate::faults;
use rpki_attributes::SignedAttrs;
use rpki_basics::{DigestAlgorithm, KeyIdentifier, RpkiSignature, RpkiSignatureAlgorithm};
use rpki_der::{Constructed, DecodeError, Oid, Tag};
use std::alloc::{AllocError, Global};
use std::marker::Model;

/// What a signer says (RFC 5652, section 5.3): the identifier of its key, the attributes that it
/// signed, and its signature.
#[derive(Debug, Drop)]
pub struct SignerInfo {
    pub(crate) sid: KeyIdentifier,
    pub(crate) attributes: SignedAttrs,
    pub(crate) signature: RpkiSignature,
}

impl Model for SignerInfo {
    ghost use Rattle.rpki_sigobj.specs.SignerInfo.{KeptSigner};

    ghost Value = { KeptSigner };

    ghost view = { λ s. record {
      signer = record {
        sid = s.sid;
        attributes = s.attributes.attributes;
        signature = s.signature;
      };
      mode = s.attributes.mode;
    } };
}

// The version of what is signed and of what its signer says (RFC 6488, sections 2.1.1 and 2.1.6.1).
const VERSION: u8 = 3;

// How many octets the identifier of a key has: those of a SHA-1 digest (RFC 6487, section 4.8.2).
const ID_LENGTH: usize = 20;

/// Reads the version, which is 3. Refuses by `Malformed` where it is not.
pub fn skip_version(cons: &mut Constructed<'_>) -> Result<(), DecodeError>
    ensures { Reads (λ u. u) version_at cons.old result cons.new }
{
    cons.skip_u8_if(VERSION)
}

// Reads the identifier of the signer's key.
#[tactic(auto, unfolding(rpki_der::specs::Read::Parse::tested))]
fn take_sid(cons: &mut Constructed<'_>) -> Result<KeyIdentifier, DecodeError>
    ensures { Reads (λ id. id) key_id_at cons.old result cons.new }
{
    let octets = cons.take_primitive_if(Tag::CTX_0_PRIMITIVE)?;
    match <[u8; ID_LENGTH]>::try_from(octets.as_slice()) {
        Ok(octets) => Ok(KeyIdentifier::from_octets(octets)),
        Err(_) => Err(cons.fail(DecodeError::Malformed)),
    }
}

// Reads the signed attributes of a content of this type.
#[tactic(auto, unfolding(rpki_der::specs::Read::Parse::tested))]
fn take_attributes(
    cons: &mut Constructed<'_>,
    alloc: Global,
    content_type: &Oid,
) -> Result<SignedAttrs, DecodeError>
    ensures reads { Reads (λ a. a.attributes) (typed_attrs_at content_type.now)
        cons.old result cons.new }
    ensures mode { IfOk result (λ a. a.mode ≡ cons.old.mode) }
{
    let attributes = SignedAttrs::take_from(alloc, cons)?;
    if attributes.content_type().as_slice() == content_type.as_slice() {
        Ok(attributes)
    } else {
        drop(attributes);
        Err(cons.refuse_for(faults::WRONG_CONTENT_TYPE))
    }
}

// Reads what stands in the SEQUENCE.
#[tactic(auto, unfolding(crate::specs::SignerInfo::signer_fields_at))]
fn take_fields(
    cons: &mut Constructed<'_>,
    alloc: Global,
    content_type: &Oid,
) -> Result<SignerInfo, DecodeError>
    ensures reads { Reads (λ s. s.signer) (signer_fields_at content_type.now)
        cons.old result cons.new }
    ensures mode { IfOk result (λ s. s.mode ≡ cons.old.mode) }
{
    skip_version(cons)?;
    let sid = take_sid(cons)?;
    DigestAlgorithm::take_from(cons)?;
    let attributes = take_attributes(cons, alloc, content_type)?;
    let algorithm = match RpkiSignatureAlgorithm::take_cms_from(cons) {
        Ok(algorithm) => algorithm,
        Err(error) => {
            drop(attributes);
            return Err(error);
        }
    };
    let value = match cons.take_octets(alloc) {
        Ok(value) => value,
        Err(error) => {
            drop(attributes);
            return Err(error);
        }
    };
    Ok(SignerInfo {
        sid,
        attributes,
        signature: RpkiSignature::new(algorithm, value),
    })
}

/// Reads what the signer says of a content of this type. Refuses by `UNKNOWN_ALGORITHM`, by
/// `WRONG_CONTENT_TYPE`, by what signed attributes are refused by, by `Malformed` for all else, or
/// by `Memory`.
pub fn take_signer_info(
    cons: &mut Constructed<'_>,
    alloc: Global,
    content_type: &Oid,
) -> Result<SignerInfo, DecodeError>
    ensures reads { Reads (λ s. s.signer) (signer_info_at content_type.now)
        cons.old result cons.new }
    ensures mode { IfOk result (λ s. s.mode ≡ cons.old.mode) }
{
    cons.take_sequence(|cons| take_fields(cons, alloc, content_type))
}

impl SignerInfo {
    /// What the signer with this identifier says by these attributes and this signature over them.
    pub fn new(sid: KeyIdentifier, attributes: SignedAttrs, signature: RpkiSignature) -> SignerInfo
        ensures sid { result.signer.sid ≡ sid }
        ensures attributes { result.signer.attributes ≡ attributes.attributes }
        ensures signature { result.signer.signature ≡ signature }
        ensures mode { result.mode ≡ attributes.mode }
    {
        SignerInfo {
            sid,
            attributes,
            signature,
        }
    }

    /// Reads what a signer says of a content of this type, if a SEQUENCE is next (RFC 5652, section
    /// 5.3). It takes an octet at least.
    ///
    /// Refuses by `UNKNOWN_ALGORITHM`, by `WRONG_CONTENT_TYPE` where the signed attributes say
    /// another type, by what signed attributes are refused by, by `Malformed` for all else, or by
    /// `Memory`.
    pub fn take_opt_from(
        alloc: Global,
        cons: &mut Constructed<'_>,
        content_type: &Oid,
    ) -> Result<Option<SignerInfo>, DecodeError>
        ensures reads { Reads (option_map (λ s. s.signer))
            (optional SEQUENCE (signer_info_at content_type.now)) cons.old result cons.new }
        ensures mode { IfOk result (λ s. IfSome s (λ s. s.mode ≡ cons.old.mode)) }
        ensures stays { Stays result cons.new }
        ensures shorter { IfOk result
            (λ s. IfSome s (λ _. length cons.new.rest < length cons.old.rest)) }
    {
        cons.take_opt_sequence(|cons| take_fields(cons, alloc, content_type))
    }

    /// The identifier of its key (RFC 5652, section 5.3).
    pub fn sid(&self) -> &KeyIdentifier
        ensures { result.now ≡ self.now.signer.sid }
    {
        &self.sid
    }

    /// The attributes that it signed (RFC 5652, section 5.3), in the mode that they were read in.
    pub fn attributes(&self) -> &SignedAttrs
        ensures attributes { result.now.attributes ≡ self.now.signer.attributes }
        ensures mode { result.now.mode ≡ self.now.mode }
    {
        &self.attributes
    }

    /// Its signature over the message of its attributes (RFC 5652, sections 5.3 and 5.4).
    pub fn signature(&self) -> &RpkiSignature
        ensures { result.now ≡ self.now.signer.signature }
    {
        &self.signature
    }
}

impl Clone for SignerInfo {
    ghost is_clone = { λ s copy. copy ≡ s };

    fn clone(&self) -> Result<SignerInfo, AllocError> {
        let signature = self.signature.clone()?;
        let attributes = self.attributes.clone()?;
        Ok(SignerInfo {
            sid: self.sid,
            attributes,
            signature,
        })
    }
}
