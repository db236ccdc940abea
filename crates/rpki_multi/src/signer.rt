//! What a signer of a multi-signed object says.

mod encoder;

ghost use Rattle.std.specs.Prelude.{◌≡◌, ◌<◌, ◌^◌, ◌++◌, ℕ, List, IfOk, IfSome, Some};
ghost use Rattle.std.specs.Prelude.{length, option_map};
ghost use Rattle.rpki_der.specs.declared.mode.Mode.{Mode};
ghost use Rattle.rpki_der.specs.declared.mode.Mode.TheVariants.{Der};
ghost use Rattle.rpki_der.specs.Form.Decodes.{DecodesIfNext};
ghost use Rattle.rpki_der.specs.Read.Parse.{optional};
ghost use Rattle.rpki_der.specs.Read.Reads.{Reads, Stays};
ghost use Rattle.rpki_der.specs.Tags.{SEQUENCE};
ghost use Rattle.rpki_sigobj.specs.SignerInfo.{SignerInfoForm, signer_info_at};
ghost use Rattle.rpki_multi.specs.Signer.{id_rta, IsAttested};
ghost use Rattle.rpki_multi.specs.Written.{signer_contents, signer_octets};

pub use encoder::SignerInfoEncoder;
use rpki_attributes::{MessageDigest, SignedAttrs};
use rpki_basics::{KeyIdentifier, RpkiSignature, Time};
use rpki_der::{Constructed, DecodeError, Mode, Oid};
use rpki_sigobj::{SignerInfo as TypedSignerInfo, oid_of};
use std::alloc::{AllocError, Global};
use std::marker::Model;

/// id-ct-resourceTaggedAttestation, 1.2.840.113549.1.9.16.1.36.
pub const ID_RTA: [u8; 11] = [
    0x2A, 0x86, 0x48, 0x86, 0xF7, 0x0D, 0x01, 0x09, 0x10, 0x01, 0x24,
];

/// What a signer of an attestation says (RFC 5652, section 5.3; draft-michaelson-rpki-rta, section
/// 3): the identifier of its key, the attributes that it signed, and its signature.
#[derive(Debug, Drop)]
pub struct SignerInfo {
    said: TypedSignerInfo,
}

impl Model for SignerInfo {
    ghost use Rattle.rpki_sigobj.specs.SignerInfo.{KeptSigner};
    ghost use Rattle.rpki_multi.specs.Signer.{IsAttested};

    ghost Value = { KeptSigner };

    ghost view = { λ s. s.said };

    ghost invariant = { λ s. IsAttested s.said };
}

impl SignerInfo {
    // What a signer says, where it is what one of an attestation says.
    pub(crate) fn of(said: TypedSignerInfo) -> SignerInfo
        requires { IsAttested said }
        ensures { result ≡ said }
    {
        SignerInfo { said }
    }
}

// The type of the content of an attestation.
pub(crate) fn content_type() -> Oid
    ensures { result ≡ id_rta }
{
    oid_of(&ID_RTA)
}

// Reads what a signer says, if a SEQUENCE is next.
fn take_opt_signer(
    cons: &mut Constructed<'_>,
    alloc: Global,
) -> Result<Option<SignerInfo>, DecodeError>
    ensures reads { Reads (option_map (λ s. s.signer)) (optional SEQUENCE (signer_info_at id_rta))
        cons.old result cons.new }
    ensures mode { IfOk result (λ s. IfSome s (λ s. s.mode ≡ cons.old.mode)) }
    ensures stays { Stays result cons.new }
    ensures shorter { IfOk result
        (λ s. IfSome s (λ _. length cons.new.rest < length cons.old.rest)) }
{
    // The proof needs that each octet is below 256.
    cons.holds_octets();
    let kind = content_type();
    match TypedSignerInfo::take_opt_from(alloc, cons, &kind) {
        Err(e) => Err(e),
        Ok(said) => match said {
            None => Ok(None),
            Some(said) => Ok(Some(SignerInfo::of(said))),
        },
    }
}

impl SignerInfo {
    /// Reads what a signer says, if a SEQUENCE is next (RFC 5652, section 5.3). It takes an octet
    /// at least.
    ///
    /// Refuses by `UNKNOWN_ALGORITHM`, by `WRONG_CONTENT_TYPE` of `rpki_sigobj` where the signed
    /// attributes say another type than that of attestations, by what signed attributes are refused
    /// by, by `Malformed` for all else, or by `Memory`.
    pub fn take_opt_from(
        alloc: Global,
        cons: &mut Constructed<'_>,
    ) -> Result<Option<SignerInfo>, DecodeError>
        ensures reads { Reads (option_map (λ s. s.signer))
            (optional SEQUENCE (signer_info_at id_rta)) cons.old result cons.new }
        ensures decodes { DecodesIfNext SEQUENCE (SignerInfoForm id_rta)
            (option_map (λ s. s.signer)) cons.old result cons.new }
        ensures mode { IfOk result (λ s. IfSome s (λ s. s.mode ≡ cons.old.mode)) }
        ensures stays { Stays result cons.new }
        ensures shorter { IfOk result
            (λ s. IfSome s (λ _. length cons.new.rest < length cons.old.rest)) }
    {
        cons.holds_octets();
        take_opt_signer(cons, alloc)
    }

    /// The identifier of its key (RFC 5652, section 5.3).
    pub fn sid(&self) -> &KeyIdentifier
        ensures { result.now ≡ self.now.signer.sid }
    {
        self.said.sid()
    }

    /// The attributes that it signed (RFC 5652, section 5.3), in the mode that they were read in.
    pub fn attributes(&self) -> &SignedAttrs
        ensures attributes { result.now.attributes ≡ self.now.signer.attributes }
        ensures mode { result.now.mode ≡ self.now.mode }
    {
        self.said.attributes()
    }

    /// When it signed, as it says (RFC 5652, section 11.3).
    pub fn signing_time(&self) -> Time
        ensures { result ≡ self.now.signer.attributes.signing_time }
    {
        self.attributes().signing_time()
    }

    /// The digest of the content, as it says (RFC 5652, section 11.2).
    pub fn message_digest(&self) -> &MessageDigest
        ensures { result.now ≡ self.now.signer.attributes.message_digest }
    {
        self.attributes().message_digest()
    }

    /// Its signature over the message of its attributes (RFC 5652, sections 5.3 and 5.4).
    pub fn signature(&self) -> &RpkiSignature
        ensures { result.now ≡ self.now.signer.signature }
    {
        self.said.signature()
    }

    /// The mode that it was read in. What was made is DER.
    pub fn mode(&self) -> Mode
        ensures { result ≡ self.now.mode }
    {
        self.attributes().mode()
    }

    /// What it says, to be written in DER: the attributes as they were read or made, the signature
    /// under rsaEncryption with a NULL. Refuses by `NotDer` where it was read in BER,
    /// and by `TooLong` where some contents has 2^32 octets or more.
    pub fn encode_ref(&self) -> SignerInfoEncoder<'_>
        ensures value { result ≡ self.now }
        ensures kept { IsAttested self.now }
        ensures written { self.now.mode ≡ Der → length (signer_contents self.now.signer) < 2 ^ 32
            → SignerInfoForm id_rta Der (signer_octets self.now.signer) self.now.signer }
        ensures read { self.now.mode ≡ Der → length (signer_contents self.now.signer) < 2 ^ 32
            → (mode : Mode) (rest : List ℕ)
            → signer_info_at id_rta mode (signer_octets self.now.signer ++ rest)
            ≡ Some (self.now.signer, rest) }
    {
        // What a value's type promises is known to the proof only where its field is read.
        let _ = &self.said;
        SignerInfoEncoder::new(self)
    }
}

impl Clone for SignerInfo {
    ghost is_clone = { λ s copy. copy ≡ s };

    fn clone(&self) -> Result<SignerInfo, AllocError> {
        let said = self.said.clone()?;
        Ok(SignerInfo { said })
    }
}
