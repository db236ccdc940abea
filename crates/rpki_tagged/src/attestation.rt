//! Contents of multi-signed attestations (draft-michaelson-rpki-rta, section 4).

mod builder;
mod encoder;
mod read;

ghost use Rattle.std.specs.Prelude.{◌≡◌, ◌<◌, ◌^◌, ◌++◌, ℕ, List, All, Some, length};
ghost use Rattle.rpki_basics.specs.Identifier.{identifier_length};
ghost use Rattle.rpki_basics.specs.declared.algorithm.DigestAlgorithm.TheVariants.{Sha256};
ghost use Rattle.rpki_der.specs.declared.mode.Mode.TheVariants.{Der};
ghost use Rattle.rpki_der.specs.Form.Decodes.{Decodes};
ghost use Rattle.rpki_resources.specs.declared.family.AddressFamily.TheVariants.{Ipv4};
ghost use Rattle.rpki_resources.specs.Family.{IsWithin};
ghost use Rattle.rpki_tagged.specs.Attestation.{AttestationForm, attestation_at};
ghost use Rattle.rpki_tagged.specs.Attestation.{attestation_contents, attestation_octets};

pub use builder::AttestationBuilder;
use bytes::Bytes;
pub use encoder::AttestationEncoder;
use read::read_front;
use rpki_attributes::MessageDigest;
use rpki_basics::{DigestAlgorithm, KeyIdentifier};
use rpki_der::DecodeError;
use rpki_der::laws::slices_hold_octets;
use rpki_resources::{AddressFamily, AsBlocks, IpBlocks};
use std::alloc::{AllocError, Global};
use std::marker::Model;

/// Which numbers are attested, by which keys, and of which document (draft-michaelson-rpki-rta,
/// section 4). Nothing of a signature is tested here.
#[derive(Debug, Drop)]
pub struct ResourceTaggedAttestation {
    subject_keys: Vec<KeyIdentifier>,
    as_resources: AsBlocks,
    v4_resources: IpBlocks,
    v6_resources: IpBlocks,
    message_digest: MessageDigest,
}

impl Model for ResourceTaggedAttestation {
    ghost use Rattle.std.specs.Prelude.{◌≡◌, All, length};
    ghost use Rattle.rpki_basics.specs.Identifier.{identifier_length};
    ghost use Rattle.rpki_resources.specs.declared.family.AddressFamily.TheVariants.{Ipv4};
    ghost use Rattle.rpki_resources.specs.Family.{IsWithin};
    ghost use Rattle.rpki_tagged.specs.Attestation.{Attestation};

    ghost Value = { Attestation };

    ghost view = { λ a. record {
      subject_keys = a.subject_keys.items;
      as_resources = a.as_resources;
      v4_resources = a.v4_resources;
      v6_resources = a.v6_resources;
      message_digest = a.message_digest;
    } };

    ghost invariant = { λ a. All (IsWithin Ipv4) a.v4_resources
        × All (λ id. length id ≡ identifier_length) a.subject_keys.items };
}

impl Clone for ResourceTaggedAttestation {
    ghost is_clone = { λ a copy. copy ≡ a };

    fn clone(&self) -> Result<ResourceTaggedAttestation, AllocError> {
        Ok(ResourceTaggedAttestation {
            subject_keys: self.subject_keys.clone()?,
            as_resources: self.as_resources.clone()?,
            v4_resources: self.v4_resources.clone()?,
            v6_resources: self.v6_resources.clone()?,
            message_digest: self.message_digest.clone()?,
        })
    }
}

impl ResourceTaggedAttestation {
    /// Reads the content at the front of the source, by the rules of DER
    /// (draft-michaelson-rpki-rta, section 4). Where the source begins with no content, refuses by
    /// `Malformed` or by the `Content` fault that is found first, and by `Memory` where no memory
    /// was to be had.
    pub fn decode(alloc: Global, source: Bytes) -> Result<ResourceTaggedAttestation, DecodeError>
        ensures { Decodes (AttestationForm Der) (λ a. a) source result }
    {
        // The proof needs that each octet is below 256, which is known of a slice and not of a
        // `Bytes`.
        slices_hold_octets(source.as_slice());
        read_front(alloc, source)
    }

    /// The identifiers of the keys that are to sign, in the order in which they stand.
    pub fn subject_keys(&self) -> &[KeyIdentifier]
        ensures value { result.now ≡ self.now.subject_keys }
        ensures len { All (λ id. length id ≡ identifier_length) self.now.subject_keys }
    {
        self.subject_keys.as_slice()
    }

    /// The AS numbers that are attested. Whether the signers hold them is not tested here.
    pub fn as_resources(&self) -> &AsBlocks
        ensures { result.now ≡ self.now.as_resources }
    {
        &self.as_resources
    }

    /// The IPv4 addresses that are attested. Whether the signers hold them is not tested here.
    pub fn v4_resources(&self) -> &IpBlocks
        ensures value { result.now ≡ self.now.v4_resources }
        ensures addresses { All (IsWithin Ipv4) self.now.v4_resources }
    {
        &self.v4_resources
    }

    /// The IPv6 addresses that are attested. Whether the signers hold them is not tested here.
    pub fn v6_resources(&self) -> &IpBlocks
        ensures { result.now ≡ self.now.v6_resources }
    {
        &self.v6_resources
    }

    /// The algorithm of the digest.
    pub fn digest_algorithm(&self) -> DigestAlgorithm
        ensures { result ≡ Sha256 }
    {
        DigestAlgorithm::sha256()
    }

    /// The digest of the document. It is compared with no document here.
    pub fn message_digest(&self) -> &MessageDigest
        ensures { result.now ≡ self.now.message_digest }
    {
        &self.message_digest
    }

    /// The content, to be written in DER: without its version, the keys in their order, each set in
    /// its canonical form, and empty sets left out. Where all three are empty, the AS numbers are
    /// written as an empty list, since something has to be named. Refuses by `TooLong` where some
    /// contents has 2^32 octets or more.
    pub fn encode_ref(&self) -> AttestationEncoder<'_>
        ensures value { result ≡ self.now }
        ensures written { length (attestation_contents self.now) < 2 ^ 32
            → AttestationForm Der (attestation_octets self.now) self.now }
        ensures read { length (attestation_contents self.now) < 2 ^ 32 → (rest : List ℕ)
            → attestation_at Der (attestation_octets self.now ++ rest) ≡ Some (self.now, rest) }
    {
        // The proof takes from these calls that each field is written in its form.
        let _ = self.as_resources.encode_ref();
        let _ = self.v4_resources.encode_ref(AddressFamily::Ipv4);
        let _ = self.v6_resources.encode_ref(AddressFamily::Ipv6);
        AttestationEncoder::new(self)
    }
}
