//! Building contents of multi-signed attestations (draft-michaelson-rpki-rta, section 4).

ghost use Rattle.std.specs.Prelude.{◌≡◌, ℕ, ◌++◌, ◌∷◌, [], ◌<◌, ◌^◌, All, IsTrue, false, length};
ghost use Rattle.std.specs.Prelude.{IfErr, IfOk, OnErr, OnOk};
ghost use Rattle.std.specs.Borrow.{sem};
ghost use Rattle.rpki_basics.specs.Identifier.{identifier_length};
ghost use Rattle.rpki_der.specs.declared.mode.Mode.TheVariants.{Der};
ghost use Rattle.rpki_lists.specs.Built.{IsNotBuilt};
ghost use Rattle.rpki_resources.specs.As.{as_range};
ghost use Rattle.rpki_resources.specs.Blocks.{Holds, IsBlock};
ghost use Rattle.rpki_resources.specs.Family.{IsWithin};
ghost use Rattle.rpki_resources.specs.Ip.{ip_range};
ghost use Rattle.rpki_resources.specs.declared.family.AddressFamily.TheVariants.{Ipv4};
ghost use Rattle.rpki_tagged.specs.Attestation.{AttestationForm};
ghost use Rattle.rpki_tagged.specs.Attestation.{attestation_contents, attestation_octets};
ghost use Rattle.rpki_tagged.specs.Built.{IsBuiltOf, IsTooLong, HasNumbers, attestation_checks};
ghost use Rattle.rpki_tagged.specs.Lent.{LendsKeys, LendsNumbers, LendsV4, LendsV6};

use crate::attestation::ResourceTaggedAttestation;
use rpki_attributes::MessageDigest;
use rpki_basics::{BuildError, BuildFault, DigestAlgorithm, KeyIdentifier};
use rpki_der::Encode;
use rpki_lists::named::encoder::is_empty_set;
use rpki_resources::{AsBlock, AsBlocksBuilder, Blocks, IpBlock, IpBlocksBuilder, Number};
use std::alloc::{AllocError, Global};
use std::marker::Model;

/// A builder of a content: the keys that are to sign, the blocks of numbers that they attest, and
/// the digest of the document. Contracts see it as a content whose blocks stand as they were
/// added.
#[derive(Drop)]
pub struct AttestationBuilder {
    keys: Vec<KeyIdentifier>,
    as_resources: AsBlocksBuilder,
    v4_resources: IpBlocksBuilder,
    v6_resources: IpBlocksBuilder,
    message_digest: MessageDigest,
}

impl Model for AttestationBuilder {
    ghost use Rattle.rpki_tagged.specs.Attestation.{Attestation};

    ghost Value = { Attestation };

    ghost view = { λ b. record {
      subject_keys = b.keys.items;
      as_resources = b.as_resources;
      v4_resources = b.v4_resources;
      v6_resources = b.v6_resources;
      message_digest = b.message_digest;
    } };
}

impl AttestationBuilder {
    /// A builder for the document with this digest, without keys and without numbers. The one
    /// algorithm that there is, SHA-256, made the digest (RFC 7935, section 2).
    pub fn new(
        alloc: Global,
        _digest_algorithm: DigestAlgorithm,
        message_digest: MessageDigest,
    ) -> AttestationBuilder
        ensures { result ≡ record {
          subject_keys = [];
          as_resources = [];
          v4_resources = [];
          v6_resources = [];
          message_digest = message_digest;
        } }
    {
        AttestationBuilder {
            keys: Vec::new(alloc),
            as_resources: AsBlocksBuilder::new(alloc),
            v4_resources: IpBlocksBuilder::new(alloc),
            v6_resources: IpBlocksBuilder::new(alloc),
            message_digest,
        }
    }

    /// Adds the identifier of a key that is to sign. Where there is no memory for it, the builder
    /// stays as it was.
    pub fn push_key(&mut self, key: KeyIdentifier) -> Result<(), AllocError>
        ensures ok { OnOk result
            (self.new ≡ record self.old { subject_keys = self.old.subject_keys ++ key ∷ [] }) }
        ensures err { OnErr result (self.new ≡ self.old) }
    {
        self.keys.push(key)?;
        Ok(())
    }

    /// The identifiers of the keys, in the order in which they were added.
    pub fn keys(&self) -> &[KeyIdentifier]
        ensures { result.now ≡ self.now.subject_keys }
    {
        self.keys.as_slice()
    }

    /// Mutable access to the identifiers of the keys.
    pub fn keys_mut(&mut self) -> &mut Vec<KeyIdentifier>
        ensures* writes_back { sem 𝓛 (LendsKeys self.entry result) }
        ensures value { result.now.items ≡ self.old.subject_keys }
    {
        &mut self.keys
    }

    /// Adds AS numbers, from a lower end that is not above the upper end. Where there is no memory
    /// for them, the builder stays as it was.
    pub fn push_as(&mut self, block: AsBlock) -> Result<(), AllocError>
        requires { IsBlock (λ n. n) (as_range block) }
        ensures ok { OnOk result (self.new ≡ record self.old {
          as_resources = self.old.as_resources ++ as_range block ∷ [];
        }) }
        ensures err { OnErr result (self.new ≡ self.old) }
    {
        self.as_resources.push(block)
    }

    /// The AS numbers that were added.
    pub fn as_resources(&self) -> &AsBlocksBuilder
        ensures { result.now ≡ self.now.as_resources }
    {
        &self.as_resources
    }

    /// Mutable access to the AS numbers.
    pub fn as_resources_mut(&mut self) -> &mut AsBlocksBuilder
        ensures* writes_back { sem 𝓛 (LendsNumbers self.entry result) }
        ensures value { result.now ≡ self.old.as_resources }
    {
        &mut self.as_resources
    }

    /// Adds addresses of IPv4, from a lower end that is not above the upper end. That both are of
    /// this family, `into_attestation` asks. Where there is no memory for them, the builder stays
    /// as it was.
    pub fn push_v4(&mut self, block: IpBlock) -> Result<(), AllocError>
        requires { IsBlock (λ n. n) (ip_range block) }
        ensures ok { OnOk result (self.new ≡ record self.old {
          v4_resources = self.old.v4_resources ++ ip_range block ∷ [];
        }) }
        ensures err { OnErr result (self.new ≡ self.old) }
    {
        self.v4_resources.push(block)
    }

    /// The addresses of IPv4 that were added.
    pub fn v4_resources(&self) -> &IpBlocksBuilder
        ensures { result.now ≡ self.now.v4_resources }
    {
        &self.v4_resources
    }

    /// Mutable access to the addresses of IPv4.
    pub fn v4_resources_mut(&mut self) -> &mut IpBlocksBuilder
        ensures* writes_back { sem 𝓛 (LendsV4 self.entry result) }
        ensures value { result.now ≡ self.old.v4_resources }
    {
        &mut self.v4_resources
    }

    /// Adds addresses of IPv6, from a lower end that is not above the upper end. Where there is no
    /// memory for them, the builder stays as it was.
    pub fn push_v6(&mut self, block: IpBlock) -> Result<(), AllocError>
        requires { IsBlock (λ n. n) (ip_range block) }
        ensures ok { OnOk result (self.new ≡ record self.old {
          v6_resources = self.old.v6_resources ++ ip_range block ∷ [];
        }) }
        ensures err { OnErr result (self.new ≡ self.old) }
    {
        self.v6_resources.push(block)
    }

    /// The addresses of IPv6 that were added.
    pub fn v6_resources(&self) -> &IpBlocksBuilder
        ensures { result.now ≡ self.now.v6_resources }
    {
        &self.v6_resources
    }

    /// Mutable access to the addresses of IPv6.
    pub fn v6_resources_mut(&mut self) -> &mut IpBlocksBuilder
        ensures* writes_back { sem 𝓛 (LendsV6 self.entry result) }
        ensures value { result.now ≡ self.old.v6_resources }
    {
        &mut self.v6_resources
    }

    /// The content (draft-michaelson-rpki-rta, section 4): the keys in their order, and the sets of
    /// the numbers that were added, whose blocks may overlap and may have been added in any order.
    /// The addresses of IPv4 have to be of this family: the lower end of a block ends in 96 zero
    /// bits and the upper end in 96 ones, as those of a prefix of at most 32 bits do. Refuses by
    /// `NoResources` where all three sets are empty, though such a content can be read; by `TooLong`
    /// where its SEQUENCE would have contents of 2^32 octets or more; and by `Memory`.
    pub fn into_attestation(self) -> Result<ResourceTaggedAttestation, BuildError>
        requires { All (IsWithin Ipv4) self.v4_resources }
        ensures built { IfOk result (IsBuiltOf self) }
        ensures named { OnOk result (HasNumbers self) }
        ensures short { IfOk result (λ a. length (attestation_contents a) < 2 ^ 32) }
        ensures written { IfOk result (λ a. AttestationForm Der (attestation_octets a) a) }
        ensures refused { IfErr result
            (IsNotBuilt (attestation_checks self) (IsTooLong self)) }
    {
        let attestation = self.sets()?;
        if has_numbers(&attestation) {
            short(attestation)
        } else {
            drop(attestation);
            Err(BuildError::from(BuildFault::NoResources))
        }
    }

    // The content, whatever it names and however long it is.
    fn sets(self) -> Result<ResourceTaggedAttestation, AllocError>
        requires { All (IsWithin Ipv4) self.v4_resources }
        ensures { IfOk result (IsBuiltOf self) }
    {
        let AttestationBuilder {
            keys: subject_keys,
            as_resources,
            v4_resources,
            v6_resources,
            message_digest,
        } = self;
        are_identifiers(&subject_keys);
        let numbers = as_resources.finalize()?;
        let v4 = v4_resources.finalize()?;
        let v6 = v6_resources.finalize()?;
        Ok(ResourceTaggedAttestation {
            subject_keys,
            as_resources: numbers,
            v4_resources: v4,
            v6_resources: v6,
            message_digest,
        })
    }
}

// Each identifier of a key has 20 octets.
fn are_identifiers(keys: &[KeyIdentifier])
    ensures { All (λ id. length id ≡ identifier_length) keys.now }
{
    for key in keys {
        let _ = key.as_slice();
    }
}

// Whether a number lies in the set.
fn has_number<T: Number>(set: &Blocks<T>) -> bool
    ensures some { IsTrue result → (n : ℕ) × Holds T.number set.now n }
    ensures none { result ≡ false → set.now ≡ [] }
{
    // The proof takes from this call that the blocks ascend.
    let _ = set.as_slice();
    !is_empty_set(set)
}

// Whether there is an AS number, or an address of a family.
fn has_numbers(attestation: &ResourceTaggedAttestation) -> bool
    ensures some { IsTrue result → HasNumbers attestation.now }
    ensures none { result ≡ false → HasNumbers attestation.now → ⊥ }
{
    if has_number(attestation.as_resources()) {
        return true;
    }
    if has_number(attestation.v4_resources()) {
        return true;
    }
    has_number(attestation.v6_resources())
}

// The content, if it has few enough octets to be written.
fn short(attestation: ResourceTaggedAttestation) -> Result<ResourceTaggedAttestation, BuildError>
    ensures same { IfOk result (λ same. same ≡ attestation) }
    ensures short { OnOk result (length (attestation_contents attestation) < 2 ^ 32) }
    ensures written { OnOk result
        (AttestationForm Der (attestation_octets attestation) attestation) }
    ensures refused { IfErr result
        (IsNotBuilt [] (length (attestation_contents attestation) < 2 ^ 32 → ⊥)) }
{
    match attestation.encode_ref().encoded_len() {
        Ok(_) => Ok(attestation),
        Err(_) => {
            drop(attestation);
            Err(BuildError::TooLong)
        }
    }
}
