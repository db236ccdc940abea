//! Contents of Autonomous System Provider Authorizations (ASPAs;
//! draft-ietf-sidrops-aspa-profile-15, section 3).

mod builder;
mod checks;
mod encoder;
mod object;
mod providers;

ghost use Rattle.std.specs.Prelude.{◌≡◌, ◌<◌, ◌^◌, ◌∷◌, [], ℕ, List, length, IfOk};
ghost use Rattle.rpki_der.specs.Read.Reads.{Reads, Found};
ghost use Rattle.rpki_der.specs.Form.Decodes.{Decodes};
ghost use Rattle.rpki_der.specs.Form.Parts.{sequence_at};
ghost use Rattle.rpki_der.specs.declared.mode.Mode.TheVariants.{Der};
ghost use Rattle.rpki_der.specs.Grammar.{IsBytes};
ghost use Rattle.rpki_basics.specs.declared.limits.ProviderLimit.TheVariants.{Wide};
ghost use Rattle.rpki_resources.specs.declared.resources.Claim.{Claim};
ghost use Rattle.rpki_routes.specs.Aspa.{Aspa, IsAttestation};
ghost use Rattle.rpki_routes.specs.Aspa.Form.{AspaForm};
ghost use Rattle.rpki_routes.specs.Aspa.Read.{fields_at};
ghost use Rattle.rpki_routes.specs.Aspa.Written.{aspa_octets};

use crate::faults;
pub use builder::{AddProviderError, AspaBuilder, DuplicateProviderAs};
use bytes::Bytes;
pub use encoder::AsProviderAttestationEncoder;
pub use object::Aspa;
use providers::take_providers;
pub use providers::{ProviderAsIter, ProviderAsSet};
use rpki_basics::ProviderLimit;
use rpki_der::laws::slices_hold_octets;
use rpki_der::{Constructed, DecodeError, Mode, Tag};
use rpki_resources::{AsBlock, AsBlocksBuilder, AsResources, Asn};
use std::alloc::{AllocError, Global};
use std::marker::Model;

/// Which autonomous systems a customer says are its providers.
#[derive(Debug, Drop)]
pub struct AsProviderAttestation {
    customer: Asn,
    providers: ProviderAsSet,
}

impl Model for AsProviderAttestation {
    ghost use Rattle.rpki_basics.specs.declared.limits.ProviderLimit.TheVariants.{Wide};
    ghost use Rattle.rpki_routes.specs.Aspa.{Aspa, IsAttestation};

    ghost Value = { Aspa };

    ghost view = { λ a. record { customer = a.customer; providers = a.providers } };

    ghost invariant = { λ a. IsAttestation Wide
        (record { customer = a.customer; providers = a.providers }) };
}

impl Clone for AsProviderAttestation {
    ghost is_clone = { λ a copy. copy ≡ a };

    fn clone(&self) -> Result<AsProviderAttestation, AllocError> {
        Ok(AsProviderAttestation {
            customer: self.customer,
            providers: self.providers.clone()?,
        })
    }
}

impl AsProviderAttestation {
    /// Reads the content at the front of the source, in DER (section 3 of the profile), with at
    /// most as many providers as the limit says. Where the source begins with no content, refuses
    /// by `Malformed` or by the `Content` fault that is found first, and by `Memory` where no
    /// memory was to be had. The octets of the providers are shared with the source.
    pub fn decode(source: Bytes, limit: ProviderLimit) -> Result<AsProviderAttestation, DecodeError>
        ensures { Decodes (AspaForm limit) (λ a. a) source result }
    {
        // The proof needs that each octet is below 256, which is known of a slice and not of a
        // `Bytes`.
        slices_hold_octets(source.as_slice());
        read_front(source, limit)
    }

    /// The autonomous system whose providers these are.
    pub fn customer_as(&self) -> Asn
        ensures value { result ≡ self.now.customer }
        ensures attested { IsAttestation Wide self.now }
    {
        self.customer
    }

    /// Its providers.
    pub fn provider_as_set(&self) -> &ProviderAsSet
        ensures value { result.now ≡ self.now.providers }
        ensures attested { IsAttestation Wide self.now }
    {
        &self.providers
    }

    /// The claim that a certificate has to have for it: the customer, and no other number. Refuses
    /// where memory runs out.
    pub fn as_resources(&self, alloc: Global) -> Result<AsResources, AllocError>
        ensures { IfOk result (λ claim. claim ≡ Claim.Explicit
            (record { min = self.now.customer; max = self.now.customer } ∷ [])) }
    {
        let mut blocks = AsBlocksBuilder::new(alloc);
        blocks.push(AsBlock::Id(self.customer))?;
        Ok(AsResources::explicit(blocks.finalize()?))
    }

    /// The content, to be written in DER.
    pub fn encode_ref(&self) -> AsProviderAttestationEncoder<'_>
        ensures value { result ≡ self.now }
        ensures short { length (aspa_octets self.now) < 2 ^ 32 }
        ensures written { AspaForm Wide (aspa_octets self.now) self.now }
        ensures only { (octets : List ℕ) → IsBytes octets → AspaForm Wide octets self.now
            → octets ≡ aspa_octets self.now }
    {
        // What a value's type promises is known to the proof only where one of its fields is read.
        let _ = &self.customer;
        AsProviderAttestationEncoder::new(self)
    }
}

// Reads the content at the front.
fn read_front(source: Bytes, limit: ProviderLimit) -> Result<AsProviderAttestation, DecodeError>
    ensures { Found (λ a. a) (sequence_at (fields_at limit) Der source) result }
{
    Constructed::decode(source, Mode::Der, |cons| {
        cons.take_sequence(|cons| take_fields(cons, limit))
    })
}

// Reads the version, the customer and the providers.
#[tactic(auto, unfolding(crate::specs::Aspa::Read::fields_at))]
fn take_fields(
    cons: &mut Constructed<'_>,
    limit: ProviderLimit,
) -> Result<AsProviderAttestation, DecodeError>
    ensures { Reads (λ a. a) (fields_at limit) cons.old result cons.new }
{
    cons.take_constructed_if(Tag::CTX_0, |cons| cons.skip_u8_if(1))?;
    let customer = cons.take_u32()?;
    if customer == 0 {
        return Err(cons.refuse_for(faults::CUSTOMER_AS0));
    }
    let providers = take_providers(cons, customer, limit)?;
    Ok(AsProviderAttestation {
        customer: Asn::from_u32(customer),
        providers,
    })
}
