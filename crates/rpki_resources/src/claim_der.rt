//! Claims in DER and BER (RFC 3779, sections 2.2.3.4 and 3.2.3.2).

ghost use Rattle.rpki_der.specs.Read.Reads.{Reads, Stays};
ghost use Rattle.rpki_der.specs.Form.Decodes.{DecodesNext};
ghost use Rattle.rpki_resources.specs.Claim.Form.{AsClaimForm, IpClaimForm, AsIdentifiersForm};
ghost use Rattle.rpki_resources.specs.Claim.Read.{as_claim_at, ip_claim_at, numbers_at};
ghost use Rattle.rpki_resources.specs.Claim.Read.{as_identifiers_at, no_domains_at};

use crate::addr::Addr;
use crate::asn::{AsBlocks, Asn};
use crate::family::AddressFamily;
use crate::faults;
use crate::ip::IpBlocks;
use crate::resources::{AsResources, IpResources, Resources};
use rpki_der::{Constructed, DecodeError, Tag};
use std::alloc::Global;

// Reads NULL, or a set of AS numbers.
#[tactic(auto, unfolding(crate::specs::Claim::Read::as_claim_at))]
fn take_as_claim(cons: &mut Constructed<'_>, alloc: Global) -> Result<AsResources, DecodeError>
    ensures reads { Reads (λ claim. claim) as_claim_at cons.old result cons.new }
    ensures stays { Stays result cons.new }
{
    match cons.skip_opt_null()? {
        Some(()) => Ok(Resources::inherit()),
        None => Ok(Resources::explicit(AsBlocks::take_from(alloc, cons)?)),
    }
}

// Reads NULL, or a set of addresses of the family.
#[tactic(auto, unfolding(crate::specs::Claim::Read::ip_claim_at))]
fn take_ip_claim(
    cons: &mut Constructed<'_>,
    alloc: Global,
    family: AddressFamily,
) -> Result<IpResources, DecodeError>
    ensures reads { Reads (λ claim. claim) (ip_claim_at family) cons.old result cons.new }
    ensures stays { Stays result cons.new }
{
    match cons.skip_opt_null()? {
        Some(()) => Ok(Resources::inherit()),
        None => Ok(Resources::explicit(IpBlocks::take_from(alloc, cons, family)?)),
    }
}

// Refuses routing domain identifiers, which stand under [1].
#[tactic(auto, unfolding(crate::specs::Claim::Read::no_domains_at))]
fn refuse_domains(cons: &mut Constructed<'_>) -> Result<(), DecodeError>
    ensures reads { Reads (λ u. u) no_domains_at cons.old result cons.new }
    ensures stays { Stays result cons.new }
{
    match cons.take_opt_constructed_if(Tag::CTX_1, |cons| cons.skip_all())? {
        Some(()) => Err(cons.refuse_for(faults::ROUTING_DOMAINS)),
        None => Ok(()),
    }
}

// Reads what stands under [0], and no routing domain identifiers.
#[tactic(auto, unfolding(crate::specs::Claim::Read::numbers_at))]
fn take_numbers(cons: &mut Constructed<'_>, alloc: Global) -> Result<AsResources, DecodeError>
    ensures reads { Reads (λ claim. claim) numbers_at cons.old result cons.new }
    ensures stays { Stays result cons.new }
{
    refuse_domains(cons)?;
    let claim = cons.take_constructed_if(Tag::CTX_0, |cons| take_as_claim(cons, alloc))?;
    refuse_domains(cons)?;
    Ok(claim)
}

// Reads the SEQUENCE.
fn take_identifiers(cons: &mut Constructed<'_>, alloc: Global) -> Result<AsResources, DecodeError>
    ensures reads { Reads (λ claim. claim) as_identifiers_at cons.old result cons.new }
    ensures stays { Stays result cons.new }
{
    cons.take_sequence(|cons| take_numbers(cons, alloc))
}

impl Resources<Asn> {
    /// Reads NULL, which inherits, or a set of AS numbers, which is claimed even where there is
    /// none (RFC 3779, section 3.2.3.2). What is neither is refused as `AsBlocks::take_from` does.
    pub fn take_from(alloc: Global, cons: &mut Constructed<'_>) -> Result<AsResources, DecodeError>
        ensures reads { Reads (λ claim. claim) as_claim_at cons.old result cons.new }
        ensures stays { Stays result cons.new }
        ensures decodes { DecodesNext AsClaimForm (λ claim. claim) cons.old result cons.new }
    {
        cons.holds_octets();
        take_as_claim(cons, alloc)
    }

    /// Reads the value of the extension of AS numbers: a SEQUENCE of NULL or a set of AS numbers
    /// under [0] (RFC 3779, section 3.2.3.1). Routing domain identifiers, [1], are refused by
    /// `ROUTING_DOMAINS` (RFC 6487, section 4.8.11), and a value without [0] by `Malformed`. Where
    /// there is no memory for the numbers, the answer is `Memory`.
    pub fn take_identifiers_from(
        alloc: Global,
        cons: &mut Constructed<'_>,
    ) -> Result<AsResources, DecodeError>
        ensures reads { Reads (λ claim. claim) as_identifiers_at cons.old result cons.new }
        ensures stays { Stays result cons.new }
        ensures decodes { DecodesNext AsIdentifiersForm (λ claim. claim) cons.old result cons.new }
    {
        cons.holds_octets();
        take_identifiers(cons, alloc)
    }
}

impl Resources<Addr> {
    /// Reads NULL, which inherits, or a set of addresses of the family, which is claimed even where
    /// there is none (RFC 3779, section 2.2.3.4). What is neither is refused as
    /// `IpBlocks::take_from` does.
    pub fn take_from(
        alloc: Global,
        cons: &mut Constructed<'_>,
        family: AddressFamily,
    ) -> Result<IpResources, DecodeError>
        ensures reads { Reads (λ claim. claim) (ip_claim_at family) cons.old result cons.new }
        ensures stays { Stays result cons.new }
        ensures decodes { DecodesNext (IpClaimForm family) (λ claim. claim)
            cons.old result cons.new }
    {
        cons.holds_octets();
        take_ip_claim(cons, alloc, family)
    }
}
