//! Certificate policies.

ghost use Rattle.std.specs.Prelude.{◌≡◌};
ghost use Rattle.rpki_der.specs.Form.Decodes.{DecodesNext};
ghost use Rattle.rpki_der.specs.Form.Made.{partly};
ghost use Rattle.rpki_der.specs.Read.Parse.{oid_at};
ghost use Rattle.rpki_der.specs.Read.Reads.{Reads, Stays};
ghost use Rattle.rpki_extensions.specs.Policies.{PoliciesForm, overclaim_of, policy_fields_at};
ghost use Rattle.rpki_extensions.specs.Policies.{one_policy_at, policies_at};

use crate::faults;
use crate::identifiers::policy_oid;
use rpki_der::{Constructed, DecodeError};
use rpki_faults::Overclaim;

// What the policy with this identifier says.
fn overclaim_of(oid: &[u8]) -> Option<Overclaim>
    ensures { result ≡ overclaim_of oid.now }
{
    if oid == policy_oid(Overclaim::Refuse) {
        Some(Overclaim::Refuse)
    } else if oid == policy_oid(Overclaim::Trim) {
        Some(Overclaim::Trim)
    } else {
        None
    }
}

// Reads the identifier of a policy.
fn take_policy(cons: &mut Constructed<'_>) -> Result<Overclaim, DecodeError>
    ensures reads { Reads (λ o. o) (partly overclaim_of oid_at) cons.old result cons.new }
    ensures stays { Stays result cons.new }
{
    let oid = cons.take_oid()?;
    match overclaim_of(oid.as_slice()) {
        Some(overclaim) => Ok(overclaim),
        None => Err(cons.refuse_for(faults::UNKNOWN_POLICY)),
    }
}

// Reads the identifier of a policy, and goes past what follows it.
#[tactic(auto, unfolding(crate::specs::Policies::policy_fields_at))]
fn take_fields(cons: &mut Constructed<'_>) -> Result<Overclaim, DecodeError>
    ensures { Reads (λ o. o) policy_fields_at cons.old result cons.new }
{
    let overclaim = take_policy(cons)?;
    cons.skip_all()?;
    Ok(overclaim)
}

// Reads the one policy.
#[tactic(auto, unfolding(crate::specs::Policies::one_policy_at))]
fn take_one(cons: &mut Constructed<'_>) -> Result<Overclaim, DecodeError>
    ensures { Reads (λ o. o) one_policy_at cons.old result cons.new }
{
    cons.take_sequence(take_fields)
}

// Reads the policies.
fn take_policies(cons: &mut Constructed<'_>) -> Result<Overclaim, DecodeError>
    ensures reads { Reads (λ o. o) policies_at cons.old result cons.new }
    ensures stays { Stays result cons.new }
{
    cons.take_sequence(take_one)
}

/// Reads certificate policies, of which there is one: it says what is done where the certificate
/// claims more than its issuer has (RFC 5280, section 4.2.1.4; RFC 6487, section 4.8.9; RFC 8360,
/// section 4.2.1). Values after the identifier are gone past. Refuses by `UNKNOWN_POLICY` for
/// another policy, by `Malformed`, or by `Memory`.
pub fn take_certificate_policies(cons: &mut Constructed<'_>) -> Result<Overclaim, DecodeError>
    ensures reads { Reads (λ o. o) policies_at cons.old result cons.new }
    ensures decodes { DecodesNext PoliciesForm (λ o. o) cons.old result cons.new }
    ensures stays { Stays result cons.new }
{
    cons.holds_octets();
    take_policies(cons)
}
