//! What is checked of the certificate of an ASPA (draft-ietf-sidrops-aspa-profile-15, section 4).

ghost use Rattle.rpki_faults.specs.Checks.{AnswersFirstFault};
ghost use Rattle.rpki_routes.specs.Aspa.Checks.{number_checks, block_checks, address_checks};
ghost use Rattle.rpki_routes.specs.Aspa.Checks.{aspa_claimed, aspa_held};

use crate::aspa::AsProviderAttestation;
use rpki_certs::{Cert, ResourceCert};
use rpki_faults::VerificationError;
use rpki_resources::{AsBlock, AsBlocks, Asn, Claim};

// Verifies that these are the customer alone.
fn verify_blocks(customer: Asn, set: &AsBlocks) -> Result<(), VerificationError>
    ensures { AnswersFirstFault (block_checks customer set.now) result }
{
    let Some((first, others)) = set.as_slice().split_first() else {
        return Err(VerificationError::EmptyAsResources);
    };
    if !others.is_empty() {
        return Err(VerificationError::SeveralAsBlocks);
    }
    if first.min != first.max {
        return Err(VerificationError::AsRange);
    }
    if first.min != customer {
        return Err(VerificationError::OtherCustomer);
    }
    Ok(())
}

// Verifies the AS numbers that a certificate claims.
fn verify_numbers(customer: Asn, cert: &Cert) -> Result<(), VerificationError>
    ensures { AnswersFirstFault
        (number_checks customer cert.now.certificate.tbs.extensions.claims.as_numbers) result }
{
    match cert.as_resources().claim() {
        Claim::Missing => Err(VerificationError::NoAsResources),
        Claim::Inherit => Err(VerificationError::InheritedAsResources),
        Claim::Explicit(set) => verify_blocks(customer, set),
    }
}

// Verifies that a certificate claims no addresses.
fn verify_addresses(cert: &Cert) -> Result<(), VerificationError>
    ensures { AnswersFirstFault
        (address_checks cert.now.certificate.tbs.extensions.claims) result }
{
    if cert.v4_resources().is_present() || cert.v6_resources().is_present() {
        return Err(VerificationError::IpResources);
    }
    Ok(())
}

/// Verifies what a certificate claims. Refuses by the fault of the first check that does not hold,
/// in this order: `NoAsResources`, `InheritedAsResources`, `EmptyAsResources`, `SeveralAsBlocks`,
/// `AsRange`, `OtherCustomer`, `IpResources`.
pub fn verify_claimed(aspa: &AsProviderAttestation, cert: &Cert) -> Result<(), VerificationError>
    ensures { AnswersFirstFault
        (aspa_claimed aspa.now cert.now.certificate.tbs.extensions.claims) result }
{
    verify_numbers(aspa.customer_as(), cert)?;
    verify_addresses(cert)
}

/// Verifies that a validated certificate has the customer. Refuses by `CustomerNotHeld`.
pub fn verify_customer(
    aspa: &AsProviderAttestation,
    cert: &ResourceCert,
) -> Result<(), VerificationError>
    ensures { AnswersFirstFault (aspa_held aspa.now cert.now.sets) result }
{
    if cert
        .as_resources()
        .contains_block(AsBlock::Id(aspa.customer_as()))
    {
        Ok(())
    } else {
        Err(VerificationError::CustomerNotHeld)
    }
}
