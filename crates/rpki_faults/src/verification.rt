//! Why a certificate or an object is not good.

ghost use Rattle.std.specs.Prelude.{◌≡◌, Some};
ghost use Rattle.rpki_faults.specs.Text.Fault.{text_of};
ghost use Rattle.rpki_faults.specs.Text.Verification.{verification_text};
ghost use Rattle.rpki_faults.specs.declared.verification.VerificationError.{VerificationError};

use crate::family::Family;
use crate::text::FaultText::{self, Fixed, Uncovered};
use crate::uncovered::UncoveredPrefix;
use rpki_resources::AddressFamily;
use std::error::Error;
use std::fmt;

/// Why a certificate, or an object with its certificates, is not good under its issuer.
#[derive(Clone, Copy, Debug, PartialEq, Eq)]
pub enum VerificationError {
    /// The message-digest attribute is not the digest of the content (RFC 5652, section 5.6).
    DigestMismatch,
    /// The signing time is after notAfter of the certificate.
    SigningTime,
    /// The signature does not verify under the key (RFC 5652, section 5.6; RFC 5280, section
    /// 6.1.3).
    BadSignature,
    /// The authority key identifier is not the issuer's subject key identifier (RFC 6487, section
    /// 4.8.3).
    IssuerClaim,
    /// The moment is before notBefore (RFC 5280, section 4.1.2.5).
    NotYetValid,
    /// The moment is after notAfter (RFC 5280, section 4.1.2.5).
    Expired,
    /// The certificate claims numbers of this family that its issuer does not have (RFC 6487,
    /// section 7.2).
    Overclaimed(Family),
    /// The certificate of an ASPA does not name AS numbers (draft-ietf-sidrops-aspa-profile-15,
    /// section 4).
    NoAsResources,
    /// The certificate of an ASPA inherits AS numbers.
    InheritedAsResources,
    /// The certificate of an ASPA claims the empty set of AS numbers.
    EmptyAsResources,
    /// The certificate of an ASPA claims more than one block of AS numbers.
    SeveralAsBlocks,
    /// The certificate of an ASPA claims a range of AS numbers.
    AsRange,
    /// The certificate of an ASPA claims one AS number, and it is not the customer's.
    OtherCustomer,
    /// The certificate of an ASPA claims addresses.
    IpResources,
    /// The certificate of an ASPA does not have the customer's AS number.
    CustomerNotHeld,
    /// A ROA has prefixes of this family, and its certificate has no addresses of it (RFC 9582,
    /// section 5).
    NoPrefixCovered(AddressFamily),
    /// The certificate of a ROA does not have all addresses of a prefix (RFC 9582, section 5).
    UncoveredPrefix(UncoveredPrefix),
    /// The certificate of a checklist does not have all numbers that the checklist names (RFC 9323,
    /// section 5).
    ChecklistNotHeld,
    /// The digest of a file is not the one that the manifest lists (RFC 9286, section 6.5).
    ManifestHash,
    /// None of the subject keys that are left in an attestation is the signer's; each signer takes
    /// one.
    UnknownKey,
    /// The message-digest attribute of a signer of an attestation is not the digest of the content.
    SignerDigest,
    /// None of the end-entity certificates that are left in an attestation has the signer's key
    /// identifier and a key that verifies its signature; each signer takes one.
    MissingCertificate,
    /// A CA certificate in an attestation finds none of its own among the revocation lists that are
    /// left; each CA certificate takes one.
    MissingCrl,
    /// A subject key of an attestation is left over: no signer took it.
    UnusedSubjectKeys,
    /// A revocation list in an attestation is left over: no CA certificate took it.
    UnusedCrls,
    /// An end-entity certificate in an attestation is left over: no signer took it.
    UnusedEeCertificates,
    /// CA certificates in an attestation have the key identifier of an issuer, and the key of none
    /// of them verifies the certificate that it should have issued.
    InvalidCaCertificates,
    /// A certification path of an attestation returns to a CA certificate that is on it already.
    PathReturns,
    /// An issuer on a certification path of an attestation has revoked the certificate below it.
    /// Where that of a published object's signer is revoked, the caller refuses it, by `Caller`.
    Revoked,
    /// A CA certificate in an attestation is on no certification path.
    UnusedCaCertificates,
    /// A certification path of an attestation ends at none of the trust anchors and CAs that were
    /// supplied.
    NotAnchored,
    /// The attested AS numbers are not exactly those of the certification paths.
    AsNotFullyCovered,
    /// The attested addresses are not exactly those of the certification paths.
    IpNotFullyCovered,
    /// The caller refused it.
    Caller,
}

impl VerificationError {
    /// What is not good, in words.
    pub fn text(&self) -> FaultText
        ensures { text_of result ≡ verification_text self.now }
    {
        match self {
            Self::DigestMismatch => Fixed("message digest mismatch in signed object"),
            Self::SigningTime => Fixed("signing time is after not_after validity time"),
            Self::BadSignature => Fixed("signature is not valid"),
            Self::IssuerClaim => Fixed("not issued by this CA"),
            Self::NotYetValid => Fixed("certificate is not yet valid"),
            Self::Expired => Fixed("certificate has expired"),
            Self::Overclaimed(Family::As) => Fixed("overclaimed AS resources"),
            Self::Overclaimed(Family::V4) => Fixed("overclaimed IPv4 resources"),
            Self::Overclaimed(Family::V6) => Fixed("overclaimed IPv6 resources"),
            Self::NoAsResources => Fixed("EE certificate is missing AS resources"),
            Self::InheritedAsResources => Fixed("EE certificate contains inherited AS resources"),
            Self::EmptyAsResources => Fixed("EE certificate contains empty AS resources"),
            Self::SeveralAsBlocks => Fixed("EE certificate contains multiple AS resource blocks"),
            Self::AsRange => Fixed("EE certificate contains AS resource with range"),
            Self::OtherCustomer => Fixed(
                "EE certificate does not contain customer AS in AS resources",
            ),
            Self::IpResources => Fixed("EE certificate is contains IP resources"),
            Self::CustomerNotHeld => Fixed("customer AS not held"),
            Self::NoPrefixCovered(AddressFamily::Ipv4) => Fixed(
                "no IPv4 ROA prefix covered by certificate",
            ),
            Self::NoPrefixCovered(AddressFamily::Ipv6) => Fixed(
                "no IPv6 ROA prefix covered by certificate",
            ),
            Self::UncoveredPrefix(uncovered) => Uncovered(*uncovered),
            Self::ChecklistNotHeld => Fixed("checklist resources not held"),
            Self::ManifestHash => Fixed("manifest hash mismatch"),
            Self::UnknownKey => Fixed("public key not found in chain"),
            Self::SignerDigest => Fixed("message digest mismatch"),
            Self::MissingCertificate => Fixed("missing certificate"),
            Self::MissingCrl => Fixed("missing CRL"),
            Self::UnusedSubjectKeys => Fixed("unused subject keys"),
            Self::UnusedCrls => Fixed("unused CRLs"),
            Self::UnusedEeCertificates => Fixed("unused EE certificates"),
            Self::InvalidCaCertificates => Fixed("only invalid CA certificates found"),
            Self::PathReturns => Fixed("path returns"),
            Self::Revoked => Fixed("CA certificate has been revoked"),
            Self::UnusedCaCertificates => Fixed("unused CA certificates"),
            Self::NotAnchored => Fixed("RTA could not be validated"),
            Self::AsNotFullyCovered => Fixed("AS resources not fully covered"),
            Self::IpNotFullyCovered => Fixed("IP resources not fully covered"),
            Self::Caller => Fixed("refused by the caller"),
        }
    }
}

impl fmt::Display for VerificationError {
    ghost output = { λ error. Some (verification_text error) };

    fn fmt<W: fmt::Write>(&self, f: &mut fmt::Formatter<W>) -> fmt::Result {
        self.text().fmt(f)
    }
}

impl Error for VerificationError {}

impl From<UncoveredPrefix> for VerificationError {
    ghost from_gives = { λ uncovered error. error ≡ VerificationError.UncoveredPrefix uncovered };

    fn from(uncovered: UncoveredPrefix) -> VerificationError {
        VerificationError::UncoveredPrefix(uncovered)
    }
}
