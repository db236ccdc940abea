//! Why a certificate does not fit the profile.

ghost use Rattle.std.specs.Prelude.{◌≡◌, Some};
ghost use Rattle.rpki_faults.specs.Text.Inspection.{inspection_text};

use crate::family::Family;
use std::error::Error;
use std::fmt;

/// Why a certificate, or an object with its certificate, does not fit the profile (RFC 6487).
#[derive(Clone, Copy, Debug, PartialEq, Eq)]
pub enum InspectionError {
    /// The signer identifier is not the subject key identifier of the certificate (RFC 6488,
    /// section 3).
    SidMismatch,
    /// The subject key identifier is not the SHA-1 digest of the key (RFC 6487, section 4.8.2).
    KeyIdentifier,
    /// None of the three families of numbers is named (RFC 6487, section 4.8.10).
    NoResources,
    /// The authority key identifier is missing (RFC 6487, section 4.8.3).
    MissingAki,
    /// The certificate does not say where its issuer's revocation list is (RFC 6487, section
    /// 4.8.6).
    MissingCrlUri,
    /// The certificate does not say where its issuer's certificate is (RFC 6487, section 4.8.7).
    MissingCaIssuer,
    /// The basic constraints are not those of the kind of certificate (RFC 6487, section 4.8.1).
    BasicCa,
    /// The key usage is not that of the kind of certificate (RFC 6487, section 4.8.4).
    KeyUsage,
    /// The certificate has an extended key usage (RFC 6487, section 4.8.5).
    Eku,
    /// The certificate of a CA does not say where its repository is (RFC 6487, section 4.8.8.1).
    MissingRepository,
    /// The certificate of a CA does not say where its manifest is (RFC 6487, section 4.8.8.1).
    MissingManifest,
    /// The certificate of a CA says where a signed object is (RFC 6487, section 4.8.8.1).
    SignedObject,
    /// The certificate of a signed object does not say where the object is (RFC 6487, section
    /// 4.8.8.2).
    MissingSignedObject,
    /// The certificate of a signed object says where a repository or a manifest is (RFC 6487,
    /// section 4.8.8.2).
    CaAccess,
    /// The authority key identifier of a trust anchor is not its own subject key identifier (RFC
    /// 6487, section 4.8.3).
    TaAki,
    /// A trust anchor says where an issuer's revocation list is (RFC 6487, section 4.8.6).
    TaCrlUri,
    /// A trust anchor says where an issuer's certificate is (RFC 6487, section 4.8.7).
    TaCaIssuer,
    /// A trust anchor inherits numbers (RFC 8630, section 2.3).
    TaInherit,
    /// The certificate of a checklist does not claim all its numbers of this family (RFC 9323,
    /// section 5).
    NotCovered(Family),
}

impl InspectionError {
    /// What does not fit, in words.
    pub fn text(self) -> &'static str
        ensures { result.now ≡ inspection_text self }
    {
        match self {
            InspectionError::SidMismatch => "Subject Key Identifier mismatch in signed object",
            InspectionError::KeyIdentifier => "key identifier mismatch",
            InspectionError::NoResources => "no resources",
            InspectionError::MissingAki => "missing AKI",
            InspectionError::MissingCrlUri => "missing CRL URI",
            InspectionError::MissingCaIssuer => "missing CA issuer",
            InspectionError::BasicCa => "wrong basic constraints",
            InspectionError::KeyUsage => "wrong key usage",
            InspectionError::Eku => "unexpected extended key usage",
            InspectionError::MissingRepository => "missing CA repository",
            InspectionError::MissingManifest => "missing manifest URI",
            InspectionError::SignedObject => "unexpected signed object URI",
            InspectionError::MissingSignedObject => "missing signed object URI",
            InspectionError::CaAccess => "unexpected CA access",
            InspectionError::TaAki => "bad AKI of trust anchor",
            InspectionError::TaCrlUri => "unexpected CRL URI",
            InspectionError::TaCaIssuer => "unexpected CA issuer",
            InspectionError::TaInherit => "trust anchor inherits",
            InspectionError::NotCovered(Family::As) => "AS resources not covered",
            InspectionError::NotCovered(Family::V4) => "IPv4 resources not covered",
            InspectionError::NotCovered(Family::V6) => "IPv6 resources not covered",
        }
    }
}

impl fmt::Display for InspectionError {
    ghost output = { λ error. Some (inspection_text error) };

    fn fmt<W: fmt::Write>(&self, f: &mut fmt::Formatter<W>) -> fmt::Result {
        f.write_str(self.text())
    }
}

impl Error for InspectionError {}
