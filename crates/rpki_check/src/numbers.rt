//! The numbers of the faults of certificates and objects.

ghost use Rattle.std.specs.Prelude.{◌≡◌, ◌<◌};
ghost use Rattle.rpki_check.specs.Numbers.{inspection_number, of_issuer, verification_number};

use rpki_faults::{Family, InspectionError, VerificationError};
use rpki_resources::AddressFamily;

/// The version of the calls: the upper 16 bits grow where a call changes, the lower ones where one
/// is added.
pub const VERSION: u32 = 0x1_0000;

/// The octets begin with a good object.
pub const GOOD: u32 = 0;

/// Memory ran out.
pub const NO_MEMORY: u32 = 1;

/// The date is none.
pub const NO_MOMENT: u32 = 2;

/// No kind has this number, or the object names none.
pub const NO_KIND: u32 = 3;

/// One of the revocation lists is none.
pub const NO_LIST: u32 = 4;

/// The octets begin with no object of the kind.
pub const MALFORMED: u32 = 100;

/// How much more the number of a fault is where it is one of the certificates of a question.
pub const OF_ISSUER: u32 = 1000;

/// The number of what does not fit the profile.
pub fn inspection_number(fault: InspectionError) -> u32
    ensures number { result ≡ inspection_number fault }
    ensures small { result < of_issuer }
{
    match fault {
        InspectionError::SidMismatch => 201,
        InspectionError::KeyIdentifier => 202,
        InspectionError::NoResources => 203,
        InspectionError::MissingAki => 204,
        InspectionError::MissingCrlUri => 205,
        InspectionError::MissingCaIssuer => 206,
        InspectionError::BasicCa => 207,
        InspectionError::KeyUsage => 208,
        InspectionError::Eku => 209,
        InspectionError::MissingRepository => 210,
        InspectionError::MissingManifest => 211,
        InspectionError::SignedObject => 212,
        InspectionError::MissingSignedObject => 213,
        InspectionError::CaAccess => 214,
        InspectionError::TaAki => 215,
        InspectionError::TaCrlUri => 216,
        InspectionError::TaCaIssuer => 217,
        InspectionError::TaInherit => 218,
        InspectionError::NotCovered(Family::As) => 219,
        InspectionError::NotCovered(Family::V4) => 220,
        InspectionError::NotCovered(Family::V6) => 221,
    }
}

/// The number of what fits the profile, and is not good.
pub fn verification_number(fault: VerificationError) -> u32
    ensures number { result ≡ verification_number fault }
    ensures small { result < of_issuer }
{
    match fault {
        VerificationError::DigestMismatch => 301,
        VerificationError::SigningTime => 302,
        VerificationError::BadSignature => 303,
        VerificationError::IssuerClaim => 304,
        VerificationError::NotYetValid => 305,
        VerificationError::Expired => 306,
        VerificationError::Overclaimed(Family::As) => 307,
        VerificationError::Overclaimed(Family::V4) => 308,
        VerificationError::Overclaimed(Family::V6) => 309,
        VerificationError::NoAsResources => 310,
        VerificationError::InheritedAsResources => 311,
        VerificationError::EmptyAsResources => 312,
        VerificationError::SeveralAsBlocks => 313,
        VerificationError::AsRange => 314,
        VerificationError::OtherCustomer => 315,
        VerificationError::IpResources => 316,
        VerificationError::CustomerNotHeld => 317,
        VerificationError::NoPrefixCovered(AddressFamily::Ipv4) => 318,
        VerificationError::NoPrefixCovered(AddressFamily::Ipv6) => 319,
        VerificationError::UncoveredPrefix(_) => 320,
        VerificationError::ChecklistNotHeld => 321,
        VerificationError::ManifestHash => 322,
        VerificationError::UnknownKey => 323,
        VerificationError::SignerDigest => 324,
        VerificationError::MissingCertificate => 325,
        VerificationError::MissingCrl => 326,
        VerificationError::UnusedSubjectKeys => 327,
        VerificationError::UnusedCrls => 328,
        VerificationError::UnusedEeCertificates => 329,
        VerificationError::InvalidCaCertificates => 330,
        VerificationError::PathReturns => 331,
        VerificationError::Revoked => 332,
        VerificationError::UnusedCaCertificates => 333,
        VerificationError::NotAnchored => 334,
        VerificationError::AsNotFullyCovered => 335,
        VerificationError::IpNotFullyCovered => 336,
        VerificationError::Caller => 337,
    }
}
