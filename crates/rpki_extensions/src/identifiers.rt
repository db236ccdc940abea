//! The identifiers of extensions, policies and access methods.

ghost use Rattle.std.specs.Prelude.{◌≡◌, bytes_eq};
ghost use Rattle.rpki_extensions.specs.Extension.{is_among};
ghost use Rattle.rpki_extensions.specs.Extensions.{certificate_extensions, ip_resources};
ghost use Rattle.rpki_extensions.specs.Extensions.{as_resources, other};
ghost use Rattle.rpki_extensions.specs.Policies.{policy_oid};

use rpki_faults::Overclaim;

/// id-ce-subjectKeyIdentifier (RFC 6487, section 4.8.2).
pub const SUBJECT_KEY_IDENTIFIER: [u8; 3] = [0x55, 0x1D, 14];

/// id-ce-keyUsage (RFC 6487, section 4.8.4).
pub const KEY_USAGE: [u8; 3] = [0x55, 0x1D, 15];

/// id-ce-basicConstraints (RFC 6487, section 4.8.1).
pub const BASIC_CONSTRAINTS: [u8; 3] = [0x55, 0x1D, 19];

/// id-ce-cRLDistributionPoints (RFC 6487, section 4.8.6).
pub const CRL_DISTRIBUTION_POINTS: [u8; 3] = [0x55, 0x1D, 31];

/// id-ce-certificatePolicies (RFC 6487, section 4.8.9).
pub const CERTIFICATE_POLICIES: [u8; 3] = [0x55, 0x1D, 32];

/// id-ce-authorityKeyIdentifier (RFC 6487, section 4.8.3).
pub const AUTHORITY_KEY_IDENTIFIER: [u8; 3] = [0x55, 0x1D, 35];

/// id-ce-extKeyUsage (RFC 6487, section 4.8.5).
pub const EXTENDED_KEY_USAGE: [u8; 3] = [0x55, 0x1D, 37];

/// id-pe-authorityInfoAccess (RFC 6487, section 4.8.7).
pub const AUTHORITY_INFO_ACCESS: [u8; 8] = [0x2B, 0x06, 0x01, 0x05, 0x05, 0x07, 0x01, 1];

/// id-pe-subjectInfoAccess (RFC 6487, section 4.8.8).
pub const SUBJECT_INFO_ACCESS: [u8; 8] = [0x2B, 0x06, 0x01, 0x05, 0x05, 0x07, 0x01, 11];

// id-pe-ipAddrBlocks (RFC 6487, section 4.8.10).
const IP_RESOURCES: [u8; 8] = [0x2B, 0x06, 0x01, 0x05, 0x05, 0x07, 0x01, 7];

// id-pe-autonomousSysIds (RFC 6487, section 4.8.11).
const AS_RESOURCES: [u8; 8] = [0x2B, 0x06, 0x01, 0x05, 0x05, 0x07, 0x01, 8];

// id-pe-ipAddrBlocks-v2 (RFC 8360, section 4.2.2.1).
const IP_RESOURCES_V2: [u8; 8] = [0x2B, 0x06, 0x01, 0x05, 0x05, 0x07, 0x01, 28];

// id-pe-autonomousSysIds-v2 (RFC 8360, section 4.2.2.3).
const AS_RESOURCES_V2: [u8; 8] = [0x2B, 0x06, 0x01, 0x05, 0x05, 0x07, 0x01, 29];

// id-cp-ipAddr-asNumber (RFC 6484, section 1.2).
const IP_ADDR_AS_NUMBER: [u8; 8] = [0x2B, 0x06, 0x01, 0x05, 0x05, 0x07, 0x0E, 2];

// id-cp-ipAddr-asNumber-v2 (RFC 8360, section 4.2.1).
const IP_ADDR_AS_NUMBER_V2: [u8; 8] = [0x2B, 0x06, 0x01, 0x05, 0x05, 0x07, 0x0E, 3];

/// id-ad-caIssuers (RFC 5280, section 4.2.2.1).
pub const CA_ISSUERS: [u8; 8] = [0x2B, 0x06, 0x01, 0x05, 0x05, 0x07, 0x30, 0x02];

/// id-ad-caRepository (RFC 5280, section 4.2.2.2).
pub const CA_REPOSITORY: [u8; 8] = [0x2B, 0x06, 0x01, 0x05, 0x05, 0x07, 0x30, 0x05];

/// id-ad-rpkiManifest (RFC 6487, section 4.8.8.1).
pub const RPKI_MANIFEST: [u8; 8] = [0x2B, 0x06, 0x01, 0x05, 0x05, 0x07, 0x30, 0x0A];

/// id-ad-signedObject (RFC 6487, section 4.8.8.2).
pub const SIGNED_OBJECT: [u8; 8] = [0x2B, 0x06, 0x01, 0x05, 0x05, 0x07, 0x30, 0x0B];

/// id-ad-rpkiNotify (RFC 8182, section 3.2).
pub const RPKI_NOTIFY: [u8; 8] = [0x2B, 0x06, 0x01, 0x05, 0x05, 0x07, 0x30, 0x0D];

/// The identifier of the extension of addresses that goes with a policy.
pub fn ip_oid(policy: Overclaim) -> &'static [u8]
    ensures { result.now ≡ ip_resources policy }
{
    match policy {
        Overclaim::Refuse => &IP_RESOURCES,
        Overclaim::Trim => &IP_RESOURCES_V2,
    }
}

/// The identifier of the extension of AS numbers that goes with a policy.
pub fn as_oid(policy: Overclaim) -> &'static [u8]
    ensures { result.now ≡ as_resources policy }
{
    match policy {
        Overclaim::Refuse => &AS_RESOURCES,
        Overclaim::Trim => &AS_RESOURCES_V2,
    }
}

/// The identifier of the policy itself.
pub fn policy_oid(policy: Overclaim) -> &'static [u8]
    ensures { result.now ≡ policy_oid policy }
{
    match policy {
        Overclaim::Refuse => &IP_ADDR_AS_NUMBER,
        Overclaim::Trim => &IP_ADDR_AS_NUMBER_V2,
    }
}

// The other policy.
pub(crate) fn other(policy: Overclaim) -> Overclaim
    ensures { result ≡ other policy }
{
    match policy {
        Overclaim::Refuse => Overclaim::Trim,
        Overclaim::Trim => Overclaim::Refuse,
    }
}

// Whether two identifiers are the same. Their last octets are compared first: identifiers below one
// arc mostly differ there alone.
pub(crate) fn is_same(a: &[u8], b: &[u8]) -> bool
    ensures { result ≡ bytes_eq a.now b.now }
{
    match (a, b) {
        ([.., x], [.., y]) if *x != *y => false,
        _ => a == b,
    }
}

// Whether an extension is known in a resource certificate.
pub(crate) fn is_known(oid: &[u8]) -> bool
    ensures { result ≡ is_among certificate_extensions oid.now }
{
    is_same(oid, &SUBJECT_KEY_IDENTIFIER)
        || is_same(oid, &KEY_USAGE)
        || is_same(oid, &BASIC_CONSTRAINTS)
        || is_same(oid, &CRL_DISTRIBUTION_POINTS)
        || is_same(oid, &CERTIFICATE_POLICIES)
        || is_same(oid, &AUTHORITY_KEY_IDENTIFIER)
        || is_same(oid, &EXTENDED_KEY_USAGE)
        || is_same(oid, &AUTHORITY_INFO_ACCESS)
        || is_same(oid, &SUBJECT_INFO_ACCESS)
        || is_same(oid, &IP_RESOURCES)
        || is_same(oid, &AS_RESOURCES)
        || is_same(oid, &IP_RESOURCES_V2)
        || is_same(oid, &AS_RESOURCES_V2)
}
