//! What a certificate says.

ghost use Rattle.std.specs.Prelude.{◌≡◌, ◌↔◌, IsTrue, option_map};
ghost use Rattle.rpki_certs.specs.Cert.{IsSelfSigned};

use crate::cert::Cert;
use rpki_basics::{Https, KeyIdentifier, Name, PublicKey, RpkiSignature, Rsync, Serial, Validity};
use rpki_extensions::Claims;
use rpki_faults::{KeyUsage, Overclaim};
use rpki_resources::{AsResources, IpResources};

impl Cert {
    /// Its serial number (RFC 5280, section 4.1.2.2).
    pub fn serial_number(&self) -> Serial
        ensures { result ≡ self.now.certificate.tbs.serial_number }
    {
        self.contents.tbs.serial_number
    }

    /// The name of its issuer (RFC 5280, section 4.1.2.4), in the mode that the certificate was
    /// read in.
    pub fn issuer(&self) -> &Name
        ensures octets { result.now.octets ≡ self.now.certificate.tbs.issuer }
        ensures mode { result.now.mode ≡ self.now.mode }
    {
        &self.contents.tbs.issuer
    }

    /// The name of its subject (RFC 5280, section 4.1.2.6), in the mode that the certificate was
    /// read in.
    pub fn subject(&self) -> &Name
        ensures octets { result.now.octets ≡ self.now.certificate.tbs.subject }
        ensures mode { result.now.mode ≡ self.now.mode }
    {
        &self.contents.tbs.subject
    }

    /// The time in which it is valid (RFC 5280, section 4.1.2.5).
    pub fn validity(&self) -> Validity
        ensures { result ≡ self.now.certificate.tbs.validity }
    {
        self.contents.tbs.validity
    }

    /// The key of its subject (RFC 5280, section 4.1.2.7).
    pub fn subject_public_key_info(&self) -> &PublicKey
        ensures { result.now ≡ self.now.certificate.tbs.key }
    {
        &self.contents.tbs.key
    }

    /// The identifier of its key that it states (RFC 6487, section 4.8.2).
    pub fn subject_key_identifier(&self) -> KeyIdentifier
        ensures { result ≡ self.now.certificate.tbs.extensions.key.subject_key }
    {
        self.contents.tbs.extensions.key.subject_key
    }

    /// The identifier of its issuer's key, if it states one (RFC 6487, section 4.8.3).
    pub fn authority_key_identifier(&self) -> Option<KeyIdentifier>
        ensures { result ≡ self.now.certificate.tbs.extensions.key.authority_key }
    {
        self.contents.tbs.extensions.key.authority_key
    }

    /// Whether its subject is a CA, if it has basic constraints (RFC 6487, section 4.8.1).
    pub fn basic_ca(&self) -> Option<bool>
        ensures { result ≡ self.now.certificate.tbs.extensions.key.basic_ca }
    {
        self.contents.tbs.extensions.key.basic_ca
    }

    /// What its key is for (RFC 6487, section 4.8.4).
    pub fn key_usage(&self) -> KeyUsage
        ensures { result ≡ self.now.certificate.tbs.extensions.key.usage }
    {
        self.contents.tbs.extensions.key.usage
    }

    /// What is done where it claims more than its issuer has (RFC 6487, section 4.8.9).
    pub fn overclaim(&self) -> Overclaim
        ensures { result ≡ self.now.certificate.tbs.extensions.claims.policy }
    {
        self.contents.tbs.extensions.claims.policy
    }

    /// Where the revocation list of its issuer is, if it says so (RFC 6487, section 4.8.6).
    pub fn crl_uri(&self) -> Option<&Rsync>
        ensures { option_map (λ uri. uri.now) result
            ≡ self.now.certificate.tbs.extensions.locations.crl }
    {
        self.contents.tbs.extensions.locations.crl.as_ref()
    }

    /// Where the certificate of its issuer is, if it says so (RFC 6487, section 4.8.7).
    pub fn ca_issuer(&self) -> Option<&Rsync>
        ensures { option_map (λ uri. uri.now) result
            ≡ self.now.certificate.tbs.extensions.locations.ca_issuer }
    {
        self.contents.tbs.extensions.locations.ca_issuer.as_ref()
    }

    /// The folder in which its subject publishes, if it says so (RFC 6487, section 4.8.8.1).
    pub fn ca_repository(&self) -> Option<&Rsync>
        ensures { option_map (λ uri. uri.now) result
            ≡ self.now.certificate.tbs.extensions.locations.subject.ca_repository }
    {
        self.contents
            .tbs
            .extensions
            .locations
            .subject
            .ca_repository
            .as_ref()
    }

    /// The manifest of its subject, if it says where it is (RFC 6487, section 4.8.8.1).
    pub fn rpki_manifest(&self) -> Option<&Rsync>
        ensures { option_map (λ uri. uri.now) result
            ≡ self.now.certificate.tbs.extensions.locations.subject.rpki_manifest }
    {
        self.contents
            .tbs
            .extensions
            .locations
            .subject
            .rpki_manifest
            .as_ref()
    }

    /// The object that its key signed, if it says where it is (RFC 6487, section 4.8.8.2).
    pub fn signed_object(&self) -> Option<&Rsync>
        ensures { option_map (λ uri. uri.now) result
            ≡ self.now.certificate.tbs.extensions.locations.subject.signed_object }
    {
        self.contents
            .tbs
            .extensions
            .locations
            .subject
            .signed_object
            .as_ref()
    }

    /// The notification file of its subject's repository, if it says where it is (RFC 8182, section
    /// 3.2).
    pub fn rpki_notify(&self) -> Option<&Https>
        ensures { option_map (λ uri. uri.now) result
            ≡ self.now.certificate.tbs.extensions.locations.subject.rpki_notify }
    {
        self.contents
            .tbs
            .extensions
            .locations
            .subject
            .rpki_notify
            .as_ref()
    }

    /// The AS numbers that it claims (RFC 6487, section 4.8.11).
    pub fn as_resources(&self) -> &AsResources
        ensures { result.now ≡ self.now.certificate.tbs.extensions.claims.as_numbers }
    {
        &self.contents.tbs.extensions.claims.as_numbers
    }

    /// The IPv4 addresses that it claims (RFC 6487, section 4.8.10).
    pub fn v4_resources(&self) -> &IpResources
        ensures { result.now ≡ self.now.certificate.tbs.extensions.claims.addresses.v4 }
    {
        &self.contents.tbs.extensions.claims.addresses.v4
    }

    /// The IPv6 addresses that it claims (RFC 6487, section 4.8.10).
    pub fn v6_resources(&self) -> &IpResources
        ensures { result.now ≡ self.now.certificate.tbs.extensions.claims.addresses.v6 }
    {
        &self.contents.tbs.extensions.claims.addresses.v6
    }

    /// What its extensions claim.
    pub(crate) fn claims(&self) -> &Claims
        ensures { result.now ≡ self.now.certificate.tbs.extensions.claims }
    {
        &self.contents.tbs.extensions.claims
    }

    /// Whether it has an extended key usage (RFC 6487, section 4.8.5).
    pub(crate) fn has_purposes(&self) -> bool
        ensures { result ≡ self.now.certificate.tbs.extensions.key.has_purposes }
    {
        self.contents.tbs.extensions.key.has_purposes
    }

    /// The octets that its issuer signed, as they were read: those of the TBSCertificate with its
    /// header (RFC 5280, section 4.1.1.1).
    pub fn signed(&self) -> &[u8]
        ensures { result.now ≡ self.now.certificate.signed }
    {
        self.contents.signed.as_slice()
    }

    /// The signature of its issuer over these octets (RFC 5280, section 4.1.1.3).
    pub fn signature(&self) -> &RpkiSignature
        ensures { result.now ≡ self.now.certificate.signature }
    {
        &self.contents.signature
    }

    /// Whether it is self-signed by its form: it states no identifier of its issuer's key, or that
    /// of its own (RFC 6487, section 4.8.3). Whether its key signed it is not tested.
    pub fn is_self_signed(&self) -> bool
        ensures { IsTrue result ↔ IsSelfSigned self.now.certificate.tbs }
    {
        match self.authority_key_identifier() {
            None => true,
            Some(authority) => are_same(authority, self.subject_key_identifier()),
        }
    }
}

/// Whether two identifiers are those of one key.
pub fn are_same(one: KeyIdentifier, other: KeyIdentifier) -> bool
    ensures { IsTrue result ↔ (one ≡ other) }
{
    one.as_slice() == other.as_slice()
}
