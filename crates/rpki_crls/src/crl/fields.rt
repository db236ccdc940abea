//! What a revocation list says, and who signed it.

ghost use Rattle.std.specs.Prelude.{◌≡◌, ◌↔◌, IsTrue, Contains};
ghost use Rattle.rpki_faults.specs.Checks.{AnswersFirstFault};
ghost use Rattle.rpki_crls.specs.Crl.{signature_checks};

use crate::crl::Crl;
use crate::entry::CrlEntry;
use rpki_basics::{Crypto, KeyIdentifier, Name, PublicKey, RpkiSignature, Serial, Time};
use rpki_faults::VerificationError;

impl Crl {
    /// The name of its issuer (RFC 5280, section 5.1.2.3), in the mode that the list was read in.
    pub fn issuer(&self) -> &Name
        ensures octets { result.now.octets ≡ self.now.list.tbs.issuer }
        ensures mode { result.now.mode ≡ self.now.mode }
    {
        &self.contents.tbs.issuer
    }

    /// When it was made (RFC 5280, section 5.1.2.4).
    pub fn this_update(&self) -> Time
        ensures { result ≡ self.now.list.tbs.this_update }
    {
        self.contents.tbs.this_update
    }

    /// Until when the next one is made (RFC 5280, section 5.1.2.5).
    pub fn next_update(&self) -> Time
        ensures { result ≡ self.now.list.tbs.next_update }
    {
        self.contents.tbs.next_update
    }

    /// The identifier of its issuer's key (RFC 5280, section 5.2.1).
    pub fn authority_key_identifier(&self) -> KeyIdentifier
        ensures { result ≡ self.now.list.tbs.extensions.authority_key }
    {
        self.contents.tbs.extensions.authority_key
    }

    /// Its number (RFC 5280, section 5.2.3).
    pub fn crl_number(&self) -> Serial
        ensures { result ≡ self.now.list.tbs.extensions.number }
    {
        self.contents.tbs.extensions.number
    }

    /// The certificates that it revokes, in its order (RFC 5280, section 5.1.2.6).
    pub fn revoked(&self) -> &[CrlEntry]
        ensures { result.now ≡ self.now.list.tbs.revoked }
    {
        self.contents.tbs.revoked.as_slice()
    }

    /// Whether it revokes the certificate with this serial number: an entry has it (RFC 5280,
    /// section 5.1.2.6). All entries are gone through.
    pub fn contains(&self, serial: Serial) -> bool
        ensures { IsTrue result ↔ Contains self.now.list.tbs.revoked serial }
    {
        self.contents.tbs.revoked.contains(&CrlEntry::new(serial))
    }

    /// The octets that its issuer signed, as they were read: those of the TBSCertList with its
    /// header (RFC 5280, section 5.1.1.1).
    pub fn signed(&self) -> &[u8]
        ensures { result.now ≡ self.now.list.signed }
    {
        self.contents.signed.as_slice()
    }

    /// The signature of its issuer over these octets (RFC 5280, section 5.1.1.3).
    pub fn signature(&self) -> &RpkiSignature
        ensures { result.now ≡ self.now.list.signature }
    {
        &self.contents.signature
    }

    /// Whether this key signed it (RFC 5280, section 6.3.3). What was signed are the octets as they
    /// were read. Refuses by `BadSignature` where it did not.
    pub fn verify_signature<C: Crypto>(
        &self,
        key: &PublicKey,
        crypto: &C,
    ) -> Result<(), VerificationError>
        ensures { AnswersFirstFault
            (signature_checks (C.is_signed crypto.now) key.now self.now.list) result }
    {
        let contents = &self.contents;
        if crypto.verify(key, contents.signed.as_slice(), &contents.signature) {
            Ok(())
        } else {
            Err(VerificationError::BadSignature)
        }
    }
}
