//! Revocation lists that are given: which of them count, and what they revoke. One counts where it
//! states the identifier of the issuer's key, and that key signed it.

ghost use Rattle.std.specs.Prelude.{◌↔◌, IsTrue, MatchOption};
ghost use Rattle.rpki_validation.specs.Revoked.{IsListOf, IsRevokedAt, IsUnrevoked, Revokes};

use rpki_certs::{Cert, ResourceCert};
use rpki_crls::Crl;
use rpki_rsa::Rsa;

/// Whether a list counts for this issuer.
pub fn is_list_of(list: &Crl, issuer: &Cert) -> bool
    ensures { IsTrue result ↔ IsListOf issuer.now.certificate list.now.list }
{
    list.authority_key_identifier() == issuer.subject_key_identifier()
        && list
            .verify_signature(issuer.subject_public_key_info(), &Rsa)
            .is_ok()
}

/// Whether a list revokes a certificate of this issuer. The signature is verified where an entry
/// has the serial number.
fn revokes(list: &Crl, issuer: &Cert, cert: &Cert) -> bool
    ensures { IsTrue result
        ↔ Revokes issuer.now.certificate cert.now.certificate list.now.list }
{
    list.contains(cert.serial_number()) && is_list_of(list, issuer)
}

/// The place of the first of the lists that revokes a certificate of this issuer, if one does.
pub fn revoking(lists: &[Crl], issuer: &Cert, cert: &Cert) -> Option<usize>
    ensures { MatchOption result
        (IsUnrevoked lists.now issuer.now.certificate cert.now.certificate)
        (λ place. IsRevokedAt lists.now issuer.now.certificate cert.now.certificate place) }
{
    for i in 0..lists.len() {
        if revokes(&lists[i], issuer, cert) {
            return Some(i);
        }
    }
    None
}

/// The same of certificates that were validated.
pub fn revoking_under(lists: &[Crl], issuer: &ResourceCert, cert: &ResourceCert) -> Option<usize>
    ensures { MatchOption result
        (IsUnrevoked lists.now issuer.now.cert.certificate cert.now.cert.certificate)
        (λ place. IsRevokedAt lists.now issuer.now.cert.certificate cert.now.cert.certificate
        place) }
{
    revoking(lists, issuer.cert(), cert.cert())
}
