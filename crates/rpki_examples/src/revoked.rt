//! Revocation lists, as those who validate certificates use them.

ghost use Rattle.std.specs.Prelude.{◌≡◌, ◌↔◌, ◌∷◌, [], ℕ, List, true, IsTrue, Contains};
ghost use Rattle.std.specs.Prelude.{◌≤◌, MatchResult};
ghost use Rattle.rpki_der.specs.declared.mode.Mode.TheVariants.{Der};
ghost use Rattle.rpki_der.specs.Grammar.{Front, HasNoFront};
ghost use Rattle.rpki_der.specs.Read.Reads.{Refuses};
ghost use Rattle.rpki_basics.specs.Moment.{stamp};
ghost use Rattle.rpki_faults.specs.Checks.{AnswersFirst, ◌unless◌};
ghost use Rattle.rpki_crls.specs.Crl.{RevocationList, CrlForm};

use bytes::Bytes;
use rpki::crl::Crl;
use rpki::crypto::{Crypto, PublicKey};
use rpki::der::DecodeError;
use rpki::error::VerificationError;
use rpki::x509::{Serial, Time};
use std::alloc::Global;

/// Whether a list revokes the certificate with this serial number, where this key signed the list.
pub fn is_revoked<C: Crypto>(
    list: &Crl,
    key: &PublicKey,
    crypto: &C,
    serial: Serial,
) -> Result<bool, VerificationError>
    ensures { AnswersFirst
        ((VerificationError.BadSignature unless
        (C.is_signed crypto.now key.now list.now.list.signed list.now.list.signature ≡ true)) ∷ [])
        (λ yes. IsTrue yes ↔ Contains list.now.list.tbs.revoked serial) result }
{
    list.verify_signature(key, crypto)?;
    Ok(list.contains(serial))
}

/// Whether a moment lies between the updates of a list, or is that of one of them.
pub fn is_current(list: &Crl, now: Time) -> bool
    ensures { IsTrue result ↔ ((stamp list.now.list.tbs.this_update ≤ stamp now)
        × (stamp now ≤ stamp list.now.list.tbs.next_update)) }
{
    list.this_update() <= now && now <= list.next_update()
}

/// The number of the revocation list at the front of octets in DER.
pub fn number_in(alloc: Global, octets: Bytes) -> Result<Serial, DecodeError>
    ensures { MatchResult result
        (λ number. (list : RevocationList) × (rest : List ℕ)
        × Front (CrlForm Der) octets list rest × (number ≡ list.tbs.extensions.number))
        (λ error. Refuses error (HasNoFront (CrlForm Der) octets)) }
{
    let list = Crl::decode(alloc, octets)?;
    let number = list.crl_number();
    drop(list);
    Ok(number)
}
