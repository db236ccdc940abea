//! What whole attestations carry beside certificates, with plain fields.

ghost use Rattle.std.specs.Prelude.{◌≡◌};

use super::plain::{Plain, Seen};
use rpki_paths::{Accepts, Candidate, CarriedCert, CarriedSigner, KeyId, Seeks, VerdictCount};
use std::sync::ledger::Ledger;

/// Why a certificate is not good.
#[derive(Clone, Copy, PartialEq, Eq)]
pub enum Bad {
    Inspection,
    Expired,
}

/// A certificate that is carried, before it is known to be good, whether it is a CA's, and why it
/// is not good.
#[derive(Clone, Copy)]
pub struct CandidateCert<'a>(pub &'a Plain, pub bool, pub Option<Bad>);

impl<'a> Candidate<Seen<'a>> for CandidateCert<'a> {
    ghost use Rattle.std.specs.Prelude.{nat_eq, true, false, ◌≡◌, refl, None, Some};
    ghost use Rattle.std.specs.Cmp.Lexicographic.{pointwise};
    ghost use Rattle.rpki_certificates_tests.specs.Paths.Plain.{claims_of};

    type Fault = Bad;

    ghost is_good = { λ x. x.2 ≡ None };

    ghost because = { λ x fault. x.2 ≡ Some fault };

    ghost admits = { λ x c. Unit {0} };

    ghost seen = { λ x. record {
      place = 0;
      ski = x.0.now.subject;
      aki = x.0.now.authority;
      key = x.0.now.key;
      serial = x.0.now.serial;
      overclaim = x.0.now.overclaim;
      claim = claims_of x.0.now.asn x.0.now.v4 x.0.now.v6;
      verifies = λ k. pointwise nat_eq x.0.now.signer k;
      is_valid = true;
      is_anchor = x.0.now.is_anchor;
      revokes = λ n. false;
    } };

    ghost of_ca = { λ x. x.1 };

    ghost good_is_valid = { λ x good. refl };

    fn is_of_ca(&self) -> bool {
        self.1
    }

    fn admit(&self) -> Result<Seen<'a>, Bad> {
        match self.2 {
            None => Ok(Seen(self.0, &[])),
            Some(bad) => Err(bad),
        }
    }
}

/// A revocation list: whose it is, the key that signed it, and what it lists.
#[derive(Drop)]
pub struct List {
    pub authority: KeyId,
    pub signer: [u8; 1],
    pub serials: Vec<u64>,
}

/// A carried revocation list.
#[derive(Clone, Copy)]
pub struct Listed<'a>(pub &'a List);

impl<'a> Seeks<Listed<'a>> for Seen<'a> {
    ghost use Rattle.std.proofs.Common.{rules};
    ghost use Rattle.std.specs.Prelude.{nat_eq};
    ghost use Rattle.std.specs.Cmp.Lexicographic.{pointwise};

    ghost sought = { λ s. s.0.now.subject };

    ghost held = { λ l. l.0.now.authority };

    ghost verdict = { λ s l. pointwise nat_eq l.0.now.signer s.0.now.key };

    ghost price = { 1 };

    fn seeks(&self) -> KeyId {
        self.0.subject
    }

    fn identifier(other: &Listed<'a>) -> KeyId {
        other.0.authority
    }

    ghost free_is_yes = { Prim.search rules };
}

impl<'a, L: Ledger> Accepts<Listed<'a>, L> for Seen<'a> {
    fn accepts(&self, other: &Listed<'a>, asked: &mut VerdictCount<L>) -> bool {
        asked.count();
        other.0.signer == self.0.key
    }
}

impl<'a> CarriedCert<Listed<'a>> for Seen<'a> {
    ghost use Rattle.std.specs.Prelude.{nat_eq, ◌==◌, refl};
    ghost use Rattle.std.specs.List.{list_any};
    ghost use Rattle.std.specs.Cmp.Lexicographic.{pointwise};

    ghost crl = { λ l. record {
      aki = l.0.now.authority;
      serials = λ n. list_any (λ x. x == n) l.0.now.serials.items;
      verifies = λ k. pointwise nat_eq l.0.now.signer k;
    } };

    fn with_crl(&self, list: &Listed<'a>) -> Self {
        Seen(self.0, list.0.serials.as_slice())
    }

    ghost same = { λ c d. Unit {0} };

    ghost same_self = { λ c. tt };

    ghost seeks_ski = { λ c. refl };

    ghost holds_aki = { λ l. refl };

    ghost verdict_is_crl = { λ c l. refl };

    ghost one_verdict = { refl };
}

/// A signer: the certificate that it names, the key that verifies it, and its digest.
#[derive(Clone, Copy, Drop)]
pub struct Signer {
    pub sid: KeyId,
    pub signer: [u8; 1],
    pub has_digest: bool,
}

impl<'a> Seeks<Seen<'a>> for Signer {
    ghost use Rattle.std.proofs.Common.{rules};
    ghost use Rattle.std.specs.Prelude.{nat_eq};
    ghost use Rattle.std.specs.Cmp.Lexicographic.{pointwise};

    ghost sought = { λ s. s.sid };

    ghost held = { λ c. c.0.now.subject };

    ghost verdict = { λ s c. pointwise nat_eq s.signer c.0.now.key };

    ghost price = { 1 };

    fn seeks(&self) -> KeyId
        ensures { result ≡ self.now.sid }
    {
        self.sid
    }

    fn identifier(other: &Seen<'a>) -> KeyId {
        other.0.subject
    }

    ghost free_is_yes = { Prim.search rules };
}

impl<'a, L: Ledger> Accepts<Seen<'a>, L> for Signer {
    fn accepts(&self, other: &Seen<'a>, asked: &mut VerdictCount<L>) -> bool {
        asked.count();
        self.signer == other.0.key
    }
}

impl<'a> CarriedSigner<Seen<'a>> for Signer {
    ghost use Rattle.std.specs.Prelude.{nat_eq, refl};
    ghost use Rattle.std.specs.Cmp.Lexicographic.{pointwise};

    ghost signer = { λ s. record {
      sid = s.sid;
      digest_holds = s.has_digest;
      verifies = λ k. pointwise nat_eq s.signer k;
    } };

    fn has_digest(&self) -> bool
        ensures { result ≡ self.now.has_digest }
    {
        self.has_digest
    }

    ghost seeks_sid = { λ s. refl };

    ghost holds_ski = { λ c. refl };

    ghost verdict_is_own = { λ s c. refl };

    ghost one_verdict = { refl };
}
