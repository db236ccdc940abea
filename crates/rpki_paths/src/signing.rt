//! Signers, in carried order.

ghost use Rattle.std.specs.Prelude.{◌≡◌, ◌≤◌, ◌+◌, ◌*◌, ◌++◌, ◌∷◌, [], List, ℕ, length, map};
ghost use Rattle.std.specs.Prelude.{IfOk, IfErr, IfSome, IfNone, OnOk, IsTrue, IsFalse};
ghost use Rattle.rpki_paths.specs.Cert.{Cert, IsIn};
ghost use Rattle.rpki_paths.specs.Heads.{AreAmong};
ghost use Rattle.rpki_paths.specs.Index.{IsIndex};
ghost use Rattle.rpki_paths.specs.Pairing.{Signer, HasKey, IsVerifiedBy};
ghost use Rattle.rpki_paths.specs.Signing.{AreSigned, WhyNotSigned, WhyNotSigner};
ghost use Rattle.rpki_paths.specs.Taking.{AllVerify, AllVerifyEach, FitsNone, IsFirst, left_of};

use crate::carried::CarriedSigner;
use crate::certificate::{Certificate, KeyId};
use crate::key_id_index::KeyIdIndex;
use crate::pairs::{Accepts, append, index_of, take_first};
use crate::verdict_count::VerdictCount;
use std::alloc::{AllocError, Global};
use std::sync::ledger::Ledger;

/// Why signers are not taken.
#[derive(Clone, Copy)]
pub(crate) enum SignFault {
    /// No subject key that is left is that of a signer.
    NoKey,
    /// The digest that a signer states is not that of the content.
    Digest,
    /// No end-entity certificate that is left is that of a signer.
    NoCert,
    /// There is no memory.
    Memory,
}

impl From<AllocError> for SignFault {
    ghost use Rattle.rpki_paths.specs.declared.signing.SignFault.{SignFault};

    ghost from_gives = { λ _ fault. fault ≡ SignFault.Memory };

    fn from(_error: AllocError) -> SignFault {
        SignFault::Memory
    }
}

// Takes the first subject key that is a signer's and is left, and answers whether there is one. No
// verdict is asked.
fn take_key<S: CarriedSigner<C>, C: Certificate, L: Ledger>(
    signer: &S,
    keys: &[KeyId],
    index: &KeyIdIndex,
    taken: &mut [bool],
    asked: &mut VerdictCount<L>,
) -> bool
    requires index { IsIndex keys.now index.now }
    requires as_many { length taken.old ≡ length keys.now }
    ensures yes { IsTrue result → (k : List ℕ) × IsFirst (HasKey (S.signer signer.now)) k
        (left_of taken.new keys.now) (left_of taken.old keys.now) }
    ensures no { IsFalse result →
        FitsNone (HasKey (S.signer signer.now)) (left_of taken.old keys.now) }
    ensures as_many { length taken.new ≡ length taken.old }
    ensures cost { asked.new ≤ asked.old }
{
    let sid = signer.seeks();
    match take_first(&sid, keys, index, taken, asked) {
        None => false,
        Some(_) => true,
    }
}

// Takes the first end-entity certificate that is a signer's and is left.
fn take_cert<S: CarriedSigner<C> + Accepts<C, L>, C: Certificate, L: Ledger>(
    signer: &S,
    ees: &[C],
    index: &KeyIdIndex,
    taken: &mut [bool],
    asked: &mut VerdictCount<L>,
) -> Option<C>
    requires index { IsIndex (map S.held ees.now) index.now }
    requires as_many { length taken.old ≡ length ees.now }
    ensures some { IfSome result (λ e. IsFirst (IsVerifiedBy (S.signer signer.now)) (C.cert e)
        (map C.cert (left_of taken.new ees.now)) (map C.cert (left_of taken.old ees.now))) }
    ensures none { IfNone result (FitsNone (IsVerifiedBy (S.signer signer.now))
        (map C.cert (left_of taken.old ees.now))) }
    ensures among { IfSome result (λ e. IsIn e ees.now) }
    ensures as_many { length taken.new ≡ length taken.old }
    ensures cost { AllVerify (λ s. s.sid) (λ e. e.ski) (λ s e. s.verifies e.key)
        (S.signer signer.now) (map C.cert ees.now) → asked.new ≤ asked.old + 1 }
{
    match take_first(signer, ees, index, taken, asked) {
        None => None,
        Some(place) => Some(ees[place]),
    }
}

// One signer more takes a subject key and its end-entity certificate.
fn take_one<S: CarriedSigner<C> + Accepts<C, L>, C: Certificate, L: Ledger>(
    signer: &S,
    keys: &[KeyId],
    ees: &[C],
    key_index: &KeyIdIndex,
    ee_index: &KeyIdIndex,
    keys_taken: &mut [bool],
    ees_taken: &mut [bool],
    asked: &mut VerdictCount<L>,
) -> Result<C, SignFault>
    requires key_index { IsIndex keys.now key_index.now }
    requires ee_index { IsIndex (map S.held ees.now) ee_index.now }
    requires keys_many { length keys_taken.old ≡ length keys.now }
    requires ees_many { length ees_taken.old ≡ length ees.now }
    ensures signed { IfOk result (λ e. (done : List Signer) → (taken : List Cert) →
        AreSigned done keys.now (map C.cert ees.now) taken (left_of keys_taken.old keys.now)
        (map C.cert (left_of ees_taken.old ees.now)) →
        AreSigned (done ++ S.signer signer.now ∷ []) keys.now (map C.cert ees.now)
        (taken ++ C.cert e ∷ []) (left_of keys_taken.new keys.now)
        (map C.cert (left_of ees_taken.new ees.now))) }
    ensures among { IfOk result (λ e. IsIn e ees.now) }
    ensures refused { IfErr result (WhyNotSigner (S.signer signer.now)
        (left_of keys_taken.old keys.now) (map C.cert (left_of ees_taken.old ees.now))) }
    ensures keys_many { length keys_taken.new ≡ length keys_taken.old }
    ensures ees_many { length ees_taken.new ≡ length ees_taken.old }
    ensures cost { OnOk result (AllVerify (λ s. s.sid) (λ e. e.ski) (λ s e. s.verifies e.key)
        (S.signer signer.now) (map C.cert ees.now) → asked.new ≤ asked.old + 1) }
{
    if !take_key::<S, C, L>(signer, keys, key_index, keys_taken, asked) {
        return Err(SignFault::NoKey);
    }
    if !signer.has_digest() {
        return Err(SignFault::Digest);
    }
    match take_cert(signer, ees, ee_index, ees_taken, asked) {
        None => Err(SignFault::NoCert),
        Some(ee) => Ok(ee),
    }
}

// Each of some signers, in carried order, takes a subject key and its end-entity certificate.
fn take_each<S, C, L: Ledger>(
    signers: &[S],
    keys: &[KeyId],
    ees: &[C],
    key_index: &KeyIdIndex,
    ee_index: &KeyIdIndex,
    keys_taken: &mut [bool],
    ees_taken: &mut [bool],
    taken: &mut Vec<C>,
    asked: &mut VerdictCount<L>,
) -> Result<(), SignFault>
where
    S: CarriedSigner<C> + Accepts<C, L>,
    C: Certificate,
    requires key_index { IsIndex keys.now key_index.now }
    requires ee_index { IsIndex (map S.held ees.now) ee_index.now }
    requires keys_many { length keys_taken.old ≡ length keys.now }
    requires ees_many { length ees_taken.old ≡ length ees.now }
    requires start { AreSigned [] keys.now (map C.cert ees.now) (map C.cert taken.old.items)
        (left_of keys_taken.old keys.now) (map C.cert (left_of ees_taken.old ees.now)) }
    requires among { AreAmong taken.old.items ees.now }
    ensures signed { OnOk result (AreSigned (map S.signer signers.now) keys.now
        (map C.cert ees.now) (map C.cert taken.new.items) (left_of keys_taken.new keys.now)
        (map C.cert (left_of ees_taken.new ees.now))) }
    ensures among { OnOk result (AreAmong taken.new.items ees.now) }
    ensures refused { IfErr result
        (WhyNotSigned (map S.signer signers.now) keys.now (map C.cert ees.now)) }
    ensures cost { OnOk result (AllVerifyEach (λ s. s.sid) (λ e. e.ski) (λ s e. s.verifies e.key)
        (map S.signer signers.now) (map C.cert ees.now) →
        asked.new ≤ asked.old + 1 * length (map S.signer signers.now)) }
{
    for i in 0..signers.len() {
        match take_one(
            &signers[i],
            keys,
            ees,
            key_index,
            ee_index,
            keys_taken,
            ees_taken,
            asked,
        ) {
            Ok(ee) => append(taken, ee)?,
            Err(fault) => {
                return Err(fault);
            }
        }
    }
    Ok(())
}

// Takes signers in carried order: each takes the first subject key that is its own and is left, has
// the digest of the content, and takes the first end-entity certificate that it names, whose key
// verifies it and that is left. Answers these certificates, in the order of the signers. An error
// is the first of these that does not hold, of the first signer of which it does not, or want of
// memory. Keys and certificates may be left over. Where a certificate that a signer names also
// verifies it, at most one verdict is asked of each signer.
pub(crate) fn take_signers<S, C, L: Ledger>(
    alloc: Global,
    signers: &[S],
    keys: &[KeyId],
    ees: &[C],
    asked: &mut VerdictCount<L>,
) -> Result<Vec<C>, SignFault>
where
    S: CarriedSigner<C> + Accepts<C, L>,
    C: Certificate,
    ensures signed { IfOk result (λ taken. (left_keys : List (List ℕ)) × (left_ees : List Cert)
        × AreSigned (map S.signer signers.now) keys.now (map C.cert ees.now)
        (map C.cert taken.items) left_keys left_ees) }
    ensures among { IfOk result (λ taken. AreAmong taken.items ees.now) }
    ensures refused { IfErr result
        (WhyNotSigned (map S.signer signers.now) keys.now (map C.cert ees.now)) }
    ensures cost { OnOk result (AllVerifyEach (λ s. s.sid) (λ e. e.ski) (λ s e. s.verifies e.key)
        (map S.signer signers.now) (map C.cert ees.now) →
        asked.new ≤ asked.old + 1 * length (map S.signer signers.now)) }
{
    let key_index = KeyIdIndex::of(alloc, keys)?;
    let ee_index = index_of::<S, C>(alloc, ees)?;
    let mut keys_taken = vec![in alloc; false; keys.len()]?;
    let mut ees_taken = vec![in alloc; false; ees.len()]?;
    let mut taken = Vec::new(alloc);
    match take_each(
        signers,
        keys,
        ees,
        &key_index,
        &ee_index,
        &mut keys_taken,
        &mut ees_taken,
        &mut taken,
        asked,
    ) {
        Ok(()) => Ok(taken),
        Err(fault) => {
            drop(taken);
            Err(fault)
        }
    }
}
