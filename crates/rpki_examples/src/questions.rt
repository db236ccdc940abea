//! Lists of good signatures, as those who look one of these up use them.

ghost use Rattle.std.specs.Prelude.{◌↔◌, Err, List, IsTrue, MatchResult};
ghost use Rattle.rpki_der.specs.declared.mode.Mode.TheVariants.{Der};
ghost use Rattle.rpki_verdicts.specs.Lists.{Lists};
ghost use Rattle.rpki_verdicts.specs.Questions.{Question};
ghost use Rattle.rpki_examples.specs.Questions.{AreAskedOf, IsListedGood};

use bytes::Bytes;
use rpki::crypto::{Crypto, PublicKey, RpkiSignature};
use rpki::verdicts::laws::lists_are_verdicts;
use rpki::verdicts::{ListingError, Verdicts, listing};
use std::alloc::Global;

/// Whether this signature of the message by the key is listed among the good ones of those that a
/// check of an object in DER asks about, under the certificate of a trust anchor and a chain.
pub fn is_listed_good<C: Crypto>(
    alloc: Global,
    object: &Bytes,
    anchor: &Bytes,
    chain: &[Bytes],
    crypto: &C,
    key: &PublicKey,
    message: &[u8],
    signature: &RpkiSignature,
) -> Result<bool, ListingError>
    ensures { MatchResult result
        (λ yes. (questions : List Question)
        × AreAskedOf Der object.now anchor.now chain.now questions
        × (IsTrue yes ↔ IsListedGood (C.is_signed crypto.now) questions
        key.now message.now signature.now))
        (λ error. Lists Der (C.is_signed crypto.now) object.now anchor.now chain.now
        (Err error)) }
{
    lists_are_verdicts();
    let text = listing(alloc, object, true, anchor, chain, crypto)?;
    match Verdicts::read(text.as_bytes()) {
        Some(verdicts) => Ok(Crypto::verify(&verdicts, key, message, signature)),
        None => unreachable!(),
    }
}
