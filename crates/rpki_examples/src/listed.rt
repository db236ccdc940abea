//! Verdicts on signatures that are looked up in a file.

ghost use Rattle.std.specs.Prelude.{◌↔◌, ℕ, List, IsTrue, IfOk, MatchOption};
ghost use Rattle.rpki_basics.specs.Key.{key_octets};
ghost use Rattle.rpki_verdicts.specs.Verdicts.{AreVerdicts, IsYes};

use rpki::crypto::{PublicKey, RpkiSignature};
use rpki::der::EncodeError;
use rpki::verdicts::Verdicts;
use std::alloc::Global;

/// What the octets of a file say of this signature of the message by the key, or `None` where they
/// are no list of verdicts.
pub fn listed_verdict(
    alloc: Global,
    file: &[u8],
    key: &PublicKey,
    message: &[u8],
    signature: &RpkiSignature,
) -> Result<Option<bool>, EncodeError>
    ensures { IfOk result (λ said. MatchOption said
        ((lines : List (List ℕ)) → AreVerdicts file.now lines → ⊥)
        (λ yes. (lines : List (List ℕ)) × AreVerdicts file.now lines
        × (IsTrue yes ↔ IsYes lines (key_octets key.now) message.now signature.now))) }
{
    let Some(verdicts) = Verdicts::read(file) else {
        return Ok(None);
    };
    let key = key.to_info_bytes(alloc)?;
    let is_yes = verdicts.verify(&[], &key, message, signature.value());
    Ok(Some(is_yes))
}
