//! Where verdicts are asked and counted.

ghost use Rattle.std.specs.Prelude.{◌≡◌, ◌+◌};

use rpki_basics::{Crypto, PublicKey, RpkiSignature};
use rpki_paths::VerdictCount;
use std::sync::ledger::Ledger;

/// Whether the key says yes to the signature of the message. Each verdict that is asked to begin a
/// validation is asked here, and one is added to the count.
pub fn verdict<C: Crypto, L: Ledger>(
    crypto: &C,
    key: &PublicKey,
    message: &[u8],
    signature: &RpkiSignature,
    asked: &mut VerdictCount<L>,
) -> bool
    ensures says { result ≡ C.is_signed crypto.now key.now message.now signature.now }
    ensures counts { asked.new ≡ asked.old + 1 }
{
    asked.count();
    crypto.verify(key, message, signature)
}
