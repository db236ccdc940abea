//! What the definitions of signatures say: laws, as functions that do nothing.

ghost use Rattle.std.specs.Prelude.{◌≡◌, ◌≢◌, ◌↔◌, ℕ, List, codes, length, IsTrue};
ghost use Rattle.sha2.specs.Sha256.{sha256};
ghost use Rattle.rpki_der.specs.declared.mode.Mode.TheVariants.{Der};
ghost use Rattle.rpki_der.specs.Grammar.{IsBytes};
ghost use Rattle.rpki_der.specs.Numbers.{number};
ghost use Rattle.rpki_rsa.specs.Signature.{IsModulus, IsRsaKey, RsaKeyForm, IsRsaSignature};
ghost use Rattle.rpki_rsa.specs.Signature.{is_rsa_signature};
ghost use Rattle.rpki_rsa.specs.Sample.{sample_key, sample_signature};

/// A verdict is a yes exactly where the signature is one of the message by the key (RFC 8017,
/// section 8.2.2).
pub fn verdicts()
    ensures { (key message signature : List ℕ) → IsTrue (is_rsa_signature key message signature)
        ↔ IsRsaSignature key message signature }
{}

/// The bits of a key are in DER the SEQUENCE of the INTEGERs of its modulus and of 65537, and no
/// other octets are (RFC 8017, appendix A.1.1). A key has one modulus.
pub fn keys()
    ensures form { (key : List ℕ) (n : ℕ) → IsRsaKey key n → RsaKeyForm Der key n }
    ensures only { (key : List ℕ) (n : ℕ) → IsBytes key → IsModulus n → RsaKeyForm Der key n
        → IsRsaKey key n }
    ensures one { (key : List ℕ) (m n : ℕ) → IsRsaKey key m → IsRsaKey key n → m ≡ n }
{}

/// There is a signature: the one of "abc" that `openssl` made by a key of 2048 bits.
pub fn a_signature_is_signed()
    ensures { IsRsaSignature sample_key (codes "abc") sample_signature }
{}

/// A signature with a changed octet has another number. Two messages of which a signature is one by
/// the same key have the same digest, and it is one of each message with this digest, by this key.
pub fn changes_are_seen()
    ensures signature { (a b : List ℕ) → IsBytes a → IsBytes b → length a ≡ length b → a ≢ b
        → number 0 a ≢ number 0 b }
    ensures message { (key a b signature : List ℕ) → IsRsaSignature key a signature
        → IsRsaSignature key b signature → sha256 a ≡ sha256 b }
    ensures digest { (key a b signature : List ℕ) → sha256 a ≡ sha256 b
        → IsRsaSignature key a signature → IsRsaSignature key b signature }
{}
