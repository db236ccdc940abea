//! What the definitions of values and keys say: laws, as functions that do nothing.

ghost use Rattle.std.specs.Prelude.{◌≡◌, ◌↔◌, ◌<◌, ◌^◌, ◌++◌, ◌⊎◌, ℕ, List, Some, length, IsTrue};
ghost use Rattle.rpki_der.specs.declared.mode.Mode.{Mode};
ghost use Rattle.rpki_der.specs.declared.mode.Mode.TheVariants.{Der};
ghost use Rattle.rpki_der.specs.Form.After.{LeavesOctetsAfter};
ghost use Rattle.rpki_der.specs.Grammar.{IsBytes};
ghost use Rattle.rpki_der.specs.Read.Exact.{IsReading};
ghost use Rattle.rpki_der.specs.Read.Parse.{u160_at};
ghost use Rattle.rpki_der.specs.Write.Written.{value_octets};
ghost use Rattle.rpki_der.specs.Tags.{UTC_TIME};
ghost use Rattle.rpki_basics.specs.Moment.{Moment, IsMoment, IsEarlier, stamp};
ghost use Rattle.rpki_basics.specs.Time.Form.{TimeForm, IsUtcYear, utc_text, time_octets};
ghost use Rattle.rpki_basics.specs.Time.Form.{generalized_octets};
ghost use Rattle.rpki_basics.specs.Time.Read.{time_at};
ghost use Rattle.rpki_basics.specs.Serial.{SerialForm, serial_octets};
ghost use Rattle.rpki_basics.specs.Name.{IsName, NameForm, KeyNameForm, name_at, key_name_octets};
ghost use Rattle.rpki_basics.specs.Algorithm.{AlgorithmForm, DigestAlgorithmForm, CmsAlgorithmForm};
ghost use Rattle.rpki_basics.specs.Algorithm.{CertAlgorithmForm, algorithm_at, digest_algorithm_at};
ghost use Rattle.rpki_basics.specs.Algorithm.{cms_algorithm_at, cert_algorithm_at, algorithm_alone};
ghost use Rattle.rpki_basics.specs.Algorithm.{algorithm_and_null, digest_algorithm_octets};
ghost use Rattle.rpki_basics.specs.Algorithm.{cms_algorithm_octets, cert_algorithm_octets};
ghost use Rattle.rpki_basics.specs.Key.{KeyForm, key_at, key_contents, key_octets};
ghost use Rattle.rpki_basics.specs.Key.{key_octets_alone};
ghost use Rattle.rpki_basics.specs.StandIn.{IsStandInSignature, is_stand_in_signature};

/// Reading a time is exact and unique, and DER is a part of BER (RFC 5280, section 4.1.2.5).
pub fn times()
    ensures { IsReading time_at TimeForm }
{}

/// What is written of a time is in its form, one of the two that DER has for it (GeneralizedTime
/// alone outside 1950 to 2049), and is read again, whatever follows it (RFC 5280, section 4.1.2.5).
pub fn times_are_written()
    ensures written { (m : Moment) → IsMoment m → TimeForm Der (time_octets m) m }
    ensures generalized { (m : Moment) → IsMoment m → TimeForm Der (generalized_octets m) m }
    ensures only { (o : List ℕ) (m : Moment) → IsBytes o → TimeForm Der o m
        → (IsUtcYear m.year × (o ≡ value_octets UTC_TIME (utc_text m)))
        ⊎ (o ≡ generalized_octets m) }
    ensures read { (mode : Mode) (m : Moment) (rest : List ℕ) → IsMoment m
        → time_at mode (time_octets m ++ rest) ≡ Some (m, rest) }
    ensures read_generalized { (mode : Mode) (m : Moment) (rest : List ℕ) → IsMoment m
        → time_at mode (generalized_octets m ++ rest) ≡ Some (m, rest) }
{}

/// The number of a moment grows with time, and no two moments have the same one.
pub fn times_are_ordered()
    ensures order { (a b : Moment) → IsMoment a → IsMoment b
        → (stamp a < stamp b) ↔ IsEarlier a b }
    ensures one { (a b : Moment) → IsMoment a → IsMoment b → stamp a ≡ stamp b → a ≡ b }
{}

/// A serial number is written in the one way that DER has for it, and read again, whatever follows
/// it (RFC 5280, section 4.1.2.2). That reading it is exact, `rpki_der::laws` says.
pub fn serials_are_written()
    ensures written { (n : ℕ) → n < 2 ^ 160 → SerialForm Der (serial_octets n) n }
    ensures unique { (o : List ℕ) (n : ℕ) → IsBytes o → SerialForm Der o n
        → o ≡ serial_octets n }
    ensures read { (mode : Mode) (n : ℕ) (rest : List ℕ) → n < 2 ^ 160
        → u160_at mode (serial_octets n ++ rest) ≡ Some (n, rest) }
{}

/// Reading an algorithm is exact and unique, and DER is a part of BER (RFC 5280, section 4.1.1.2).
pub fn algorithms()
    ensures any { IsReading algorithm_at AlgorithmForm }
    ensures digest { IsReading digest_algorithm_at DigestAlgorithmForm }
    ensures cms { IsReading cms_algorithm_at CmsAlgorithmForm }
    ensures cert { IsReading cert_algorithm_at CertAlgorithmForm }
{}

/// The algorithms are written in their forms, and read again, whatever follows them. In DER there
/// are two ways to write one: with a NULL, and without (RFC 5280, section 4.1.1.2).
pub fn algorithms_are_written()
    ensures digest { DigestAlgorithmForm Der digest_algorithm_octets tt }
    ensures cms { CmsAlgorithmForm Der cms_algorithm_octets tt }
    ensures cert { CertAlgorithmForm Der cert_algorithm_octets tt }
    ensures only { (o oid : List ℕ) → IsBytes o → AlgorithmForm Der o oid
        → (o ≡ algorithm_alone oid) ⊎ (o ≡ algorithm_and_null oid) }
    ensures read_digest { (mode : Mode) (rest : List ℕ)
        → digest_algorithm_at mode (digest_algorithm_octets ++ rest) ≡ Some (tt, rest) }
    ensures read_cms { (mode : Mode) (rest : List ℕ)
        → cms_algorithm_at mode (cms_algorithm_octets ++ rest) ≡ Some (tt, rest) }
    ensures read_cert { (mode : Mode) (rest : List ℕ)
        → cert_algorithm_at mode (cert_algorithm_octets ++ rest) ≡ Some (tt, rest) }
{}

/// Reading a key is exact and unique, and DER is a part of BER (RFC 5280, section 4.1.2.7).
pub fn keys()
    ensures { IsReading key_at KeyForm }
{}

/// Octets after a key change nothing: they are left. Nor do octets after one whole value make it a
/// key that it is not.
pub fn octets_after_a_key_are_left()
    ensures { (mode : Mode) → LeavesOctetsAfter mode (KeyForm mode) }
{}

/// What is written of a key is in its form, one of the two ways that there are in DER, and read
/// again, whatever follows it (RFC 3279, section 2.3.1).
pub fn keys_are_written()
    ensures written { (bits : List ℕ) → length (key_contents bits) < 2 ^ 32
        → KeyForm Der (key_octets bits) bits }
    ensures only { (o bits : List ℕ) → IsBytes o → KeyForm Der o bits
        → (o ≡ key_octets bits) ⊎ (o ≡ key_octets_alone bits) }
    ensures read { (mode : Mode) (bits rest : List ℕ) → length (key_contents bits) < 2 ^ 32
        → key_at mode (key_octets bits ++ rest) ≡ Some (bits, rest) }
{}

/// Reading a name is exact and unique, and DER is a part of BER (RFC 5280, section 4.1.2.4).
pub fn names()
    ensures { IsReading name_at NameForm }
{}

/// What is a name in DER is read in both modes, whatever follows it: so the octets of a name that
/// can be written are read again (RFC 5280, section 4.1.2.4).
pub fn names_are_read_again()
    ensures { (mode : Mode) (octets rest : List ℕ) → IsName Der octets
        → name_at mode (octets ++ rest) ≡ Some (octets, rest) }
{}

/// The octets of the name of a key are a common name of its identifier (RFC 6487, section 4.5), the
/// only ones in DER, and are a name, which is read again, whatever follows it.
pub fn key_names_are_written()
    ensures written { (identifier : List ℕ) → length identifier ≡ 20
        → KeyNameForm Der (key_name_octets identifier) identifier }
    ensures only { (o identifier : List ℕ) → IsBytes o → KeyNameForm Der o identifier
        → o ≡ key_name_octets identifier }
    ensures name { (identifier : List ℕ) → length identifier ≡ 20
        → IsName Der (key_name_octets identifier) }
    ensures read { (mode : Mode) (identifier rest : List ℕ) → length identifier ≡ 20
        → name_at mode (key_name_octets identifier ++ rest)
        ≡ Some (key_name_octets identifier, rest) }
{}

/// A verdict of the stand-in is a yes exactly where the signature is the digest of the key's bits
/// followed by the message.
pub fn stand_in_verdicts()
    ensures { (key message signature : List ℕ) →
        IsTrue (is_stand_in_signature key message signature)
        ↔ IsStandInSignature key message signature }
{}
