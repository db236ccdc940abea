//! What the definitions of signed objects say: laws, as functions that do nothing.

ghost use Rattle.rpki_der.specs.declared.mode.Mode.{Mode};
ghost use Rattle.rpki_der.specs.Read.Exact.{IsReading};
ghost use Rattle.std.specs.Prelude.{◌≡◌, ◌↔◌, ◌++◌, ℕ, List, Result, MatchResult};
ghost use Rattle.rpki_der.specs.declared.error.DecodeError.{DecodeError};
ghost use Rattle.rpki_der.specs.declared.error.DecodeError.TheVariants.{Memory};
ghost use Rattle.rpki_der.specs.declared.mode.Mode.TheVariants.{Der};
ghost use Rattle.rpki_der.specs.Form.Decodes.{Decodes};
ghost use Rattle.rpki_basics.specs.Moment.{Moment};
ghost use Rattle.rpki_der.specs.Form.After.{LeavesOctetsAfter};
ghost use Rattle.rpki_faults.specs.Checks.{AllHold, IsFirstFault};
ghost use Rattle.rpki_faults.specs.declared.validation.ValidationError.{ValidationError};
ghost use Rattle.rpki_certs.specs.Inspect.{ee_checks, detached_ee_checks};
ghost use Rattle.rpki_certs.specs.Verify.{Verdict};
ghost use Rattle.rpki_certs.specs.Validate.{Validated, IsGoodUnder};
ghost use Rattle.rpki_sigobj.specs.Object.{KeptObject, SignedData, SignedForm, SignedObject};
ghost use Rattle.rpki_sigobj.specs.Object.{object_at};
ghost use Rattle.rpki_sigobj.specs.Signed.{KeptWhole, ObjectForm, Whole, whole_of};
ghost use Rattle.rpki_sigobj.specs.Validate.{object_validation, detached_validation};
ghost use Rattle.rpki_sigobj.specs.Verify.{Digester, IsWellSigned};

use crate::signed::Content;

/// Reading a signed object is exact and unique, and DER is a part of BER (RFC 5652, section 3; RFC
/// 6488, section 2).
pub fn signed_objects()
    ensures { IsReading object_at SignedForm }
{}

/// Octets after a signed object change nothing: they are left. Nor do octets after one whole value
/// make it a signed object that it is not.
pub fn octets_after_a_signed_object_are_left()
    ensures { (mode : Mode) → LeavesOctetsAfter mode (SignedForm mode) }
{}

/// What a yes of `validate_at` and of `validate_detached_at` means (RFC 6488, section 3): the key
/// of the certificate signed the object, over the digest of its content and, by its signing time,
/// no later than the certificate is valid; the certificate fits the profile of its kind, states the
/// issuer, is in time and signed by the issuer's key, and claims what is allowed.
pub fn valid_objects()
    ensures published { (digest : Digester) (verdict : Verdict) (s : SignedData)
        (issuer : Validated) (now : Moment) →
        AllHold (object_validation digest verdict s issuer now)
        ↔ (IsWellSigned digest verdict s × AllHold (ee_checks s.cert.tbs)
        × IsGoodUnder verdict s.cert issuer now) }
    ensures detached { (digest : Digester) (verdict : Verdict) (s : SignedData)
        (issuer : Validated) (now : Moment) →
        AllHold (detached_validation digest verdict s issuer now)
        ↔ (IsWellSigned digest verdict s × AllHold (detached_ee_checks s.cert.tbs)
        × IsGoodUnder verdict s.cert issuer now) }
{}

/// What a refusal of `validate_at` and of `validate_detached_at` means, unless memory ran out: the
/// object is not well signed, or its certificate does not fit the profile of its kind, or is not
/// good under the issuer.
pub fn refused_objects()
    ensures published { (digest : Digester) (verdict : Verdict) (s : SignedData)
        (issuer : Validated) (now : Moment) (fault : ValidationError) →
        IsFirstFault (object_validation digest verdict s issuer now) fault
        → ¬ (IsWellSigned digest verdict s × AllHold (ee_checks s.cert.tbs)
        × IsGoodUnder verdict s.cert issuer now) }
    ensures detached { (digest : Digester) (verdict : Verdict) (s : SignedData)
        (issuer : Validated) (now : Moment) (fault : ValidationError) →
        IsFirstFault (detached_validation digest verdict s issuer now) fault
        → ¬ (IsWellSigned digest verdict s × AllHold (detached_ee_checks s.cert.tbs)
        × IsGoodUnder verdict s.cert issuer now) }
{}

/// What is written of an object that was read strictly, or made, is read strictly as this object,
/// whatever octets follow it, unless memory runs out.
pub fn written_objects_are_read()
    ensures { (o : SignedObject) (rest : List ℕ) (r : Result KeptObject DecodeError)
        → SignedForm Der o.octets o → Decodes (SignedForm Der) (λ k. k.object) (o.octets ++ rest) r
        → MatchResult r (λ k. k.object ≡ o) (λ e. e ≡ Memory) }
{}

/// And so it is with its content, by each rule that the content was read by.
pub fn written_contents_are_read<T: Content>()
    ensures { (rule : T.Rule) (o : Whole T) (rest : List ℕ) (r : Result (KeptWhole T) DecodeError)
        → ObjectForm T.kind.type (T.form rule) Der o.object.octets o
        → Decodes (ObjectForm T.kind.type (T.form rule) Der) whole_of (o.object.octets ++ rest) r
        → MatchResult r (λ k. whole_of k ≡ o) (λ e. e ≡ Memory) }
{}
