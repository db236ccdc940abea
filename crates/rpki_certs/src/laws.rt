//! What the definitions of certificates say: laws, as functions that do nothing.

ghost use Rattle.std.specs.Prelude.{◌≡◌, ◌↔◌, ◌++◌, ℕ, List, Result, MatchResult};
ghost use Rattle.rpki_der.specs.declared.error.DecodeError.{DecodeError};
ghost use Rattle.rpki_der.specs.declared.error.DecodeError.TheVariants.{Memory};
ghost use Rattle.rpki_der.specs.declared.mode.Mode.{Mode};
ghost use Rattle.rpki_der.specs.declared.mode.Mode.TheVariants.{Der};
ghost use Rattle.rpki_der.specs.Form.After.{LeavesOctetsAfter};
ghost use Rattle.rpki_der.specs.Form.Decodes.{Decodes};
ghost use Rattle.rpki_der.specs.Read.Exact.{IsReading};
ghost use Rattle.rpki_basics.specs.Moment.{Moment};
ghost use Rattle.rpki_faults.specs.Checks.{AllHold, IsFirstFault};
ghost use Rattle.rpki_faults.specs.declared.validation.ValidationError.{ValidationError};
ghost use Rattle.rpki_extensions.specs.declared.claims.Claims.{Claims};
ghost use Rattle.rpki_certs.specs.Cert.{Certificate, KeptCertificate, CertForm, cert_at};
ghost use Rattle.rpki_certs.specs.Inspect.{ta_checks, ca_checks, ee_checks, detached_ee_checks};
ghost use Rattle.rpki_certs.specs.Verify.{Verdict};
ghost use Rattle.rpki_certs.specs.Validate.{Sets, Validated, ta_validation, ca_validation};
ghost use Rattle.rpki_certs.specs.Validate.{ee_validation, detached_ee_validation};
ghost use Rattle.rpki_certs.specs.Validate.{IsGoodAnchor, IsGoodUnder, AreAllowed, AreValidated};
ghost use Rattle.rpki_certs.specs.Validate.{AreHeld};

use rpki_faults::laws::sets::validated_is_held;
use rpki_resources::{Addr, Asn};

/// Reading a certificate is exact and unique, and DER is a part of BER (RFC 5280, section 4.1).
pub fn certificates()
    ensures { IsReading cert_at CertForm }
{}

/// Octets after a certificate change nothing: they are left. Nor do octets after one whole value
/// make it a certificate that it is not.
pub fn octets_after_a_certificate_are_left()
    ensures { (mode : Mode) → LeavesOctetsAfter mode (CertForm mode) }
{}

/// What is written of a certificate that was read strictly is read strictly as this certificate,
/// whatever octets follow it, unless memory runs out.
pub fn written_certificates_are_read()
    ensures { (c : Certificate) (rest : List ℕ) (r : Result KeptCertificate DecodeError)
        → CertForm Der c.octets c
        → Decodes (CertForm Der) (λ k. k.certificate) (c.octets ++ rest) r
        → MatchResult r (λ k. k.certificate ≡ c) (λ e. e ≡ Memory) }
{}

/// What a yes of `validate_ta_at` means: the certificate of the trust anchor fits the profile, the
/// moment lies in its validity, and its own key signed it (RFC 6487, section 7; RFC 8630, section
/// 3).
pub fn valid_anchors()
    ensures { (verdict : Verdict) (c : Certificate) (now : Moment) →
        AllHold (ta_validation verdict c now)
        ↔ (AllHold (ta_checks c.tbs) × IsGoodAnchor verdict c now) }
{}

/// What a yes of the other validations means: the certificate fits the profile of its kind, states
/// the issuer, is in time and signed by the issuer's key, and claims what is allowed (RFC 6487,
/// section 7.2).
pub fn valid_certificates()
    ensures ca { (verdict : Verdict) (c : Certificate) (issuer : Validated) (now : Moment) →
        AllHold (ca_validation verdict c issuer now)
        ↔ (AllHold (ca_checks c.tbs) × IsGoodUnder verdict c issuer now) }
    ensures ee { (verdict : Verdict) (c : Certificate) (issuer : Validated) (now : Moment) →
        AllHold (ee_validation verdict c issuer now)
        ↔ (AllHold (ee_checks c.tbs) × IsGoodUnder verdict c issuer now) }
    ensures detached { (verdict : Verdict) (c : Certificate) (issuer : Validated)
        (now : Moment) → AllHold (detached_ee_validation verdict c issuer now)
        ↔ (AllHold (detached_ee_checks c.tbs) × IsGoodUnder verdict c issuer now) }
{}

/// What a refusal of `validate_ta_at` means, unless memory ran out: the certificate does not fit
/// the profile, or is not good at this moment.
pub fn refused_anchors()
    ensures { (verdict : Verdict) (c : Certificate) (now : Moment) (fault : ValidationError) →
        IsFirstFault (ta_validation verdict c now) fault
        → ¬ (AllHold (ta_checks c.tbs) × IsGoodAnchor verdict c now) }
{}

/// What a refusal of the other validations means, unless memory ran out: the certificate does not
/// fit the profile of its kind, or is not good under the issuer.
pub fn refused_certificates()
    ensures ca { (verdict : Verdict) (c : Certificate) (issuer : Validated) (now : Moment)
        (fault : ValidationError) → IsFirstFault (ca_validation verdict c issuer now) fault
        → ¬ (AllHold (ca_checks c.tbs) × IsGoodUnder verdict c issuer now) }
    ensures ee { (verdict : Verdict) (c : Certificate) (issuer : Validated) (now : Moment)
        (fault : ValidationError) → IsFirstFault (ee_validation verdict c issuer now) fault
        → ¬ (AllHold (ee_checks c.tbs) × IsGoodUnder verdict c issuer now) }
    ensures detached { (verdict : Verdict) (c : Certificate) (issuer : Validated) (now : Moment)
        (fault : ValidationError) → IsFirstFault (detached_ee_validation verdict c issuer now) fault
        → ¬ (AllHold (detached_ee_checks c.tbs) × IsGoodUnder verdict c issuer now) }
{}

/// What is validated under an issuer lies in the sets of the issuer, in each family.
pub fn numbers_are_held()
    ensures { (x : Claims) (issuer sets : Sets) → AreAllowed x issuer
        → AreValidated x issuer sets → AreHeld issuer sets }
{
    validated_is_held::<Asn>();
    validated_is_held::<Addr>();
}
