//! What the definitions of revocation lists say: laws, as functions that do nothing.

ghost use Rattle.std.specs.Prelude.{◌≡◌, ◌++◌, ℕ, List, Result, MatchResult};
ghost use Rattle.rpki_der.specs.declared.error.DecodeError.{DecodeError};
ghost use Rattle.rpki_der.specs.declared.error.DecodeError.TheVariants.{Memory};
ghost use Rattle.rpki_der.specs.declared.mode.Mode.{Mode};
ghost use Rattle.rpki_der.specs.declared.mode.Mode.TheVariants.{Der};
ghost use Rattle.rpki_der.specs.Form.After.{LeavesOctetsAfter};
ghost use Rattle.rpki_der.specs.Form.Decodes.{Decodes};
ghost use Rattle.rpki_der.specs.Read.Exact.{IsReading};
ghost use Rattle.rpki_crls.specs.Crl.{RevocationList, KeptCrl, CrlForm, crl_at};
ghost use Rattle.rpki_crls.specs.Extensions.{CrlExtensionsForm, crl_extensions_at};

/// Reading a revocation list is exact and unique, and DER is a part of BER (RFC 5280, section 5.1).
pub fn revocation_lists()
    ensures { IsReading crl_at CrlForm }
{}

/// Octets after a revocation list change nothing: they are left. Nor do octets after one whole
/// value make it a revocation list that it is not.
pub fn octets_after_a_revocation_list_are_left()
    ensures { (mode : Mode) → LeavesOctetsAfter mode (CrlForm mode) }
{}

/// What is written of a revocation list that was read strictly is read strictly as this list,
/// whatever octets follow it, unless memory runs out.
pub fn written_revocation_lists_are_read()
    ensures { (l : RevocationList) (rest : List ℕ) (r : Result KeptCrl DecodeError)
        → CrlForm Der l.octets l → Decodes (CrlForm Der) (λ k. k.list) (l.octets ++ rest) r
        → MatchResult r (λ k. k.list ≡ l) (λ e. e ≡ Memory) }
{}

/// Reading the extensions of a revocation list is exact and unique, and DER is a part of BER
/// (RFC 5280, section 5.2).
pub fn extensions()
    ensures { IsReading crl_extensions_at CrlExtensionsForm }
{}
