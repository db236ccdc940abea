//! What the definitions of revocation lists that are made say: laws, as functions that do nothing.

ghost use Rattle.std.specs.Prelude.{◌≡◌, ◌↔◌, ◌<◌, ◌^◌, ◌++◌, ℕ, List, Any, Contains};
ghost use Rattle.std.specs.Prelude.{Result, MatchResult, length};
ghost use Rattle.rpki_der.specs.declared.error.DecodeError.{DecodeError};
ghost use Rattle.rpki_der.specs.declared.mode.Mode.TheVariants.{Der};
ghost use Rattle.rpki_der.specs.Form.Decodes.{Decodes};
ghost use Rattle.rpki_basics.specs.Name.{IsName};
ghost use Rattle.rpki_crls.specs.Crl.{CrlForm, KeptCrl};
ghost use Rattle.rpki_issued_crls.specs.Lists.{UnsignedList, IsToWrite, serial_of};
ghost use Rattle.rpki_issued_crls.specs.Lists.{crl_contents, crl_octets, made_list};

/// What is written of a revocation list under a name is in its form, and says what it is made of,
/// with this signature (RFC 5280, section 5.1; RFC 6487, section 5).
pub fn lists_are_written()
    ensures { (u : UnsignedList) (issuer s : List ℕ) → IsToWrite u → IsName Der issuer
        → length (crl_contents u issuer s) < 2 ^ 32
        → CrlForm Der (crl_octets u issuer s) (made_list u issuer s) }
{}

/// What is written of a revocation list is read again as this list, whatever octets follow it,
/// unless memory runs out.
pub fn written_lists_are_read()
    ensures { (u : UnsignedList) (issuer s rest : List ℕ) (r : Result KeptCrl DecodeError) →
        IsToWrite u → IsName Der issuer → length (crl_contents u issuer s) < 2 ^ 32
        → Decodes (CrlForm Der) (λ k. k.list) (crl_octets u issuer s ++ rest) r
        → MatchResult r (λ k. k.list ≡ made_list u issuer s) (λ e. e ≡ DecodeError.Memory) }
{}

/// A list that is made revokes the certificates whose serial numbers were pushed, and no others
/// (RFC 5280, section 5.1.2.6): `Crl::contains` of it says whether one was.
pub fn pushed_are_revoked()
    ensures { (u : UnsignedList) (issuer s : List ℕ) (serial : ℕ) →
        Contains (made_list u issuer s).tbs.revoked serial
        ↔ Any (λ r. serial_of r ≡ serial) u.revoked }
{}
