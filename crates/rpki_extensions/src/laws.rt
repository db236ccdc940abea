//! What the definitions of extensions say: laws, as functions that do nothing.

ghost use Rattle.std.specs.Prelude.{ℕ, List};
ghost use Rattle.rpki_der.specs.Form.Parts.{sequence_at};
ghost use Rattle.rpki_der.specs.Read.Exact.{IsReading};
ghost use Rattle.rpki_extensions.specs.Access.{AuthorityAccessForm, SubjectAccessForm};
ghost use Rattle.rpki_extensions.specs.Access.{authority_access_at, subject_access_at};
ghost use Rattle.rpki_extensions.specs.Addresses.{IpClaimsForm, ip_claims_at};
ghost use Rattle.rpki_extensions.specs.BasicConstraints.{BasicConstraintsForm};
ghost use Rattle.rpki_extensions.specs.BasicConstraints.{basic_constraints_at};
ghost use Rattle.rpki_extensions.specs.Extension.{ExtensionForm, StandingForm};
ghost use Rattle.rpki_extensions.specs.Extension.{extension_at, standing_at};
ghost use Rattle.rpki_extensions.specs.Extensions.{ExtensionsForm, extensions_at};
ghost use Rattle.rpki_extensions.specs.KeyIdentifiers.{SubjectKeyForm, AuthorityKeyForm};
ghost use Rattle.rpki_extensions.specs.KeyIdentifiers.{subject_key_at, authority_key_at};
ghost use Rattle.rpki_extensions.specs.Points.{PointsForm, points_at};
ghost use Rattle.rpki_extensions.specs.Policies.{PoliciesForm, policies_at};
ghost use Rattle.rpki_extensions.specs.Purposes.{PurposesForm, purposes_at};
ghost use Rattle.rpki_extensions.specs.Usage.{KeyUsageForm, key_usage_at};

/// Reading the identifiers of keys is exact and unique, and DER is a part of BER (RFC 5280,
/// sections 4.2.1.1 and 4.2.1.2).
pub fn key_identifiers()
    ensures subject { IsReading subject_key_at SubjectKeyForm }
    ensures authority { IsReading authority_key_at AuthorityKeyForm }
{}

/// So it is with basic constraints (RFC 5280, section 4.2.1.9).
pub fn basic_constraints()
    ensures { IsReading basic_constraints_at BasicConstraintsForm }
{}

/// So it is with the usage of a key and its purposes (RFC 5280, sections 4.2.1.3 and 4.2.1.12).
pub fn usages()
    ensures usage { IsReading key_usage_at KeyUsageForm }
    ensures purposes { IsReading purposes_at PurposesForm }
{}

/// So it is with certificate policies (RFC 5280, section 4.2.1.4).
pub fn policies()
    ensures { IsReading policies_at PoliciesForm }
{}

/// So it is with the claims of addresses (RFC 3779, section 2.2.3).
pub fn claims()
    ensures { IsReading ip_claims_at IpClaimsForm }
{}

/// So it is with the extensions that say where something lies: the revocation list, the issuer's
/// certificate, and what is to be had from the subject (RFC 5280, sections 4.2.1.13, 4.2.2.1 and
/// 4.2.2.2).
pub fn locations()
    ensures lists { IsReading points_at PointsForm }
    ensures issuer { IsReading authority_access_at AuthorityAccessForm }
    ensures subject { IsReading subject_access_at SubjectAccessForm }
{}

/// So it is with the SEQUENCE of the extensions that `take_standing` takes, whichever are known
/// (RFC 5280, sections 4.1 and 4.2).
pub fn standing()
    ensures { (known : List (List ℕ)) →
        IsReading (sequence_at (standing_at known)) (StandingForm known) }
{}

/// So it is with one extension, and with all extensions of a resource certificate (RFC 5280,
/// section 4.1; RFC 6487, section 4.8).
pub fn extensions()
    ensures one { IsReading extension_at ExtensionForm }
    ensures all { IsReading extensions_at ExtensionsForm }
{}
