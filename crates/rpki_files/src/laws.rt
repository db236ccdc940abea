//! What the definitions of files, manifests and checklists say: laws, as functions that do nothing.

ghost use Rattle.std.specs.Prelude.{◌↔◌, ◌≡◌, ◌<◌, ℕ, List, All, Decides, true};
ghost use Rattle.rpki_basics.specs.Moment.{Moment};
ghost use Rattle.rpki_basics.specs.declared.build.BuildFault.{BuildFault};
ghost use Rattle.rpki_basics.specs.declared.limits.ManifestRule.{ManifestRule};
ghost use Rattle.rpki_basics.specs.declared.limits.ManifestRule.TheVariants.{Any, Registered};
ghost use Rattle.rpki_der.specs.declared.mode.Mode.{Mode};
ghost use Rattle.rpki_der.specs.Read.Exact.{IsReading};
ghost use Rattle.rpki_der.specs.Form.After.{LeavesOctetsAfter};
ghost use Rattle.rpki_files.specs.Name.{IsFileName, is_file_name};
ghost use Rattle.rpki_files.specs.Manifest.Files.{FileForm, file_at};
ghost use Rattle.rpki_files.specs.Checklist.Files.{CheckedForm, checked_at, is_portable_name};
ghost use Rattle.rpki_basics.specs.Uri.{IsRsync, join_text};
ghost use Rattle.rpki_files.specs.Checklist.{Checklist, ChecklistForm, checklist_at};
ghost use Rattle.rpki_files.specs.Manifest.{Manifest, ManifestForm, manifest_at};
ghost use Rattle.rpki_faults.specs.Checks.{AllHold, IsFirstFault};
ghost use Rattle.rpki_extensions.specs.declared.claims.Claims.{Claims};
ghost use Rattle.rpki_certs.specs.Inspect.{NamesNothing};
ghost use Rattle.rpki_certs.specs.Validate.{AreAllowed, AreHeld, AreValidated, IsValidatedUnder};
ghost use Rattle.rpki_certs.specs.Validate.{Sets, Validated};
ghost use Rattle.rpki_certs.specs.Verify.{Verdict};
ghost use Rattle.rpki_sigobj.specs.Object.{SignedData};
ghost use Rattle.rpki_sigobj.specs.Signed.{Whole, cert_in};
ghost use Rattle.rpki_sigobj.specs.Signed.Good.{IsGood};
ghost use Rattle.rpki_sigobj.specs.Validate.{object_validation};
ghost use Rattle.rpki_sigobj.specs.Verify.{Digester};
ghost use Rattle.rpki_signing.specs.Built.{IsBuilt, IsFit, Settings, claims_of};
ghost use Rattle.rpki_files.specs.Manifest.Built.{manifest_checks};
ghost use Rattle.rpki_files.specs.Manifest.Signed.{inheriting};
ghost use Rattle.rpki_files.specs.Manifest.Checks.{ct_manifest, manifest_kind};
ghost use Rattle.rpki_files.specs.Checklist.Checks.{checklist_held, checklist_claimed};
ghost use Rattle.rpki_files.specs.Checklist.Checks.{AreCanonical, checklist_sets};

use rpki_certs::ResourceCert;
use rpki_signing::laws::built_objects_are_valid;

/// What the name of a file is, and that it is an IA5String (RFC 9286, section 4.2.2).
pub fn file_names()
    ensures test { (name : List ℕ) → Decides (is_file_name name) (IsFileName name) }
    ensures ia5 { (name : List ℕ) → IsFileName name → All (λ b. b < 128) name }
{}

/// The name of a file, joined to an rsync URI, is an rsync URI (RFC 9286, section 4.2.2; RFC 5781).
pub fn joined_names()
    ensures { (base name : List ℕ) → IsRsync base → IsFileName name
        → IsRsync (join_text base name) }
{}

/// A file and a manifest are read exactly, they are unique, and DER is a part of BER (RFC 9286,
/// section 4.2).
pub fn manifests()
    ensures file { IsReading file_at FileForm }
    ensures manifest { (rule : ManifestRule)
        → IsReading (manifest_at rule) (ManifestForm rule) }
{}

/// A file of a checklist and a checklist are read exactly, they are unique, and DER is a part of
/// BER. The name of a file is an IA5String (RFC 9323, section 4).
pub fn checklists()
    ensures file { IsReading checked_at CheckedForm }
    ensures checklist { IsReading checklist_at ChecklistForm }
    ensures ia5 { (name : List ℕ) → is_portable_name name ≡ true → All (λ b. b < 128) name }
{}

/// Octets after a manifest change nothing: they are left. Nor do octets after one whole value make
/// it a manifest that it is not.
pub fn octets_after_a_manifest_are_left()
    ensures { (rule : ManifestRule) (mode : Mode)
        → LeavesOctetsAfter mode (ManifestForm rule mode) }
{}

/// Octets after a checklist change nothing: they are left. Nor do octets after one whole value make
/// it a checklist that it is not.
pub fn octets_after_a_checklist_are_left()
    ensures { (mode : Mode) → LeavesOctetsAfter mode (ChecklistForm mode) }
{}

/// What is a manifest where types have to be registered and no name may come twice, is the same
/// manifest where neither is asked for.
pub fn registered_is_any()
    ensures { (mode : Mode) (octets : List ℕ) (m : Manifest)
        → ManifestForm Registered mode octets m → ManifestForm Any mode octets m }
{}

/// A certificate passes the checks with a checklist exactly where it has the numbers of the
/// checklist: that it claims them follows from its validated sets (RFC 9323, section 5).
pub fn covered_checklists()
    ensures { (l : Checklist) (x : Claims) (issuer sets : Sets) → AreCanonical l
        → AreValidated x issuer sets
        → (AllHold (checklist_claimed l x) × AllHold (checklist_held l sets))
        ↔ AreHeld sets (checklist_sets l) }
{}

/// If a builder of a manifest refuses values by a fault, no encoded content says these values.
pub fn refused_manifests()
    ensures { (rule : ManifestRule) (mode : Mode) (m : Manifest) (fault : BuildFault)
        → IsFirstFault (manifest_checks rule m) fault
        → (octets : List ℕ) → ManifestForm rule mode octets m → ⊥ }
{}

/// A manifest that is built passes its whole validation, and is good (RFC 6488, section 3; RFC
/// 9286, section 4.4), where cryptography says yes to what the signer may answer, and what the
/// builder was told fits the issuer and the moment. That a family is named and that the issuer has
/// what is claimed is so of each manifest, since it inherits all.
pub fn built_manifests_are_valid(issuer: &ResourceCert)
    ensures valid { (digest : Digester) (verdict : Verdict) (b : Settings)
        (key content : List ℕ) (s : SignedData) (now : Moment)
        → IsBuilt (inheriting b) key ct_manifest content (digest content) s
        → IsFit verdict (inheriting b) key s issuer.now now
        → AllHold (object_validation digest verdict s issuer.now now) }
    ensures good { (digest : Digester) (verdict : Verdict) (mode : Mode) (b : Settings)
        (key content : List ℕ) (o : Whole Manifest) (now : Moment)
        → IsBuilt (inheriting b) key ct_manifest content (digest content) o.object.signed
        → IsFit verdict (inheriting b) key o.object.signed issuer.now now
        → (v : Validated) → IsValidatedUnder (cert_in mode o) issuer.now v
        → IsGood manifest_kind mode digest verdict issuer.now now o v }
    ensures named { (b : Settings) → ¬ NamesNothing (claims_of (inheriting b)) }
    ensures allowed { (b : Settings) (sets : Sets) → AreAllowed (claims_of (inheriting b)) sets }
{
    built_objects_are_valid(issuer);
}
