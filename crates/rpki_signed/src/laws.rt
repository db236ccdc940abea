//! What the forms and the checks of objects mean: laws, as functions that do nothing.

ghost use Rattle.std.specs.Prelude.{◌↔◌, ℕ, List, IsTrue};
ghost use Rattle.std.specs.Fn.{FnOnceTakesAt, FnOnceReturnsAt};
ghost use Rattle.rpki_basics.specs.declared.limits.ManifestRule.TheVariants.{Any, Registered};
ghost use Rattle.rpki_basics.specs.declared.limits.ProviderLimit.TheVariants.{Narrow, Wide};
ghost use Rattle.rpki_der.specs.declared.mode.Mode.{Mode};
ghost use Rattle.rpki_der.specs.declared.mode.Mode.TheVariants.{Der};
ghost use Rattle.rpki_der.specs.Form.After.{LeavesOctetsAfter};
ghost use Rattle.rpki_files.specs.Checklist.{ChecklistForm};
ghost use Rattle.rpki_files.specs.Manifest.Files.{File};
ghost use Rattle.rpki_files.specs.Manifest.{Manifest, ManifestForm};
ghost use Rattle.rpki_routes.specs.Aspa.{Aspa};
ghost use Rattle.rpki_routes.specs.Aspa.Form.{AspaForm};
ghost use Rattle.rpki_routes.specs.Roa.Form.{RoaForm};
ghost use Rattle.rpki_routes.specs.Aspa.Checks.{ct_aspa, aspa_kind};
ghost use Rattle.rpki_files.specs.Checklist.Checks.{checklist_kind, ct_checklist};
ghost use Rattle.rpki_files.specs.Manifest.Checks.{ct_manifest, manifest_kind};
ghost use Rattle.rpki_sigobj.specs.Signed.{Whole, ObjectForm, IsInBer};
ghost use Rattle.rpki_sigobj.specs.Verify.{Digester};
ghost use Rattle.rpki_routes.specs.Roa.Checks.{roa_kind, route_origin_authz};
ghost use Rattle.rpki_signed.specs.Headline.{IsHeadline, IsRtaHeadline};
ghost use Rattle.rpki_signed.specs.Walk.{AtHand, IsHeld, GivesAll, is_held};
ghost use Rattle.rpki_signed.specs.Wider.{KeepsYes};

use crate::walk::Walk;
use rpki_basics::{Crypto, ManifestRule, ProviderLimit};
use rpki_certs::Cert;
use rpki_der::AsOctets;
use rpki_faults::ValidationError;

/// An object that is read strictly, in DER, is read in BER too, and says the same, whatever its
/// kind, the rule for names and the limit of providers.
pub fn strict_objects_are_in_ber()
    ensures manifests { (rule : ManifestRule) → IsInBer ct_manifest (ManifestForm rule Der) }
    ensures roas { IsInBer route_origin_authz RoaForm }
    ensures aspas { (limit : ProviderLimit) → IsInBer ct_aspa (AspaForm limit) }
    ensures checklists { IsInBer ct_checklist (ChecklistForm Der) }
{}

/// Octets after an object change nothing: they are left, whatever its kind, the rule for names and
/// the limit of providers. Nor do octets after one whole value make it an object that it is not.
pub fn octets_after_an_object_are_left()
    ensures manifests { (rule : ManifestRule) (mode : Mode)
        → LeavesOctetsAfter mode (ObjectForm ct_manifest (ManifestForm rule Der) mode) }
    ensures roas { (mode : Mode)
        → LeavesOctetsAfter mode (ObjectForm route_origin_authz RoaForm mode) }
    ensures aspas { (limit : ProviderLimit) (mode : Mode)
        → LeavesOctetsAfter mode (ObjectForm ct_aspa (AspaForm limit) mode) }
    ensures checklists { (mode : Mode)
        → LeavesOctetsAfter mode (ObjectForm ct_checklist (ChecklistForm Der) mode) }
{}

/// What is a manifest where types have to be registered and no name may come twice, is the same
/// manifest where neither is asked for (RFC 9286, sections 4.2.1 and 4.2.2); what is an ASPA of the
/// narrow limit, which is no standard's, is the same ASPA of the wide one.
pub fn narrow_objects_are_wide()
    ensures manifests { (mode : Mode) (octets : List ℕ) (o : Whole Manifest)
        → ObjectForm ct_manifest (ManifestForm Registered Der) mode octets o
        → ObjectForm ct_manifest (ManifestForm Any Der) mode octets o }
    ensures aspas { (mode : Mode) (octets : List ℕ) (o : Whole Aspa)
        → ObjectForm ct_aspa (AspaForm Narrow) mode octets o
        → ObjectForm ct_aspa (AspaForm Wide) mode octets o }
{}

/// Where `check::manifest` says yes by the rule that asks for registered types and no name twice,
/// that yes is right by the rule that asks for neither too (RFC 9286, sections 4.2.1 and 4.2.2),
/// with the same certificate and content; and a check by that rule says it, unless memory runs out
/// or `check_crl` now answers a fault. So it is with `check::aspa`, by the narrow limit and by the
/// wide one.
pub fn narrow_checks_are_wide<F: FnOnce(&Cert) -> Result<(), ValidationError>>(check_crl: &F)
    ensures manifests { KeepsYes manifest_kind (ManifestForm Registered Der)
        (ManifestForm Any Der) (FnOnceReturnsAt F.FnOnce check_crl.now)
        (FnOnceTakesAt F.FnOnce check_crl.now) }
    ensures aspas { KeepsYes aspa_kind (AspaForm Narrow) (AspaForm Wide)
        (FnOnceReturnsAt F.FnOnce check_crl.now) (FnOnceTakesAt F.FnOnce check_crl.now) }
{}

/// An entry of a manifest is in a walk exactly if it is held: the first file at hand with its name
/// has its hash (RFC 9286, section 6.5). The calls of a walk, up to the one that answers nothing,
/// give all such entries that are left to it, in order, and no others.
pub fn walks_are_whole<'a, N: AsOctets, O: AsOctets, C: Crypto>(walk: &Walk<'a, N, O, C>)
    ensures held { (digest : Digester) (files : List AtHand) (f : File)
        → IsTrue (is_held digest files f) ↔ IsHeld digest files f }
    ensures whole { GivesAll ⟦<Walk<'a, N, O, C> as Iterator>⟧.next_gives
        (λ f. record { file = f.file.now; hash = f.hash.now }) walk.now walk.now }
{}

/// From octets to the yes. A check of a manifest, a ROA, an ASPA or a checklist, which `exact` says
/// of `check::manifest`, `roa`, `aspa` and `rsc`, says yes exactly where the octets begin with a
/// member of the grammar, every stated check holds, and the numbers claimed lie in the sets of the
/// validated certificate. A check of a multi-signed attestation, which `exact` says of
/// `check::rta`, says yes only where the octets begin with one, every stated check holds, and each
/// attested set equals the union, over its signers, of the intersections of all explicit sets along
/// anchored, signed, valid, unrevoked paths without a cycle; and, if the identifiers of the
/// certificates that it carries are distinct, exactly there. Unless memory runs out, and, of the
/// first four, if `check_crl` has one answer about the certificate of that object (`SaysOne`).
pub fn yes_is_exact<F: FnOnce(&Cert) -> Result<(), ValidationError>>(check_crl: &F)
    ensures manifests { (rule : ManifestRule) → IsHeadline manifest_kind (ManifestForm rule Der)
        (FnOnceReturnsAt F.FnOnce check_crl.now) }
    ensures roas { IsHeadline roa_kind RoaForm (FnOnceReturnsAt F.FnOnce check_crl.now) }
    ensures aspas { (limit : ProviderLimit) → IsHeadline aspa_kind (AspaForm limit)
        (FnOnceReturnsAt F.FnOnce check_crl.now) }
    ensures checklists { IsHeadline checklist_kind (ChecklistForm Der)
        (FnOnceReturnsAt F.FnOnce check_crl.now) }
    ensures attestations { IsRtaHeadline }
{}
