//! What a status means: laws, as functions that do nothing.

ghost use Rattle.std.specs.Prelude.{◌≡◌, ℕ, List, Option};
ghost use Rattle.rpki_basics.specs.Moment.{Moment};
ghost use Rattle.rpki_cli.specs.Store.{Told};
ghost use Rattle.rpki_der.specs.declared.mode.Mode.TheVariants.{Der};
ghost use Rattle.rpki_files.specs.Checklist.{ChecklistForm};
ghost use Rattle.rpki_files.specs.Checklist.Checks.{checklist_kind};
ghost use Rattle.rpki_files.specs.Manifest.{ManifestForm};
ghost use Rattle.rpki_files.specs.Manifest.Checks.{manifest_kind};
ghost use Rattle.rpki_routes.specs.Aspa.Checks.{aspa_kind};
ghost use Rattle.rpki_routes.specs.Aspa.Form.{AspaForm};
ghost use Rattle.rpki_routes.specs.Roa.Checks.{roa_kind};
ghost use Rattle.rpki_routes.specs.Roa.Form.{RoaForm};
ghost use Rattle.rpki_program.specs.Verify.Check.{IsChecked, IsNoOfCheck, IsYesOfCheck, SaysBad};
ghost use Rattle.rpki_program.specs.declared.verify.request.CheckRequest.{CheckRequest};
ghost use Rattle.rpki_program.specs.declared.verify.request.FileKind.TheVariants as kinds;

use rpki_validation::laws::what_is_found_decides;

/// Where a check of files has the status 0, the question that it asks has grounds, and on them each
/// file is good: it is of a kind, and a yes is right of the octets that the store tells of it.
pub fn a_check_is_a_yes_of_each()
    ensures { (told : Told) (r : CheckRequest) (moment : Moment) (before after : Option (List ℕ))
        (status : ℕ) → IsChecked told r moment before after status → status ≡ 0
        → IsYesOfCheck told r moment }
{}

/// Where it has the status 1, the question has no grounds, and not for want of memory; or on them a
/// file is not good, or of no kind that is checked, and none is left unread.
pub fn a_check_is_a_no_of_one()
    ensures { (told : Told) (r : CheckRequest) (moment : Moment) (before after : Option (List ℕ))
        (status : ℕ) → IsChecked told r moment before after status → status ≡ 1
        → IsNoOfCheck told r moment }
{}

/// A signed object that is said not to be good is none that is good in answer to the question.
pub fn what_is_said_to_be_bad_is_not_good()
    ensures roas { SaysBad kinds.Roa roa_kind (λ q. RoaForm) }
    ensures aspas { SaysBad kinds.Aspa aspa_kind (λ q. AspaForm q.manner.limit) }
    ensures manifests { SaysBad kinds.Manifest manifest_kind
        (λ q. ManifestForm q.manner.names Der) }
    ensures checklists { SaysBad kinds.Checklist checklist_kind (λ q. ChecklistForm Der) }
{
    what_is_found_decides();
}
