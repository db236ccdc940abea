//! What statuses mean: laws, as functions that do nothing.

ghost use Rattle.std.specs.Prelude.{◌≡◌};
ghost use Rattle.rpki_basics.specs.declared.limits.ManifestRule.{ManifestRule};
ghost use Rattle.rpki_basics.specs.declared.limits.ProviderLimit.{ProviderLimit};
ghost use Rattle.rpki_der.specs.declared.mode.Mode.TheVariants.{Der};
ghost use Rattle.rpki_files.specs.Checklist.{ChecklistForm};
ghost use Rattle.rpki_files.specs.Checklist.Checks.{checklist_kind};
ghost use Rattle.rpki_files.specs.Manifest.{ManifestForm};
ghost use Rattle.rpki_files.specs.Manifest.Checks.{manifest_kind};
ghost use Rattle.rpki_routes.specs.Aspa.Checks.{aspa_kind};
ghost use Rattle.rpki_routes.specs.Aspa.Form.{AspaForm};
ghost use Rattle.rpki_routes.specs.Roa.Checks.{roa_kind};
ghost use Rattle.rpki_routes.specs.Roa.Form.{RoaForm};
ghost use Rattle.rpki_validation.specs.Grounds.{AreSame};
ghost use Rattle.rpki_validation.specs.declared.grounds.Grounds.{Grounds};
ghost use Rattle.rpki_check.specs.Decided.{EditionTells, FilesTell, IsGrantDecided, ObjectTells};
ghost use Rattle.rpki_check.specs.Decided.{ObjectsTell, RowsTell};
ghost use Rattle.rpki_check.specs.Files.{checked_files, listed_files};
ghost use Rattle.rpki_check.specs.Grounds.{AreGroundsOf, HasNoGrounds, manner_in};
ghost use Rattle.rpki_check.specs.Numbers.{no_memory, refusal_number};
ghost use Rattle.rpki_check.specs.Object.{IsDecided};
ghost use Rattle.rpki_check.specs.Rows.{numbers, payloads};
ghost use Rattle.rpki_check.specs.declared.question.Question.{Question as QuestionOf};
ghost use Rattle.rpki_check.specs.declared.refusal.Refusal.{Refusal};

/// A question has one moment, the same lists and one issuer, and where it has them it is refused for
/// want of memory alone.
pub fn questions_have_one_issuer()
    ensures one { (q : QuestionOf) (g h : Grounds) → AreGroundsOf q g → AreGroundsOf q h
        → AreSame g h }
    ensures refused { (q : QuestionOf) (refusal : Refusal) → HasNoGrounds q refusal
        → ¬ (refusal_number refusal ≡ no_memory) → (g : Grounds) → ¬ AreGroundsOf q g }
{}

/// The status of what is found, as each call answers it, is 0 exactly where the octets begin with a
/// good object under the issuer that the certificates make, and no list revokes it, unless memory
/// runs out; of an attestation it is 0 only there, and exactly there if the identifiers of its
/// certificates are distinct.
pub fn statuses_decide()
    ensures roas { IsDecided roa_kind RoaForm }
    ensures aspas { (limit : ProviderLimit) → IsDecided aspa_kind (AspaForm limit) }
    ensures manifests { (rule : ManifestRule) → IsDecided manifest_kind (ManifestForm rule Der) }
    ensures checklists { IsDecided checklist_kind (ChecklistForm Der) }
    ensures attestations { IsGrantDecided }
{}

/// The same of each call and its own status: of an object of any kind, one that its content type
/// names and an attestation too; of each of many objects; and of rows.
pub fn calls_decide()
    ensures object { ObjectTells }
    ensures objects { ObjectsTell }
    ensures roas { RowsTell roa_kind (λ q. RoaForm) payloads }
    ensures aspas { RowsTell aspa_kind (λ q. AspaForm (manner_in q).limit) numbers }
    ensures manifests { FilesTell manifest_kind (λ q. ManifestForm (manner_in q).names Der)
        listed_files }
    ensures editions { EditionTells }
    ensures checklists { FilesTell checklist_kind (λ q. ChecklistForm Der) checked_files }
{}
