//! What is found decides: laws, as functions that do nothing.

ghost use Rattle.std.specs.Prelude.{◌≡◌, ℕ, List, Err, Ok, true};
ghost use Rattle.rpki_basics.specs.declared.limits.ManifestRule.{ManifestRule};
ghost use Rattle.rpki_basics.specs.declared.limits.ProviderLimit.{ProviderLimit};
ghost use Rattle.rpki_der.specs.declared.mode.Mode.TheVariants.{Der};
ghost use Rattle.rpki_certs.specs.Validate.{Validated};
ghost use Rattle.rpki_crls.specs.Crl.{KeptCrl};
ghost use Rattle.rpki_files.specs.Checklist.{ChecklistForm};
ghost use Rattle.rpki_files.specs.Checklist.Checks.{checklist_kind};
ghost use Rattle.rpki_files.specs.Manifest.{ManifestForm};
ghost use Rattle.rpki_files.specs.Manifest.Checks.{manifest_kind};
ghost use Rattle.rpki_routes.specs.Aspa.Checks.{aspa_kind};
ghost use Rattle.rpki_routes.specs.Aspa.Form.{AspaForm};
ghost use Rattle.rpki_routes.specs.Roa.Checks.{roa_kind};
ghost use Rattle.rpki_routes.specs.Roa.Form.{RoaForm};
ghost use Rattle.rpki_tal.specs.Tal.{Locator};
ghost use Rattle.rpki_validation.specs.Attestation.{IsRtaDecided};
ghost use Rattle.rpki_validation.specs.Grounds.{AreGroundsOf, AreSame, HasNoGrounds};
ghost use Rattle.rpki_validation.specs.Issuer.{IsNextCa};
ghost use Rattle.rpki_validation.specs.Locator.{IsLocatorFound, is_memory_of_locator};
ghost use Rattle.rpki_validation.specs.Object.{IsDecided};
ghost use Rattle.rpki_validation.specs.Refusal.{is_memory, is_memory_at_ca};
ghost use Rattle.rpki_validation.specs.RevocationList.{IsListFound, is_memory_of_list};
ghost use Rattle.rpki_validation.specs.declared.grounds.Grounds.{Grounds};
ghost use Rattle.rpki_validation.specs.declared.locator.LocatorFault.{LocatorFault};
ghost use Rattle.rpki_validation.specs.declared.question.Question.{Question as QuestionOf};
ghost use Rattle.rpki_validation.specs.declared.refusal.CaFault.{CaFault};
ghost use Rattle.rpki_validation.specs.declared.refusal.Refusal.{Refusal};
ghost use Rattle.rpki_validation.specs.declared.revocation_list.ListFault.{ListFault};

/// A question has one moment, the same locator, the same lists and one issuer, and where it has them
/// it is refused for want of memory alone.
pub fn questions_have_one_issuer()
    ensures one { (q : QuestionOf) (g h : Grounds) → AreGroundsOf q g → AreGroundsOf q h
        → AreSame g h }
    ensures refused { (q : QuestionOf) (g : Grounds) (refusal : Refusal) → AreGroundsOf q g
        → HasNoGrounds q refusal → is_memory refusal ≡ true }
{}

/// Unless memory runs out, a content is found in answer to a question exactly where the octets begin
/// with a good object under the issuer that the certificates make, and no list revokes it: what is
/// refused is not good. A certificate of a CA, a revocation list and a locator that are found good
/// are refused for want of memory alone.
pub fn what_is_found_decides()
    ensures roas { IsDecided roa_kind RoaForm }
    ensures aspas { (limit : ProviderLimit) → IsDecided aspa_kind (AspaForm limit) }
    ensures manifests { (rule : ManifestRule) → IsDecided manifest_kind (ManifestForm rule Der) }
    ensures checklists { IsDecided checklist_kind (ChecklistForm Der) }
    ensures attestations { IsRtaDecided }
    ensures certificates { (g : Grounds) (octets : List ℕ) (v : Validated) (fault : CaFault)
        → IsNextCa g.lists.items g.moment g.issuer octets (Ok v)
        → IsNextCa g.lists.items g.moment g.issuer octets (Err fault)
        → is_memory_at_ca fault ≡ true }
    ensures lists { (g : Grounds) (octets : List ℕ) (k : KeptCrl) (fault : ListFault)
        → IsListFound g octets (Ok k) → IsListFound g octets (Err fault)
        → is_memory_of_list fault ≡ true }
    ensures locators { (anchor octets : List ℕ) (l : Locator) (fault : LocatorFault)
        → IsLocatorFound anchor octets (Ok l) → IsLocatorFound anchor octets (Err fault)
        → is_memory_of_locator fault ≡ true }
{}
