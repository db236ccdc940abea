//! What the definitions say, as functions that do nothing.

ghost use Rattle.std.specs.Prelude.{◌≡◌, ◌∷◌, ℕ, List, Ok, Err};
ghost use Rattle.std.specs.List.{zip};
ghost use Rattle.sha2.specs.Sha256.{sha256};
ghost use Rattle.rpki_basics.specs.Moment.{Moment};
ghost use Rattle.rpki_certs.specs.Issuer.{MakesIssuer};
ghost use Rattle.rpki_certs.specs.Validate.{Validated};
ghost use Rattle.rpki_certs.specs.Verify.{Verdict};
ghost use Rattle.rpki_certs.specs.declared.issuer.IssuerError.{IssuerError};
ghost use Rattle.rpki_rsa.specs.Signature.{is_rsa_signature};
ghost use Rattle.rpki_rta.specs.Granted.{IsDistinct};
ghost use Rattle.rpki_cli.specs.Answer.{Run, out_of_memory};
ghost use Rattle.rpki_cli.specs.Command.{AreTold, IsRunOf, objects_language};
ghost use Rattle.rpki_cli.specs.Language.{IsAsked};
ghost use Rattle.rpki_cli.specs.Store.{Told};
ghost use Rattle.rpki_cli.specs.Words.{chain_in, names_in, paths_in, files_of_anchors};
ghost use Rattle.rpki_cli.specs.declared.words.Kind.{Kind};
ghost use Rattle.rpki_cli.specs.declared.words.Kind.TheVariants.{Manifest};
ghost use Rattle.rpki_cli.specs.declared.words.Options.{Options};
ghost use Rattle.rpki_command.specs.Check.{issuer_refusal};
ghost use Rattle.rpki_command.specs.Command.{objects_program};
ghost use Rattle.rpki_command.specs.Same.{IsSameIssuer};
ghost use Rattle.rpki_command.specs.Sufficing.{IsGoodBy, IsGoodList, NeverSaysNo};
ghost use Rattle.rpki_command.specs.Yes.{FilesOfCheck, in_order_with, check_order, walk_order};
ghost use Rattle.rpki_command.specs.Yes.{IsRightWalk, rta_order, IsRightRta, IsRightNoRta};
ghost use Rattle.rpki_command.specs.Yes.{IsRightYes, IsRightNo, HoldsByList};

/// Where a store tells the files of a check, a run of it that ends with status 0 says yes, and that
/// rightly: FILE begins with a good object under the issuer that the certificates make by the
/// verdicts, at this moment. Where a run ends with status 1, they make none, or FILE begins with no
/// good object under it; what it prints then, `IsRunOf` says. The two exclude each other, though
/// the issuer is determined only up to how its numbers are written
/// (`yes_and_no_exclude_each_other`). The store of the system's files tells nothing: the program is
/// the same for every store, and these are the laws of those that tell.
pub fn checks_are_right()
    ensures yes { (told : Told) (words : List (List ℕ)) (before after : List (List ℕ)) (run : Run)
        (options : Options) (kind : Kind) (now : Moment) (names files : FilesOfCheck)
        (list text : List ℕ) → IsRunOf objects_program told words before after run
        → IsAsked objects_language words (check_order options kind now list names)
        → AreTold told (in_order_with list names) (in_order_with text files) → run.status ≡ 0
        → HoldsByList (λ verdict. IsRightYes options kind verdict now files run) text }
    ensures no { (told : Told) (words : List (List ℕ)) (before after : List (List ℕ)) (run : Run)
        (options : Options) (kind : Kind) (now : Moment) (names files : FilesOfCheck)
        (list text : List ℕ) → IsRunOf objects_program told words before after run
        → IsAsked objects_language words (check_order options kind now list names)
        → AreTold told (in_order_with list names) (in_order_with text files) → run.status ≡ 1
        → HoldsByList (λ verdict. IsRightNo options kind verdict now files) text }
{}

/// Where a store tells the files of a walk, a run of it that ends with status 0 says yes and which
/// entries are held, and that rightly: FILE begins with a good manifest under the issuer that the
/// certificates make by the verdicts, at this moment, and a line is printed for each of its entries
/// that the files at hand hold, and for no other. Where a run ends with status 1, a check of the
/// manifest is right to do so: they make no issuer, or FILE begins with no good manifest under it.
pub fn walks_are_right()
    ensures yes { (told : Told) (words : List (List ℕ)) (before after : List (List ℕ)) (run : Run)
        (options : Options) (now : Moment) (object list anchor : List ℕ) (tail : List (List ℕ))
        (files : FilesOfCheck) (text : List ℕ) (octets : List (List ℕ))
        → IsRunOf objects_program told words before after run
        → IsAsked objects_language words (walk_order options now object list anchor tail)
        → AreTold told (object ∷ list ∷ anchor ∷ chain_in tail) (in_order_with text files)
        → AreTold told (paths_in tail) octets → run.status ≡ 0
        → HoldsByList (λ verdict. IsRightWalk options verdict now files
        (zip (names_in tail) octets) run) text }
    ensures no { (told : Told) (words : List (List ℕ)) (before after : List (List ℕ)) (run : Run)
        (options : Options) (now : Moment) (object list anchor : List ℕ) (tail : List (List ℕ))
        (files : FilesOfCheck) (text : List ℕ) (octets : List (List ℕ))
        → IsRunOf objects_program told words before after run
        → IsAsked objects_language words (walk_order options now object list anchor tail)
        → AreTold told (object ∷ list ∷ anchor ∷ chain_in tail) (in_order_with text files)
        → AreTold told (paths_in tail) octets → run.status ≡ 1
        → HoldsByList (λ verdict. IsRightNo options Manifest verdict now files) text }
{}

/// Where a store tells the files of a check of an attestation, a run of it that ends with status 0
/// says yes, and that rightly: the files of the anchors make them by the verdicts, and FILE begins
/// with an attestation that is granted under them at this moment. Where a run ends with status 1,
/// one of the anchors is not made, or FILE begins with no attestation that is granted under them,
/// if no two carried CAs have one key identifier, and end entities that share one have one key.
pub fn attestations_are_right()
    ensures yes { (told : Told) (words : List (List ℕ)) (before after : List (List ℕ)) (run : Run)
        (options : Options) (now : Moment) (file list : List ℕ) (anchors : List (List ℕ))
        (object text : List ℕ) (octets : List (List ℕ))
        → IsRunOf objects_program told words before after run
        → IsAsked objects_language words (rta_order options now file list anchors)
        → AreTold told (file ∷ list ∷ files_of_anchors anchors) (object ∷ text ∷ octets)
        → run.status ≡ 0
        → HoldsByList (λ verdict. IsRightRta verdict now anchors object octets run) text }
    ensures no { (told : Told) (words : List (List ℕ)) (before after : List (List ℕ)) (run : Run)
        (options : Options) (now : Moment) (file list : List ℕ) (anchors : List (List ℕ))
        (object text : List ℕ) (octets : List (List ℕ))
        → IsRunOf objects_program told words before after run
        → IsAsked objects_language words (rta_order options now file list anchors)
        → AreTold told (file ∷ list ∷ files_of_anchors anchors) (object ∷ text ∷ octets)
        → run.status ≡ 1
        → HoldsByList (λ verdict. IsRightNoRta verdict now anchors object octets) text }
{}

/// The files of a chain of certificates make one issuer, or none: any two that they make by a
/// verdict are the same certificate with the same numbers, whose blocks may be written in other
/// ways; and where they make one, they are refused for nothing but want of memory.
pub fn issuers_are_unique()
    ensures same { (verdict : Verdict) (now : Moment) (anchor : List ℕ) (chain : List (List ℕ))
        (v w : Validated) → MakesIssuer verdict now anchor chain (Ok v)
        → MakesIssuer verdict now anchor chain (Ok w) → IsSameIssuer v w }
    ensures refused { (verdict : Verdict) (now : Moment) (anchor : List ℕ) (chain : List (List ℕ))
        (v : Validated) (fault : IssuerError) → MakesIssuer verdict now anchor chain (Ok v)
        → MakesIssuer verdict now anchor chain (Err fault)
        → issuer_refusal fault ≡ out_of_memory }
{}

/// A yes and a no exclude each other, by each verdict: where the one is right, the other is not. Of
/// an attestation this holds if no two carried CAs have one key identifier, and end entities that
/// share one have one key.
pub fn yes_and_no_exclude_each_other()
    ensures checks { (options : Options) (kind : Kind) (verdict : Verdict) (now : Moment)
        (files : FilesOfCheck) (run : Run) → IsRightYes options kind verdict now files run
        → ¬ IsRightNo options kind verdict now files }
    ensures attestations { (verdict : Verdict) (now : Moment) (anchors : List (List ℕ))
        (object : List ℕ) (octets : List (List ℕ)) (run : Run)
        (yes : IsRightRta verdict now anchors object octets run)
        → IsDistinct sha256 verdict yes.rta → ¬ IsRightNoRta verdict now anchors object octets }
{}

/// The list of good signatures that `rpki_verify verdicts` prints of the files of a check suffices
/// for a yes by `rpki_objects check` with the same options, of each kind and at each moment: where
/// the object is good by the signatures, it is good by the list, and no run with it ends with
/// status 1.
pub fn lists_suffice()
    ensures yes { (options : Options) (kind : Kind) (now : Moment) (files : FilesOfCheck)
        (text : List ℕ) → IsGoodList options files text
        → IsGoodBy is_rsa_signature options kind now files
        → HoldsByList (λ verdict. IsGoodBy verdict options kind now files) text }
    ensures never_no { (options : Options) (kind : Kind) (now : Moment) (files : FilesOfCheck)
        (text : List ℕ) → IsGoodList options files text
        → IsGoodBy is_rsa_signature options kind now files
        → NeverSaysNo options kind now files text }
{}
