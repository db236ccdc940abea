//! Laws, each the contract of a function that does nothing.

ghost use Rattle.std.specs.Prelude.{◌≡◌, ℕ, List};
ghost use Rattle.rpki_tal.specs.declared.error.ReadError.{ReadError};
ghost use Rattle.rpki_tal.specs.declared.uri.TalUri.{TalUri};
ghost use Rattle.rpki_tal.specs.Uri.{IsTalUri, https_first};
ghost use Rattle.rpki_tal.specs.Form.{TalForm, IsNoTal};
ghost use Rattle.rpki_tal.specs.Faults.{IsFault, IsSameFault};

/// To put the https URIs first twice is to do it once.
pub fn https_first_again()
    ensures { (uris : List TalUri) → https_first (https_first uris) ≡ https_first uris }
{}

/// A text is one URI at most, so that URIs with one text are of one kind.
pub fn uris_are_unique()
    ensures { (text : List ℕ) (uri other : TalUri) → IsTalUri text uri → IsTalUri text other
        → uri ≡ other }
{}

/// A text is one locator at most.
pub fn texts_are_unique()
    ensures { (text : List ℕ) (uris others : List TalUri) (key other : List ℕ)
        → TalForm text uris key → TalForm text others other → (others ≡ uris) × (other ≡ key) }
{}

/// A text that has a fault is no locator.
pub fn faults_are_no_locators()
    ensures { (text : List ℕ) (e : ReadError) → IsFault text e → IsNoTal text }
{}

/// A text has one fault at most, where all faults of its key, `BadKeyInfo`, count as one. So, with
/// the two laws above, and unless `Io` or `Memory` comes, each refusal comes exactly where its
/// fault is.
pub fn faults_are_one()
    ensures { (text : List ℕ) (e other : ReadError) → IsFault text e → IsFault text other
        → IsSameFault e other }
{}
