//! What the definitions of verdicts say: laws, as functions that do nothing.

ghost use Rattle.std.specs.Prelude.{◌↔◌, ◌≡◌, ℕ, List, IsTrue, true, Contains};
ghost use Rattle.rpki_certs.specs.Verify.{Verdict};
ghost use Rattle.rpki_verdicts.specs.Listed.{IsListed, is_listed};
ghost use Rattle.rpki_verdicts.specs.Listing.{is_listable, good_lines, listing, IsAmongGood};
ghost use Rattle.rpki_verdicts.specs.Questions.{Question};
ghost use Rattle.rpki_verdicts.specs.Verdicts.{AreVerdicts};

/// What a yes of a list means.
pub fn a_yes_is_listed()
    ensures { (lines : List (List ℕ)) (key message signature : List ℕ) →
        IsTrue (is_listed lines key message signature)
        ↔ IsListed lines key message signature }
{}

/// A list of good signatures is a list of verdicts. It says yes to each question whose answer is
/// yes and whose key can be written, and where it says yes to a signature, its digests are those of
/// such a question.
pub fn lists_are_verdicts()
    ensures lines { (verdict : Verdict) (questions : List Question)
        → AreVerdicts (listing verdict questions) (good_lines verdict questions) }
    ensures all { (verdict : Verdict) (questions : List Question) (q : Question)
        → Contains questions q → is_listable verdict q ≡ true
        → is_listed (good_lines verdict questions) q.key q.message q.signature ≡ true }
    ensures only { (verdict : Verdict) (questions : List Question)
        (key message signature : List ℕ)
        → is_listed (good_lines verdict questions) key message signature ≡ true
        → IsAmongGood verdict questions key message signature }
{}
