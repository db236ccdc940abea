//! The moment of a check, as a word.

ghost use Rattle.std.specs.Prelude.{◌≡◌, ◌↔◌, IfSome, MatchOption};
ghost use Rattle.rpki_basics.specs.Moment.{Moment, IsMoment};
ghost use Rattle.rpki_basics.specs.Time.Form.{generalized_text, iso_text};
ghost use Rattle.rpki_program.specs.Verify.Time.{IsTime, moment_at};

use crate::verify::request::When;
use rpki_basics::Time;

/// What a word says of the moment, if it is one of `now`, `YYYYMMDDHHMMSSZ` and
/// `YYYY-MM-DDTHH:MM:SSZ`.
#[tactic(auto, unfolding(crate::specs::Verify::Time::IsWordOfMoment))]
pub fn time_of(word: &str) -> Option<When>
    ensures { IfSome result (λ t. IsTime word.now t) }
{
    if word == "now" {
        return Some(When::Now);
    }
    match Time::from_generalized(word.as_bytes()) {
        Some(moment) => Some(When::At(moment)),
        None => Some(When::At(time_of_iso(word.as_bytes())?)),
    }
}

/// The moment that a text `YYYY-MM-DDTHH:MM:SSZ` names, if it names one (RFC 3339, section 5.6).
fn time_of_iso(text: &[u8]) -> Option<Time>
    ensures { IfSome result (λ m. (text.now ≡ iso_text m) × IsMoment m) }
{
    let compact = without_marks(text)?;
    Time::from_generalized(&compact)
}

/// The text YYYYMMDDHHMMSSZ of the moment of a text YYYY-MM-DDTHH:MM:SSZ: without the marks between
/// the digits, if they stand there.
fn without_marks(text: &[u8]) -> Option<[u8; 15]>
    ensures { MatchOption result ((m : Moment) → text.now ≡ iso_text m → ⊥)
        (λ c. (m : Moment) → (text.now ≡ iso_text m) ↔ (c ≡ generalized_text m)) }
{
    match text {
        [
            a,
            b,
            c,
            d,
            b'-',
            e,
            f,
            b'-',
            g,
            h,
            b'T',
            i,
            j,
            b':',
            k,
            l,
            b':',
            m,
            n,
            b'Z',
        ] => Some([*a, *b, *c, *d, *e, *f, *g, *h, *i, *j, *k, *l, *m, *n, b'Z']),
        _ => None,
    }
}

impl When {
    /// The moment, where the clock tells this.
    pub fn moment(self, clock: Option<Time>) -> Option<Time>
        ensures { result ≡ moment_at clock self }
    {
        match self {
            When::Now => clock,
            When::At(moment) => Some(moment),
        }
    }
}
