//! What is asked, as C lays it out.

ghost use Rattle.std.specs.Prelude.{◌≡◌, MatchOption};
ghost use Rattle.rpki_basics.specs.Moment.{IsMoment};
ghost use Rattle.rpki_check.specs.Grounds.{manner_in, moment_in};

use rpki_basics::{ManifestRule, ProviderLimit, Time};
use rpki_validation::question::Manner;

/// Octets that a caller lends.
#[repr(C)]
#[derive(Drop)]
pub struct Octets<'a> {
    pub octets: &'a [u8],
}

/// A moment in UTC.
#[repr(C)]
#[derive(Clone, Copy, Drop)]
pub struct Date {
    pub year: u16,
    pub month: u8,
    pub day: u8,
    pub hour: u8,
    pub minute: u8,
    pub second: u8,
}

/// Under which certificates and lists, when and how is checked.
#[repr(C)]
#[derive(Drop)]
pub struct Question<'a> {
    /// The certificate of a trust anchor.
    pub anchor: &'a [u8],
    /// The certificates of CAs, each under the one before.
    pub chain: &'a [Octets<'a>],
    /// Revocation lists.
    pub lists: &'a [Octets<'a>],
    /// At which moment.
    pub moment: Date,
    /// Whether objects may be in BER, if not 0.
    pub relaxed: u8,
    /// Whether the names of a manifest have registered types, and none comes twice, if not 0.
    pub registered: u8,
    /// Whether a customer may have 16,380 providers, and not 10,000 at most, if not 0.
    pub wide: u8,
}

/// The moment of this date, if there is one.
pub fn moment_of(date: Date) -> Option<Time>
    ensures { MatchOption result (IsMoment (moment_in date) → ⊥)
        (λ t. (t ≡ moment_in date) × IsMoment t) }
{
    Time::utc(
        date.year,
        date.month,
        date.day,
        date.hour,
        date.minute,
        date.second,
    )
}

/// The manner that is asked for.
pub fn manner_of(question: &Question<'_>) -> Manner
    ensures { result ≡ manner_in question.now }
{
    Manner {
        strict: question.relaxed == 0,
        names: if question.registered == 0 {
            ManifestRule::Any
        } else {
            ManifestRule::Registered
        },
        limit: if question.wide == 0 {
            ProviderLimit::Narrow
        } else {
            ProviderLimit::Wide
        },
    }
}
