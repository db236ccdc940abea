//! Reading times (RFC 5280, section 4.1.2.5).

ghost use Rattle.std.specs.Prelude.{◌≡◌, IfSome, ◌<◌};
ghost use Rattle.rpki_der.specs.Read.Parse.{Finds, primitive};
ghost use Rattle.rpki_der.specs.Read.Reads.{Reads, Stays};
ghost use Rattle.rpki_der.specs.Form.Decodes.{DecodesNext};
ghost use Rattle.rpki_der.specs.Tags.{GENERALIZED_TIME};
ghost use Rattle.rpki_basics.specs.Time.Form.{TimeForm};
ghost use Rattle.rpki_basics.specs.Time.Read.{pair_at, is_zulu, after_year_of, utc_of};
ghost use Rattle.rpki_basics.specs.Time.Read.{generalized_of, time_at, IsTimeOf};

use crate::faults;
use crate::time::Time;
use rpki_der::{Constructed, DecodeError, Tag};

// Two decimal digits at the front, and what follows them.
#[tactic(auto, unfolding(crate::specs::Time::Read::pair_at))]
fn take_pair(text: &[u8]) -> Option<(u8, &[u8])>
    ensures digits { Finds (λ p. (p.0, p.1.now)) result (pair_at text.now) }
    ensures small { IfSome result (λ p. p.0 < 100) }
{
    match text {
        [a, b, rest @ ..] if a.is_ascii_digit() && b.is_ascii_digit() => {
            Some(((*a - b'0') * 10 + (*b - b'0'), rest))
        }
        _ => None,
    }
}

// Whether a text is Z alone.
#[tactic(auto, unfolding(crate::specs::Time::Read::is_zulu))]
fn is_zulu(text: &[u8]) -> bool
    ensures { result ≡ is_zulu text.now }
{
    match text {
        [b'Z'] => true,
        _ => false,
    }
}

// The moment in that year that these digits name.
#[tactic(auto, unfolding(crate::specs::Time::Read::after_year_of))]
fn in_year(year: u16, text: &[u8]) -> Option<Time>
    ensures { Finds (λ t. t) result (after_year_of year text.now) }
{
    let (month, text) = take_pair(text)?;
    let (day, text) = take_pair(text)?;
    let (hour, text) = take_pair(text)?;
    let (minute, text) = take_pair(text)?;
    let (second, text) = take_pair(text)?;
    if is_zulu(text) {
        Time::utc(year, month, day, hour, minute, second)
    } else {
        None
    }
}

// The moment of a UTCTime.
#[tactic(auto, unfolding(crate::specs::Time::Read::utc_of))]
fn utc_time(text: &[u8]) -> Option<Time>
    ensures { Finds (λ t. t) result (utc_of text.now) }
{
    let (year, text) = take_pair(text)?;
    let year = u16::from(year);
    let year = if year < 50 { 2000 + year } else { 1900 + year };
    in_year(year, text)
}

// The moment of a GeneralizedTime.
#[tactic(auto, unfolding(crate::specs::Time::Read::generalized_of))]
fn generalized_time(text: &[u8]) -> Option<Time>
    ensures { Finds (λ t. t) result (generalized_of text.now) }
{
    let (century, text) = take_pair(text)?;
    let (year, text) = take_pair(text)?;
    in_year(u16::from(century) * 100 + u16::from(year), text)
}

// Why these contents, which name no moment, are refused: they are not this number of digits and Z,
// or they are, and there is no such date or time of day.
fn fault_of(text: &[u8], digits: usize) -> &'static str {
    let is_time = text.len() > digits
        && text[..digits].iter().all(|c| c.is_ascii_digit())
        && is_zulu(&text[digits..]);
    if is_time {
        faults::NO_SUCH_TIME
    } else {
        faults::BAD_TIME
    }
}

// Reads a GeneralizedTime.
fn take_generalized(cons: &mut Constructed<'_>) -> Result<Time, DecodeError>
    ensures reads { Reads (λ t. t) (primitive GENERALIZED_TIME generalized_of)
        cons.old result cons.new }
    ensures stays { Stays result cons.new }
{
    let text = cons.take_primitive_if(Tag::GENERALIZED_TIME)?;
    match generalized_time(text.as_slice()) {
        Some(time) => Ok(time),
        None => Err(cons.refuse_for(fault_of(text.as_slice(), 14))),
    }
}

// Reads a time.
#[tactic(auto, unfolding(crate::specs::Time::Read::time_at))]
fn take_time(cons: &mut Constructed<'_>) -> Result<Time, DecodeError>
    ensures reads { Reads (λ t. t) time_at cons.old result cons.new }
    ensures stays { Stays result cons.new }
{
    match cons.take_opt_primitive_if(Tag::UTC_TIME)? {
        None => take_generalized(cons),
        Some(text) => match utc_time(text.as_slice()) {
            Some(time) => Ok(time),
            None => Err(cons.refuse_for(fault_of(text.as_slice(), 12))),
        },
    }
}

impl Time {
    /// Reads a time: a UTCTime or a GeneralizedTime of a real moment (RFC 5280, section 4.1.2.5),
    /// in DER and in BER alike. A text of another form is refused by `BAD_TIME`, a date or a time
    /// of day that there is not by `NO_SUCH_TIME`, all else by `Malformed`; `Memory` may come too.
    pub fn take_from(cons: &mut Constructed<'_>) -> Result<Time, DecodeError>
        ensures reads { Reads (λ t. t) time_at cons.old result cons.new }
        ensures decodes { DecodesNext TimeForm (λ t. t) cons.old result cons.new }
        ensures stays { Stays result cons.new }
    {
        cons.holds_octets();
        take_time(cons)
    }

    /// The moment that a text `YYYYMMDDHHMMSSZ` names, if it names one (RFC 5280, section
    /// 4.1.2.5.2).
    pub fn from_generalized(text: &[u8]) -> Option<Time>
        ensures { IsTimeOf text.now result }
    {
        generalized_time(text)
    }
}
