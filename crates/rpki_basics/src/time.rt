//! Moments in time.

ghost use Rattle.std.specs.Prelude.{◌≡◌, MatchOption, ◌&&◌, nat_le, pos};
ghost use Rattle.std.proofs.Common.{rules};
ghost use Rattle.std.specs.Cmp.Rules.{comparing};
ghost use Rattle.std.specs.Prelude.{◌==◌};
ghost use Rattle.std.specs.Ordering.{on, nat_cmp, as_partial_cmp};
ghost use Rattle.jiff.specs.Words.{days_in_month};
ghost use Rattle.rpki_der.specs.Read.Parse.{Finds};
ghost use Rattle.rpki_basics.specs.Moment.{Moment, IsMoment, stamp};
ghost use Rattle.rpki_basics.specs.Time.Read.{checked};

mod read;
mod text;
mod write;

use jiff::civil::Date;
use std::cmp::Ordering;
use std::marker::Model;
pub use write::TimeEncoder;

/// A moment in UTC, to the second, of the years 0 to 9999. The order is that of time.
#[derive(Clone, Copy, Debug)]
pub struct Time {
    year: u16,
    month: u8,
    day: u8,
    hour: u8,
    minute: u8,
    second: u8,
}

impl Model for Time {
    ghost use Rattle.rpki_basics.specs.Moment.{Moment, IsMoment};

    ghost Value = { Moment };

    ghost view = { λ t. record {
      year = t.year;
      month = t.month;
      day = t.day;
      hour = t.hour;
      minute = t.minute;
      second = t.second;
    } };

    ghost invariant = { λ t. IsMoment (record {
      year = t.year;
      month = t.month;
      day = t.day;
      hour = t.hour;
      minute = t.minute;
      second = t.second;
    }) };

    ghost inverse = { λ m. record {
      year = m.year;
      month = m.month;
      day = m.day;
      hour = m.hour;
      minute = m.minute;
      second = m.second;
    } };
}

// Whether the calendar has a day.
fn is_date(year: u16, month: u8, day: u8) -> bool
    ensures { result ≡ (nat_le year 9999 && nat_le 1 month && nat_le month 12 && nat_le 1 day
        && nat_le day (days_in_month (pos year) month)) }
{
    if year > 9999 || month > 12 || day > 31 {
        return false;
    }
    Date::new(year as i16, month as i8, day as i8).is_ok()
}

impl Time {
    /// The moment of this day and this second of it, unless there is none: years are 0 to 9999,
    /// days those of the Gregorian calendar, hours 0 to 23, minutes and seconds 0 to 59.
    pub fn utc(year: u16, month: u8, day: u8, hour: u8, minute: u8, second: u8) -> Option<Time>
        ensures real { let m : Moment = record {
          year = year;
          month = month;
          day = day;
          hour = hour;
          minute = minute;
          second = second;
        } in
            MatchOption result (IsMoment m → ⊥) (λ t. (t ≡ m) × IsMoment m) }
        ensures found { Finds (λ t. t) result (checked (record {
          year = year;
          month = month;
          day = day;
          hour = hour;
          minute = minute;
          second = second;
        })) }
    {
        if is_date(year, month, day) && hour < 24 && minute < 60 && second < 60 {
            Some(Time {
                year,
                month,
                day,
                hour,
                minute,
                second,
            })
        } else {
            None
        }
    }

    /// A number that grows with time, and is another one for each moment. It is no count of
    /// seconds: it is what the six parts are the digits of, where a year has room for 13 months and
    /// a month for 32 days, so it may grow by more than the seconds that pass.
    pub fn stamp(self) -> u64
        ensures stamp { result ≡ stamp self }
        ensures real { IsMoment self }
    {
        let days = (u64::from(self.year) * 13 + u64::from(self.month)) * 32 + u64::from(self.day);
        let minutes = (days * 24 + u64::from(self.hour)) * 60 + u64::from(self.minute);
        minutes * 60 + u64::from(self.second)
    }
}

impl PartialEq for Time {
    ghost eq = { on stamp ◌==◌ };

    ghost laws = { Prim.search (comparing, rules) };

    fn eq(&self, other: &Time) -> bool {
        self.stamp() == other.stamp()
    }
}

impl Eq for Time {
    ghost laws = { Prim.search (comparing, rules) };
}

impl PartialOrd for Time {
    ghost partial_cmp = { as_partial_cmp (on stamp nat_cmp) };

    ghost laws = { Prim.search (comparing, rules) };

    fn partial_cmp(&self, other: &Time) -> Option<Ordering> {
        Some(self.cmp(other))
    }
}

impl Ord for Time {
    ghost cmp = { on stamp nat_cmp };

    ghost total = { Prim.search (comparing, rules) };

    ghost matches_partial_cmp = { Prim.search (comparing, rules) };

    ghost matches_eq = { Prim.search (comparing, rules) };

    fn cmp(&self, other: &Time) -> Ordering {
        self.stamp().cmp(&other.stamp())
    }
}
