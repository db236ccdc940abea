//! The moment that a clock of the system tells.

ghost use Rattle.std.specs.Prelude.{◌≡◌, ℤ, pos, ◌≤ℤ◌, IfSome, MatchOption};
ghost use Rattle.rpki_basics.specs.Moment.{Moment, IsMoment};
ghost use Rattle.rpki_cli.specs.Clock.{IsSecondOf, seconds_to};

use jiff_core::civil::Date;
use rpki_basics::Time;
use std::time::{Clock, SystemTime};

const SECONDS_A_DAY: i64 = 86_400;

/// The moment that the clock tells, to the second, if it is one of the years 1970 to 9999. The
/// contract says only that it is a second of the calendar from 1970 on: what a clock tells can't be
/// seen by a contract.
pub fn now(clock: &impl Clock) -> Option<Time>
    ensures { IfSome result (λ m. IsMoment m × (n : ℤ) × (pos 0 ≤ℤ n) × IsSecondOf n m) }
{
    let time = SystemTime::now(clock).ok()?;
    let since_1970 = time.duration_since(SystemTime::UNIX_EPOCH).ok()?;
    match i64::try_from(since_1970.as_secs()) {
        Ok(second) => moment_of(second),
        Err(_) => None,
    }
}

/// The moment that begins this many seconds after 1970 began, in UTC, if it is one of the years 0
/// to 9999.
pub fn moment_of(second: i64) -> Option<Time>
    ensures { MatchOption result ((m : Moment) → IsMoment m → seconds_to m ≡ second → ⊥)
        (λ m. IsMoment m × (seconds_to m ≡ second)) }
{
    let Ok(date) = Date::from_unix_epoch_day(second.div_euclid(SECONDS_A_DAY)) else {
        return None;
    };
    let Ok(year) = u16::try_from(date.year) else {
        return None;
    };
    let second = second.rem_euclid(SECONDS_A_DAY) as u32;
    let (hour, minute, second) = (second / 3600, second / 60 % 60, second % 60);
    Time::utc(
        year,
        date.month,
        date.day,
        hour as u8,
        minute as u8,
        second as u8,
    )
}
