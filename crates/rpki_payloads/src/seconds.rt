//! Moments as counts of seconds.

ghost use Rattle.std.specs.Prelude.{◌≡◌};
ghost use Rattle.rpki_payloads.specs.Seconds.{seconds_since};

use jiff_core::civil::Date;
use rpki_basics::Time;

const SECONDS_A_DAY: u64 = 86_400;

/// How many seconds after 1970 began a moment begins, in UTC; 0 for a moment before.
pub(crate) fn seconds_of(time: Time) -> u64
    ensures { result ≡ seconds_since time }
{
    let stamp = time.stamp();
    let days = stamp / SECONDS_A_DAY;
    let (year, month, day) = (days / 32 / 13, days / 32 % 13, days % 32);
    let date = Date::constrain(year as i16, month as u8, day as u8);
    match u64::try_from(date.to_unix_epoch_day()) {
        Ok(day) => day * SECONDS_A_DAY + stamp % SECONDS_A_DAY,
        Err(_) => 0,
    }
}
