//! Writing times in DER (RFC 5280, section 4.1.2.5).

ghost use Rattle.std.specs.Prelude.{◌≡◌, ◌<◌, true, false};
ghost use Rattle.rpki_der.specs.Write.Written.{value_octets};
ghost use Rattle.rpki_der.specs.declared.mode.Mode.TheVariants.{Der};
ghost use Rattle.rpki_der.specs.Tags.{UTC_TIME};
ghost use Rattle.rpki_basics.specs.Time.Form.{TimeForm, two_digits, utc_text, is_utc_year};
ghost use Rattle.rpki_basics.specs.Time.Form.{time_octets, generalized_octets, encoded_time};

use crate::time::Time;
use rpki_der::{Encode, EncodeError, Sink, SinkFailed};
use std::marker::Model;

/// What writes a time: as UTCTime in the years 1950 to 2049 and else as GeneralizedTime, or always
/// as GeneralizedTime.
#[derive(Drop)]
pub struct TimeEncoder {
    time: Time,
    generalized: bool,
}

impl Model for TimeEncoder {
    ghost use Rattle.std.specs.Prelude.{ℕ, List};
    ghost use Rattle.rpki_basics.specs.Time.Form.{encoded_time};

    ghost Value = { List ℕ };

    ghost view = { λ e. encoded_time e.generalized e.time };
}

impl Encode for TimeEncoder {
    ghost octets = { λ e. e };

    ghost is_short = { λ _. Unit {0} };

    ghost small = { λ _ _. tt };

    #[tactic(auto, unfolding(rpki_der::specs::Write::Written::length_octets))]
    fn encoded_len(&self) -> Result<u64, EncodeError> {
        if self.generalized || !self.time.is_utc() {
            Ok(17)
        } else {
            Ok(15)
        }
    }

    #[tactic(auto, unfolding(rpki_der::specs::Write::Written::length_octets))]
    fn put<W: Sink>(&self, _len: u64, out: &mut W) -> Result<(), SinkFailed> {
        if self.generalized || !self.time.is_utc() {
            out.take_all(&self.time.generalized())
        } else {
            out.take_all(&self.time.utc_time())
        }
    }
}

// The two decimal digits of a number below 100.
fn digits(n: u8) -> [u8; 2]
    requires { n < 100 }
    ensures { result ≡ two_digits n }
{
    [b'0' + n / 10, b'0' + n % 10]
}

impl Time {
    // Whether the year is one of UTCTime.
    fn is_utc(self) -> bool
        ensures { result ≡ is_utc_year self.year }
    {
        self.year >= 1950 && self.year < 2050
    }

    // The GeneralizedTime, with its header.
    #[tactic(auto, unfolding(rpki_der::specs::Write::Written::length_octets))]
    fn generalized(self) -> [u8; 17]
        ensures { result ≡ generalized_octets self }
    {
        let [a, b] = digits((self.year / 100) as u8);
        let [c, d] = digits((self.year % 100) as u8);
        let [e, f] = digits(self.month);
        let [g, h] = digits(self.day);
        let [i, j] = digits(self.hour);
        let [k, l] = digits(self.minute);
        let [m, n] = digits(self.second);
        [0x18, 15, a, b, c, d, e, f, g, h, i, j, k, l, m, n, b'Z']
    }

    // The UTCTime, with its header.
    #[tactic(auto, unfolding(rpki_der::specs::Write::Written::length_octets))]
    fn utc_time(self) -> [u8; 15]
        ensures { result ≡ value_octets UTC_TIME (utc_text self) }
    {
        let [c, d] = digits((self.year % 100) as u8);
        let [e, f] = digits(self.month);
        let [g, h] = digits(self.day);
        let [i, j] = digits(self.hour);
        let [k, l] = digits(self.minute);
        let [m, n] = digits(self.second);
        [0x17, 13, c, d, e, f, g, h, i, j, k, l, m, n, b'Z']
    }

    /// The time as UTCTime in the years 1950 to 2049, and else as GeneralizedTime (RFC 5280,
    /// section 4.1.2.5; before 1950 RFC 5652, section 11.3).
    pub fn encode_ref(&self) -> TimeEncoder
        ensures octets { result ≡ time_octets self.now }
        ensures written { TimeForm Der (time_octets self.now) self.now }
    {
        // What a value's type promises is known to the proof only where one of its fields is read.
        let _ = &self.year;
        TimeEncoder {
            time: *self,
            generalized: false,
        }
    }

    /// The time as GeneralizedTime (RFC 5280, section 4.1.2.5.2).
    pub fn encode_generalized(&self) -> TimeEncoder
        ensures octets { result ≡ generalized_octets self.now }
        ensures written { TimeForm Der (generalized_octets self.now) self.now }
    {
        let _ = &self.year;
        TimeEncoder {
            time: *self,
            generalized: true,
        }
    }
}
