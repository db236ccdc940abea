//! The text of a time.

ghost use Rattle.std.specs.Prelude.{◌<◌, Some};
ghost use Rattle.rpki_basics.specs.Time.Form.{two_digits, iso_text};

use crate::time::Time;
use std::fmt;
use std::fmt::Write;

/// Two decimal digits of a number below 100.
#[derive(Clone, Copy)]
struct Two {
    n: u8,
    ghost small: { n < 100 },
}

impl fmt::Display for Two {
    ghost use Rattle.rpki_basics.specs.Time.Form.{two_digits};

    ghost output = { λ two. Some (two_digits two.n) };

    fn fmt<W: fmt::Write>(&self, f: &mut fmt::Formatter<W>) -> fmt::Result {
        let tens = (b'0' + self.n / 10) as char;
        let ones = (b'0' + self.n % 10) as char;
        write!(f, "{tens}{ones}")
    }
}

/// As `2024-01-01T00:00:00Z` (RFC 3339, section 5.6).
impl fmt::Display for Time {
    ghost use Rattle.rpki_basics.specs.Time.Form.{iso_text};

    ghost output = { λ t. Some (iso_text t) };

    fn fmt<W: fmt::Write>(&self, f: &mut fmt::Formatter<W>) -> fmt::Result {
        let century = Two {
            n: (self.year / 100) as u8,
        };
        let year = Two {
            n: (self.year % 100) as u8,
        };
        let month = Two { n: self.month };
        let day = Two { n: self.day };
        let hour = Two { n: self.hour };
        let minute = Two { n: self.minute };
        let second = Two { n: self.second };
        write!(f, "{century}{year}-{month}-{day}T{hour}:{minute}:{second}Z")
    }
}
