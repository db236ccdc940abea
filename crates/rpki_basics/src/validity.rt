//! The time in which a certificate is valid.

ghost use Rattle.std.specs.Prelude.{◌≡◌};
ghost use Rattle.rpki_basics.specs.Moment.{Period};

use crate::time::Time;
use std::marker::Model;

/// The time in which a certificate is valid; both of its ends belong to it (RFC 5280, section
/// 4.1.2.5). The first end may come after the last one; then no moment is in it.
#[derive(Clone, Copy, Debug, PartialEq, Eq)]
pub struct Validity {
    not_before: Time,
    not_after: Time,
}

impl Model for Validity {
    ghost use Rattle.rpki_basics.specs.Moment.{Period};

    ghost Value = { Period };

    ghost view = { λ v. record { not_before = v.not_before; not_after = v.not_after } };

    ghost inverse = { λ p. record { not_before = p.not_before; not_after = p.not_after } };
}

impl Validity {
    /// The time between these moments.
    pub fn new(not_before: Time, not_after: Time) -> Validity
        ensures { result ≡ record { not_before = not_before; not_after = not_after } }
    {
        Validity {
            not_before,
            not_after,
        }
    }

    /// Its first moment.
    pub fn not_before(self) -> Time
        ensures { result ≡ self.not_before }
    {
        self.not_before
    }

    /// Its last moment.
    pub fn not_after(self) -> Time
        ensures { result ≡ self.not_after }
    {
        self.not_after
    }
}
