//! What tells the time.

ghost use Rattle.std.specs.Prelude.{◌≡◌};
ghost use Rattle.rpki_basics.specs.Moment.{Moment};

use crate::time::Time;

/// What tells the time. What it tells is a function of the clock's value.
pub trait Clock {
    // The moment that it tells.
    ghost moment: { Self → Moment };

    /// The moment that it tells.
    fn now(&self) -> Time
        ensures { result ≡ moment self.now };
}

/// A clock that stands still.
#[derive(Clone, Copy, Debug)]
pub struct FixedClock(pub Time);

impl Clock for FixedClock {
    ghost moment = { λ c. c.0 };

    fn now(&self) -> Time {
        self.0
    }
}
