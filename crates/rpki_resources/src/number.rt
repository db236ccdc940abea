//! Numbers that sets contain.

ghost use Rattle.std.specs.Prelude.{◌≡◌, ℕ, ◌+◌, ◌<◌, ◌≤◌, ◌↔◌, ◌⊎◌, IsTrue, ◌==◌};

/// A number of at most 128 bits.
pub trait Number: Copy + Eq {
    // The number.
    ghost number: { Self → ℕ };

    // Each number is below it.
    ghost limit: { ℕ };

    /// The number in 128 bits.
    fn value(self) -> u128
        ensures value { result ≡ number self }
        ensures below { number self < limit };

    // Equal numbers are one value.
    ghost exact: { (x y : Self) → number x ≡ number y → x ≡ y };

    // `==` compares the numbers.
    ghost alike: { (x y : Self) → Self.eq x y ≡ (number x == number y) };
}

/// Whether a block that begins at `min` overlaps one that ends at `max`, or follows it at once.
pub fn joins<T: Number>(max: T, min: T) -> bool
    ensures { IsTrue result ↔ (T.number min ≤ T.number max + 1) }
{
    let (max, min) = (max.value(), min.value());
    min <= max || min - 1 == max
}

/// The larger of two.
pub fn larger<T: Number>(a: T, b: T) -> T
    ensures first { T.number a ≤ T.number result }
    ensures second { T.number b ≤ T.number result }
    ensures one { (result ≡ a) ⊎ (result ≡ b) }
    ensures below { T.number result < T.limit }
{
    if a.value() <= b.value() { b } else { a }
}
