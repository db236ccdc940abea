//! Texts that last for good.
//!
//! A value of this type is a `&'static str` whose type names no lifetime. A function that calls a
//! closure is proved only where no lifetime but its own stands in what the closure takes and
//! answers, and errors stand in both. This is the one place of the project with `unsafe` code.

ghost use Rattle.std.specs.Prelude.{◌≡◌, ◌^◌, ◌<◌, ℕ, List, length};
ghost use denote.RawPtr.{Ptr};
ghost use Rattle.rpki_der.specs.StaticText.Owned.{IsPlaced, shown_at};

use std::marker::Model;
use std::{fmt, slice, str};

// The right to read `items` at `ptr`.
#[derive(Drop)]
pub(crate) struct Seen {
    ghost ptr: { Ptr },
    ghost items: { List ℕ },
    ghost placed: { IsPlaced ptr × (length items < 2 ^ 63) },
}

impl Model for Seen {
    ghost also_owns = { λ s. shown_at s.ptr s.items };

    ghost also_shares = { λ s _ _. shown_at s.ptr s.items };
}

impl Seen {
    // Where these octets lie, and the right to read them there.
    pub(crate) fn forever(bytes: &'static [u8]) -> (*const u8, Seen)
        ensures { (result.1.ptr ≡ result.0) × (result.1.items ≡ bytes.now) }
    {
        (bytes.as_ptr(), Seen {})
    }

    // The same right again.
    pub(crate) fn again(&self) -> Seen
        ensures { result ≡ self.now }
    {
        Seen {}
    }

    // The octets.
    #[inline(always)]
    pub(crate) fn read_static(&self, ptr: *const u8, len: usize) -> &[u8]
        requires { (self.now.ptr ≡ ptr) × (len ≡ length self.now.items) }
        ensures { result.now ≡ self.now.items }
    {
        // SAFETY: `Seen` is the right to read just these octets, and it lasts for good. The proof
        // has it as the condition of this call.
        unsafe { slice::from_raw_parts(ptr, len) }
    }
}

/// A text that lasts for good, with no lifetime in its type. A contract sees its octets.
#[derive(Drop)]
pub struct StaticText {
    base: *const u8,
    len: usize,
    seen: Seen,
}

impl Model for StaticText {
    ghost use Rattle.std.specs.Prelude.{ℕ, List};
    ghost use Rattle.rpki_der.specs.StaticText.{IsStaticText};

    ghost Value = { List ℕ };

    ghost view = { λ t. t.seen.items };

    ghost invariant = { IsStaticText };
}

impl StaticText {
    /// This text.
    pub fn of(text: &'static str) -> StaticText
        ensures { result ≡ text.now }
    {
        let octets = text.as_bytes();
        let (base, seen) = Seen::forever(octets);
        StaticText {
            base,
            len: octets.len(),
            seen,
        }
    }

    /// The text.
    pub fn as_str(&self) -> &str
        ensures { result.now ≡ self.now }
    {
        match str::from_utf8(self.seen.read_static(self.base, self.len)) {
            Ok(text) => text,
            Err(_) => unreachable!(),
        }
    }

    /// The same text again.
    pub fn again(&self) -> StaticText
        ensures { result ≡ self.now }
    {
        StaticText {
            base: self.base,
            len: self.len,
            seen: self.seen.again(),
        }
    }
}

impl fmt::Debug for StaticText {
    fn fmt<W: fmt::Write>(&self, f: &mut fmt::Formatter<W>) -> fmt::Result {
        fmt::Debug::fmt(self.as_str(), f)
    }
}
