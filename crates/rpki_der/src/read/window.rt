//! A part of the source.

ghost use Rattle.std.specs.Prelude.{◌≡◌, ◌≤◌, ◌-◌, length, take, slice_range, IfOk};

use bytes::Bytes;
use std::alloc::AllocError;
use std::marker::Model;

/// The octets of the source from start to end.
#[derive(Drop)]
pub struct Window<'a> {
    source: &'a Bytes,
    start: usize,
    end: usize,
}

impl<'a> Model for Window<'a> {
    ghost use Rattle.std.specs.Prelude.{ℕ, List, slice_range, ◌≤◌, length};

    ghost Value = { List ℕ };

    ghost view = { λ w. slice_range w.source.now w.start w.end };

    ghost invariant = { λ w. (w.start ≤ w.end) × (w.end ≤ length w.source.now) };
}

impl<'a> Window<'a> {
    #[inline(always)]
    pub fn of(source: &'a Bytes) -> Window<'a>
        ensures { result ≡ source.now }
    {
        Window {
            source,
            start: 0,
            end: source.len(),
        }
    }

    #[inline(always)]
    pub fn as_slice(&self) -> &'a [u8]
        ensures { result.now ≡ self.now }
    {
        &self.source.as_slice()[self.start..self.end]
    }

    #[inline(always)]
    pub fn len(&self) -> usize
        ensures { result ≡ length self.now }
    {
        self.as_slice().len()
    }

    /// A part of it.
    #[inline(always)]
    pub fn part(&self, from: usize, to: usize) -> Window<'a>
        requires order { from ≤ to }
        requires within { to ≤ length self.now }
        ensures { result ≡ slice_range self.now from to }
    {
        Window {
            source: self.source,
            start: self.start + from,
            end: self.start + to,
        }
    }

    /// The octets before the last `left`.
    pub fn before(&self, left: usize) -> Window<'a>
        ensures { result ≡ take (length self.now - left) self.now }
    {
        self.part(0, self.len().saturating_sub(left))
    }

    /// The octets, which share the source's memory. Refuses where memory runs out.
    pub fn to_bytes(&self) -> Result<Bytes, AllocError>
        ensures { IfOk result (λ b. b ≡ self.now) }
    {
        self.source.slice(self.start..self.end)
    }
}
