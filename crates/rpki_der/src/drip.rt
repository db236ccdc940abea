//! Streams for tests, over octets in memory: they move one octet a call, and fail at one call.

ghost use Rattle.std.specs.Prelude.{◌≡◌, ◌-◌, length, ◌||◌, is_err, IfOk};
ghost use Rattle.std.specs.Prelude.{Some, [], OnOk, OnErr, ◌+◌, ◌≤◌};
ghost use Rattle.std.specs.Io.KnownBytes.{ReadConsumes, WriteAppends};
ghost use Rattle.rpki_der.specs.Write.Sink.{IsTakenCount};
ghost use Rattle.std.specs.Vec.{vec_capacity, vec_len};
ghost use Rattle.rpki_der.specs.Drip.{Calls, Gives, GivesOne, Takes, TakesOne, UsesRoom};
ghost use Rattle.rpki_der.specs.Drip.{is_told, with_call};

use crate::count::Count;
use crate::stream::{Sink, SinkFailed, Source, SourceFailed};
use std::alloc::{AllocError, Global};
use std::marker::Model;

// How often a stream was called, and which of the calls fails.
#[derive(Drop)]
struct Turns {
    made: u64,
    fails_at: u64,
    failures: Count,
}

impl Model for Turns {
    ghost Value = { Calls };

    ghost view = { λ t. record {
      made = t.made;
      fails_at = t.fails_at;
      failures = t.failures.number;
    } };
}

impl Turns {
    // No call yet, of which the one with this number fails, or none for 0.
    fn new(fails_at: u64) -> Turns
        ensures { result ≡ record { made = 0; fails_at = fails_at; failures = 0 } }
    {
        Turns {
            made: 0,
            fails_at,
            failures: Count::zero(),
        }
    }

    // One more call, and whether it fails: as it was told, or since it has to.
    fn fails(&mut self, has_to: bool) -> bool
        ensures told { result ≡ (is_told self.old || has_to) }
        ensures after { self.new ≡ with_call self.old result }
    {
        self.made = self.made.saturating_add(1);
        let fails = self.made == self.fails_at || has_to;
        if fails {
            let failures = self.failures.next();
            self.failures = failures;
        }
        fails
    }
}

/// A source that gives one octet a call.
#[derive(Drop)]
pub struct DripSource<'a> {
    left: &'a [u8],
    turns: Turns,
}

impl<'a> Model for DripSource<'a> {
    ghost Value = { Gives };

    ghost view = { λ s. record { left = s.left.now; calls = s.turns } };
}

impl<'a> DripSource<'a> {
    /// A source of these octets, of which no call fails.
    pub fn new(octets: &'a [u8]) -> DripSource<'a>
        ensures left { result.left ≡ octets.now }
        ensures calls { result.calls ≡ record { made = 0; fails_at = 0; failures = 0 } }
    {
        DripSource::failing_at(octets, 0)
    }

    /// A source of these octets, whose call with this number fails, counted from 1, and no other;
    /// of which none fails for 0.
    pub fn failing_at(octets: &'a [u8], call: u64) -> DripSource<'a>
        ensures left { result.left ≡ octets.now }
        ensures calls { result.calls ≡ record { made = 0; fails_at = call; failures = 0 } }
    {
        DripSource {
            left: octets,
            turns: Turns::new(call),
        }
    }

    /// How often the source was called, up to 2^64 - 1.
    pub fn calls(&self) -> u64
        ensures { result ≡ self.now.calls.made }
    {
        self.turns.made
    }
}

impl Source for DripSource<'_> {
    ghost left = { λ s. Some s.left };

    ghost failures = { λ s. s.calls.failures };

    fn read(&mut self, buf: &mut [u8]) -> Result<usize, SourceFailed>
        ensures count { IfOk result (λ n. n ≤ length buf.new) }
        ensures given { ReadConsumes (Some self.old.left) (Some self.new.left) result buf.new }
        ensures ok { OnOk result (self.new.calls.failures ≡ self.old.calls.failures) }
        ensures err { OnErr result (self.new.calls.failures ≡ self.old.calls.failures + 1) }
        ensures one { GivesOne self.old (length buf.old) result }
        ensures calls { self.new.calls ≡ with_call self.old.calls (is_err result) }
    {
        if self.turns.fails(false) {
            return Err(SourceFailed);
        }
        let n = self.left.len().min(buf.len()).min(1);
        let (given, others) = self.left.split_at(n);
        buf[..n].copy_from_slice(given);
        self.left = others;
        Ok(n)
    }
}

/// A sink that takes one octet a call.
#[derive(Drop)]
pub struct DripSink {
    taken: Vec<u8>,
    turns: Turns,
}

impl Model for DripSink {
    ghost Value = { Takes };

    ghost view = { λ s. record {
      taken = s.taken.items;
      room = vec_capacity s.taken - vec_len s.taken;
      calls = s.turns;
    } };
}

impl DripSink {
    /// A sink with room for this many octets, of which no call fails while there is room.
    pub fn new(alloc: Global, room: usize) -> Result<DripSink, AllocError>
        ensures taken { IfOk result (λ s. s.taken ≡ []) }
        ensures room { IfOk result (λ s. s.room ≡ room) }
        ensures calls { IfOk result (λ s.
            s.calls ≡ record { made = 0; fails_at = 0; failures = 0 }) }
    {
        DripSink::failing_at(alloc, room, 0)
    }

    /// A sink with room for this many octets, whose call with this number fails, counted from 1,
    /// and no other while there is room; of which none fails for 0.
    pub fn failing_at(alloc: Global, room: usize, call: u64) -> Result<DripSink, AllocError>
        ensures taken { IfOk result (λ s. s.taken ≡ []) }
        ensures room { IfOk result (λ s. s.room ≡ room) }
        ensures calls { IfOk result (λ s.
            s.calls ≡ record { made = 0; fails_at = call; failures = 0 }) }
    {
        Ok(DripSink {
            taken: Vec::with_capacity(alloc, room)?,
            turns: Turns::new(call),
        })
    }

    /// The octets that it has taken.
    pub fn taken(&self) -> &[u8]
        ensures { result.now ≡ self.now.taken }
    {
        self.taken.as_slice()
    }

    /// How often the sink was called, up to 2^64 - 1.
    pub fn calls(&self) -> u64
        ensures { result ≡ self.now.calls.made }
    {
        self.turns.made
    }
}

impl Sink for DripSink {
    ghost taken = { λ s. Some s.taken };

    ghost failures = { λ s. s.calls.failures };

    fn take(&mut self, octets: &[u8]) -> Result<usize, SinkFailed>
        ensures count { IfOk result (IsTakenCount octets.now) }
        ensures taken { WriteAppends (Some self.old.taken) (Some self.new.taken) result octets.now }
        ensures ok { OnOk result (self.new.calls.failures ≡ self.old.calls.failures) }
        ensures err { OnErr result (self.new.calls.failures ≡ self.old.calls.failures + 1) }
        ensures one { TakesOne self.old octets.now result }
        ensures room { UsesRoom self.old self.new result }
        ensures calls { self.new.calls ≡ with_call self.old.calls (is_err result) }
    {
        let is_full = self.taken.len() == self.taken.capacity();
        if self.turns.fails(is_full && !octets.is_empty()) {
            return Err(SinkFailed);
        }
        let [first, ..] = octets else {
            return Ok(0);
        };
        self.taken.push_reserved(*first);
        Ok(1)
    }
}
