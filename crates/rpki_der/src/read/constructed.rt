//! The reader of the values of a constructed value.

ghost use Rattle.std.specs.Prelude.{Result, IfOk, IfSome, ◌≡◌, ◌<◌, ◌≤◌, length, drop, take, None};
ghost use Rattle.std.specs.Prelude.{Some, Ok, Err, OnOk, OnErr, IsSomeAnd, unwrap_or};
ghost use Rattle.std.specs.Fn.{FnOnceReturnsAtMut};
ghost use Rattle.rpki_der.specs.Tags.{SEQUENCE, SET};
ghost use Rattle.rpki_der.specs.Grammar.{IsBytes};
ghost use Rattle.rpki_der.specs.declared.error.DecodeError.TheVariants.{Content};
ghost use Rattle.rpki_der.specs.declared.error.ContentFault.TheVariants.{Text};
ghost use Rattle.rpki_der.specs.Read.State.{State, fresh, failing};
ghost use Rattle.rpki_der.specs.Read.Parse.{at_end, is_next};
ghost use Rattle.rpki_der.specs.Read.Reads.{Captures, CapturesWith, Reads, Stays, OnlyMalformed};
ghost use Rattle.rpki_der.specs.Read.Reads.{Opens, OpensIfNext, Opened, FailsAgain, IsAgain};
ghost use Rattle.rpki_der.specs.Read.Reads.{unfinished, closed, not_failed};

use crate::captured::Captured;
use crate::error::DecodeError;
use crate::laws::slices_hold_octets;
use crate::mode::Mode;
use crate::read::header::place_of;
use crate::read::window::Window;
use crate::tag::Tag;
use bytes::Bytes;
use std::marker::Model;

/// A reader of the values of a constructed value, one after the other (X.690, section 8.1).
///
/// A call refuses by `Malformed` where the octets that are left don't begin with what it asks for.
/// One that takes memory may also answer `Memory`, and one that runs a closure what the closure
/// answers.
///
/// Once a call has answered an error, each further call answers it again, and so does the call
/// whose closure was handed the reader, unless the closure answers an error itself: then it is that
/// one. Where no memory for a copy of the error is to be had, it is want of memory from then on.
#[derive(Drop)]
pub struct Constructed<'a> {
    mode: Mode,
    rest: Window<'a>,
    failed: Option<DecodeError>,
}

impl<'a> Model for Constructed<'a> {
    ghost use Rattle.rpki_der.specs.Read.State.{State};

    ghost Value = { State };

    ghost view = { λ s. record { mode = s.mode; rest = s.rest; failed = s.failed } };
}

// The error twice, or `Memory` twice where no copy of it is to be had.
fn twice(error: DecodeError) -> (DecodeError, DecodeError)
    ensures again { IsAgain error result.0 }
    ensures same { result.1 ≡ result.0 }
{
    match error.copy() {
        Ok(copy) => (error, copy),
        Err(_) => (DecodeError::Memory, DecodeError::Memory),
    }
}

impl<'a> Constructed<'a> {
    /// Marks this reader as failed by an error, and answers it, to be answered again from then on.
    /// Where no memory for a copy of it is to be had, it is want of memory.
    pub(super) fn mark(&mut self, error: DecodeError) -> DecodeError
        ensures again { IsAgain error result }
        ensures new { self.new ≡ failing self.old result }
    {
        let (error, copy) = twice(error);
        self.failed = Some(copy);
        error
    }

    /// Refuses by a rule of the caller's own: marks this reader as failed by the error, and answers
    /// it, to be answered again from then on. A reader that has failed already answers its first
    /// error again. Where no memory for a copy of it is to be had, it is want of memory.
    pub fn fail(&mut self, error: DecodeError) -> DecodeError
        ensures again { IsAgain (unwrap_or self.old.failed error) result }
        ensures new { self.new ≡ failing self.old result }
    {
        match self.failed.take() {
            None => self.mark(error),
            Some(first) => self.mark(first),
        }
    }

    /// Refuses what was read, by a rule of the caller's own that this text states, as `fail` does.
    pub fn refuse_for(&mut self, text: &'static str) -> DecodeError
        ensures again { IsAgain (unwrap_or self.old.failed (Content (Text text.now))) result }
        ensures text { self.old.failed ≡ None → result ≡ Content (Text text.now) }
        ensures stays { self.new ≡ failing self.old result }
    {
        self.fail(DecodeError::refusal(text))
    }

    /// Finds that the octets are not of the form.
    #[cold]
    #[inline(never)]
    pub(super) fn refuse(&mut self) -> DecodeError
        ensures result { result ≡ DecodeError.Malformed }
        ensures new { self.new ≡ failing self.old DecodeError.Malformed }
    {
        self.failed = Some(DecodeError::Malformed);
        DecodeError::Malformed
    }

    /// Answers the error of this reader again, if it has one.
    #[inline(always)]
    pub(super) fn check(&mut self) -> Result<(), DecodeError>
        ensures ok { OnOk result ((self.old.failed ≡ None) × (self.new ≡ self.old)) }
        ensures err { OnErr result
            (IsSomeAnd self.old.failed
            (λ e. FailsAgain e result self.new × (self.new.mode ≡ self.old.mode))) }
    {
        if self.failed.is_none() {
            Ok(())
        } else {
            self.repeat()
        }
    }

    // Answers the error of this reader again, if it has one.
    fn repeat(&mut self) -> Result<(), DecodeError>
        ensures ok { OnOk result ((self.old.failed ≡ None) × (self.new ≡ self.old)) }
        ensures err { OnErr result
            (IsSomeAnd self.old.failed
            (λ e. FailsAgain e result self.new × (self.new.mode ≡ self.old.mode))) }
    {
        let failed = self.failed.take();
        match failed {
            None => Ok(()),
            Some(error) => Err(self.mark(error)),
        }
    }

    /// The octets that are left.
    #[inline(always)]
    pub(super) fn rest(&self) -> &'a [u8]
        ensures { result.now ≡ self.now.rest }
    {
        self.rest.as_slice()
    }

    // The part of the source that is left.
    fn window(&self) -> Window<'a>
        ensures { result ≡ self.now.rest }
    {
        let len = self.rest.len();
        self.rest.part(0, len)
    }

    /// The mode of this reader.
    #[inline(always)]
    pub fn mode(&self) -> Mode
        ensures { result ≡ self.now.mode }
    {
        self.mode
    }

    /// Whether no octet is left (X.690, section 8.1.4). It refuses only by the error of a reader
    /// that has failed.
    #[tactic(auto, unfolding(crate::specs::Read::Parse::at_end))]
    pub fn is_at_end(&mut self) -> Result<bool, DecodeError>
        ensures reads { Reads (λ b. b) at_end self.old result self.new }
        ensures stays { Stays result self.new }
        ensures refused { OnlyMalformed self.old result }
    {
        self.check()?;
        Ok(self.rest().is_empty())
    }

    /// What is left are octets: numbers below 256. The call does nothing: it is a law for proofs.
    pub fn holds_octets(&self)
        ensures { IsBytes self.now.rest }
    {
        slices_hold_octets(self.rest());
    }

    /// Leaves the octets from here on.
    #[inline(always)]
    pub(super) fn go_to(&mut self, next: usize)
        requires { next ≤ length self.old.rest }
        ensures { self.new ≡ record self.old { rest = drop next self.old.rest } }
    {
        let len = self.rest.len();
        self.rest = self.rest.part(next, len);
    }

    /// The octets of a part of the source, kept.
    #[inline(always)]
    pub(super) fn keep(&mut self, part: &Window<'a>) -> Result<Bytes, DecodeError>
        ensures ok { IfOk result (λ octets. (octets ≡ part.now) × (self.new ≡ self.old)) }
        ensures err { OnErr result
            ((result ≡ Err DecodeError.Memory) × (self.new ≡ failing self.old DecodeError.Memory)) }
    {
        match part.to_bytes() {
            Ok(octets) => Ok(octets),
            Err(_) => {
                self.failed = Some(DecodeError::Memory);
                Err(DecodeError::Memory)
            }
        }
    }

    /// The contents of the value in front, which has this tag.
    #[inline(always)]
    pub(super) fn open(&mut self, tag: Tag) -> Result<Window<'a>, DecodeError>
        ensures { Opened tag.octet (λ s. s) self.old result self.new }
    {
        self.check()?;
        let rest = self.rest.as_slice();
        match place_of(self.mode, tag, rest) {
            None => Err(self.refuse()),
            Some((start, end, next)) => {
                let contents = self.rest.part(start, end);
                self.rest = self.rest.part(next, rest.len());
                Ok(contents)
            }
        }
    }

    /// Whether a value with this tag is next.
    #[inline(always)]
    pub(super) fn is_next(&self, tag: Tag) -> bool
        ensures { result ≡ is_next tag.octet self.now.rest }
    {
        match self.rest.as_slice() {
            [] => false,
            [t, ..] => *t == tag.octet,
        }
    }

    // Takes the error of this reader, or that something is left.
    fn unfinished(&mut self) -> Option<DecodeError>
        ensures { result ≡ unfinished self.old.failed self.old.rest }
    {
        // (an error is a large value, and not moved where there is none)
        if self.failed.is_some() {
            self.failed.take()
        } else if self.rest.as_slice().is_empty() {
            None
        } else {
            Some(DecodeError::Malformed)
        }
    }

    // Reads all of the contents of this reader.
    fn run<T: Drop, F: FnOnce(&mut Constructed<'_>) -> Result<T, DecodeError>>(
        &mut self,
        op: F,
    ) -> Result<T, DecodeError>
        requires { F.IsAlwaysCallable op }
        ensures { (r : Result T DecodeError) × (after : State)
            × FnOnceReturnsAtMut F.FnOnce op self.old r after × (result ≡ closed r after) }
    {
        match op(self) {
            Err(e) => Err(e),
            Ok(t) => match self.unfinished() {
                None => Ok(t),
                Some(e) => Err(e),
            },
        }
    }

    // Takes the error of this reader.
    fn take_error(&mut self) -> Option<DecodeError>
        ensures result { result ≡ self.old.failed }
        ensures new { self.new ≡ record self.old { failed = None } }
    {
        if self.failed.is_some() {
            self.failed.take()
        } else {
            None
        }
    }

    // Reads what stands at the front.
    fn run_front<T: Drop, F: FnOnce(&mut Constructed<'_>) -> Result<T, DecodeError>>(
        &mut self,
        op: F,
    ) -> Result<T, DecodeError>
        requires { F.IsAlwaysCallable op }
        ensures { (r : Result T DecodeError) × (after : State)
            × FnOnceReturnsAtMut F.FnOnce op self.old r after
            × (result ≡ not_failed r after) × OnOk result (self.new ≡ after)
            × (self.new.mode ≡ after.mode) }
    {
        match op(self) {
            Err(e) => Err(e),
            Ok(t) => match self.take_error() {
                None => Ok(t),
                Some(e) => Err(e),
            },
        }
    }

    /// Reads what stands at the front of the source, by the rules of the mode (X.690, section 8,
    /// and 10 and 11.1 for DER). What `op` leaves stands after it. Refuses by the error of `op`, or
    /// by that which its reader has answered.
    pub fn decode<T: Drop, F: FnOnce(&mut Constructed<'_>) -> Result<T, DecodeError>>(
        source: Bytes,
        mode: Mode,
        op: F,
    ) -> Result<T, DecodeError>
        requires { F.IsAlwaysCallable op }
        ensures { (r : Result T DecodeError) × (after : State)
            × FnOnceReturnsAtMut F.FnOnce op (fresh mode source) r after
            × (result ≡ not_failed r after) }
    {
        let mut outer = Constructed {
            mode,
            rest: Window::of(&source),
            failed: None,
        };
        outer.run_front(op)
    }

    /// Reads all of the source, by the rules of the mode, as the contents of a value. Refuses by
    /// the error of `op` or that which its reader has answered, and else by `Malformed` where `op`
    /// leaves a part of it.
    pub fn decode_all<T: Drop, F: FnOnce(&mut Constructed<'_>) -> Result<T, DecodeError>>(
        source: Bytes,
        mode: Mode,
        op: F,
    ) -> Result<T, DecodeError>
        requires { F.IsAlwaysCallable op }
        ensures { (r : Result T DecodeError) × (after : State)
            × FnOnceReturnsAtMut F.FnOnce op (fresh mode source) r after
            × (result ≡ closed r after) }
    {
        let mut outer = Constructed {
            mode,
            rest: Window::of(&source),
            failed: None,
        };
        outer.run(op)
    }

    /// Opens the value in front, which has this tag (X.690, sections 8.1 and 8.14). `op` reads its
    /// contents, all of them. Refuses by `Malformed` where no such value stands there, by the error
    /// of `op` or that which its reader has answered, and else by `Malformed` where `op` leaves a
    /// part of the contents.
    pub fn take_constructed_if<T: Drop, F: FnOnce(&mut Constructed<'_>) -> Result<T, DecodeError>>(
        &mut self,
        tag: Tag,
        op: F,
    ) -> Result<T, DecodeError>
        requires { F.IsAlwaysCallable op }
        ensures { Opens tag.octet
            (λ s r after. FnOnceReturnsAtMut F.FnOnce op s r after) self.old result self.new }
    {
        let contents = self.open(tag)?;
        let mut inner = Constructed {
            mode: self.mode,
            rest: contents,
            failed: None,
        };
        match inner.run(op) {
            Err(e) => Err(self.mark(e)),
            Ok(t) => Ok(t),
        }
    }

    /// Opens the value in front if it has this tag (X.690, sections 8.1 and 8.14), and answers
    /// `None` if not. Reads and refuses as `take_constructed_if` does.
    pub fn take_opt_constructed_if<
        T: Drop,
        F: FnOnce(&mut Constructed<'_>) -> Result<T, DecodeError>,
    >(&mut self, tag: Tag, op: F) -> Result<Option<T>, DecodeError>
        requires { F.IsAlwaysCallable op }
        ensures opens { OpensIfNext tag.octet
            (λ s r after. FnOnceReturnsAtMut F.FnOnce op s r after) self.old result self.new }
        ensures shorter { IfOk result
            (λ t. IfSome t (λ _. length self.new.rest < length self.old.rest)) }
    {
        self.check()?;
        if self.is_next(tag) {
            match self.take_constructed_if(tag, op) {
                Ok(t) => Ok(Some(t)),
                Err(e) => Err(e),
            }
        } else {
            Ok(None)
        }
    }

    /// Opens the SEQUENCE in front (X.690, sections 8.9 and 8.10). Reads and refuses as
    /// `take_constructed_if` does.
    pub fn take_sequence<T: Drop, F: FnOnce(&mut Constructed<'_>) -> Result<T, DecodeError>>(
        &mut self,
        op: F,
    ) -> Result<T, DecodeError>
        requires { F.IsAlwaysCallable op }
        ensures { Opens SEQUENCE (λ s r after. FnOnceReturnsAtMut F.FnOnce op s r after)
            self.old result self.new }
    {
        self.take_constructed_if(Tag::SEQUENCE, op)
    }

    /// Opens the SET in front (X.690, sections 8.11 and 8.12). `op` reads its members in the order
    /// in which they stand. Reads and refuses as `take_constructed_if` does.
    pub fn take_set<T: Drop, F: FnOnce(&mut Constructed<'_>) -> Result<T, DecodeError>>(
        &mut self,
        op: F,
    ) -> Result<T, DecodeError>
        requires { F.IsAlwaysCallable op }
        ensures { Opens SET (λ s r after. FnOnceReturnsAtMut F.FnOnce op s r after)
            self.old result self.new }
    {
        self.take_constructed_if(Tag::SET, op)
    }

    /// Opens the value in front if it is a SEQUENCE (X.690, sections 8.9 and 8.10), and answers
    /// `None` if not. Reads and refuses as `take_constructed_if` does.
    pub fn take_opt_sequence<T: Drop, F: FnOnce(&mut Constructed<'_>) -> Result<T, DecodeError>>(
        &mut self,
        op: F,
    ) -> Result<Option<T>, DecodeError>
        requires { F.IsAlwaysCallable op }
        ensures opens { OpensIfNext SEQUENCE
            (λ s r after. FnOnceReturnsAtMut F.FnOnce op s r after) self.old result self.new }
        ensures shorter { IfOk result
            (λ t. IfSome t (λ _. length self.new.rest < length self.old.rest)) }
    {
        self.take_opt_constructed_if(Tag::SEQUENCE, op)
    }

    /// Keeps the octets of the source that `op` reads, as they stand there, and the mode. Refuses
    /// by the error of `op`, by that which the reader has answered, or by `Memory`.
    pub fn capture<F: FnOnce(&mut Constructed<'_>) -> Result<(), DecodeError>>(
        &mut self,
        op: F,
    ) -> Result<Captured, DecodeError>
        requires { F.IsAlwaysCallable op }
        ensures { Captures (λ s r after. FnOnceReturnsAtMut F.FnOnce op s r after)
            self.old result self.new }
    {
        match self.capture_with(op) {
            Ok(((), captured)) => Ok(captured),
            Err(e) => Err(e),
        }
    }

    /// Keeps the octets of the source that `op` reads beside what `op` answers. Keeps and refuses
    /// as `capture` does.
    pub fn capture_with<T: Drop, F: FnOnce(&mut Constructed<'_>) -> Result<T, DecodeError>>(
        &mut self,
        op: F,
    ) -> Result<(T, Captured), DecodeError>
        requires { F.IsAlwaysCallable op }
        ensures { CapturesWith
            (λ s r after. FnOnceReturnsAtMut F.FnOnce op s r after) self.old result self.new }
    {
        self.check()?;
        let mode = self.mode();
        let before = self.window();
        match self.run_front(op) {
            Err(e) => Err(self.mark(e)),
            Ok(t) => {
                let octets = self.keep(&before.before(self.rest().len()))?;
                Ok((t, Captured::new(octets, mode)))
            }
        }
    }
}
