//! Values that are gone past.

ghost use Rattle.std.specs.Prelude.{◌<◌, length, IfOk, IfSome};
ghost use Rattle.rpki_der.specs.Numbers.{MAX_DEPTH};
ghost use Rattle.rpki_der.specs.Read.Parse.{skip_at, skip_opt_at, skip_all_at};
ghost use Rattle.rpki_der.specs.Read.Reads.{Reads, Stays, OnlyMalformed};

use crate::error::DecodeError;
use crate::read::Constructed;
use crate::read::skip::{are_skipped, skip_place};

impl<'a> Constructed<'a> {
    /// Goes past the next value, whatever it is (X.690, section 8.1.1). Values in it nest at most
    /// 32 deep, itself included. Refuses by `Malformed`.
    pub fn skip_one(&mut self) -> Result<(), DecodeError>
        ensures reads { Reads (λ u. u) (skip_at MAX_DEPTH) self.old result self.new }
        ensures stays { Stays result self.new }
        ensures refused { OnlyMalformed self.old result }
    {
        self.check()?;
        match skip_place(self.mode(), self.rest()) {
            None => Err(self.refuse()),
            Some(end) => {
                self.go_to(end);
                Ok(())
            }
        }
    }

    /// Goes past the next value as `skip_one` does, if one is left. Refuses by `Malformed`.
    #[tactic(auto, unfolding(crate::specs::Read::Parse::skip_opt_at))]
    pub fn skip_opt_one(&mut self) -> Result<Option<()>, DecodeError>
        ensures reads { Reads (λ u. u) skip_opt_at self.old result self.new }
        ensures shorter { IfOk result
            (λ u. IfSome u (λ _. length self.new.rest < length self.old.rest)) }
        ensures stays { Stays result self.new }
        ensures refused { OnlyMalformed self.old result }
    {
        self.check()?;
        if self.rest().is_empty() {
            return Ok(None);
        }
        self.skip_one()?;
        Ok(Some(()))
    }

    /// Goes past all values that are left, each as `skip_one` does. Refuses by `Malformed`.
    pub fn skip_all(&mut self) -> Result<(), DecodeError>
        ensures reads { Reads (λ u. u) skip_all_at self.old result self.new }
        ensures stays { Stays result self.new }
        ensures refused { OnlyMalformed self.old result }
    {
        self.check()?;
        let rest = self.rest();
        if are_skipped(self.mode(), rest) {
            self.go_to(rest.len());
            Ok(())
        } else {
            Err(self.refuse())
        }
    }
}
