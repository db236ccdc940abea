//! How paths are anchored: at trust anchors, or under CAs that were validated elsewhere.

ghost use Rattle.std.specs.Prelude.{◌≡◌};
ghost use Rattle.rpki_paths.specs.declared.supply.SupplyFault.{SupplyFault};
ghost use Rattle.rpki_paths.specs.declared.supply.Supplied.{Supplied};
ghost use Rattle.rpki_paths.specs.Anchor.{Supply};
ghost use Rattle.rpki_paths.specs.Supplied.{Answers, AnswersEach, AreSuppliedAll, supply_of};
ghost use Rattle.rpki_paths.specs.Supplied.{refusal_of};
ghost use Rattle.rpki_paths.specs.Texts.{supply_text};

use crate::certificate::{Certificate, Locator, SuppliedCa};
use crate::walker::Path;
use rpki_faults::{Family, VerificationError};
use std::alloc::AllocError;
use std::error::Error;
use std::fmt;

/// Why a supply ends a call.
#[derive(Clone, Copy, Debug, PartialEq, Eq)]
pub enum SupplyFault<F> {
    /// The head, which a locator is meant for, is no trust anchor.
    NoAnchor(F),
    /// The CA does not have the numbers of this family.
    NotCovered(Family),
    /// There is no memory for the sets.
    Memory,
}

impl<F> From<AllocError> for SupplyFault<F> {
    ghost from_gives = { λ _ fault. fault ≡ SupplyFault.Memory };

    fn from(_error: AllocError) -> SupplyFault<F> {
        SupplyFault::Memory
    }
}

impl<F: fmt::Display> fmt::Display for SupplyFault<F> {
    ghost output = { λ fault. supply_text F.Display.output fault };

    fn fmt<W: fmt::Write>(&self, f: &mut fmt::Formatter<W>) -> fmt::Result {
        match self {
            SupplyFault::NoAnchor(fault) => fault.fmt(f),
            SupplyFault::NotCovered(family) => VerificationError::Overclaimed(*family).fmt(f),
            SupplyFault::Memory => f.write_str("out of memory"),
        }
    }
}

impl<F: Error> Error for SupplyFault<F> {}

/// What paths are anchored under.
#[derive(Debug)]
pub enum Supplied<'a, T, S> {
    /// A trust anchor locator.
    Tal(&'a T),
    /// A CA certificate that was validated elsewhere.
    Ca(&'a S),
}

impl<T, S> Clone for Supplied<'_, T, S> {
    ghost is_clone = { λ s copy. copy ≡ s };

    fn clone(&self) -> Result<Self, AllocError> {
        Ok(*self)
    }
}

impl<T, S> Copy for Supplied<'_, T, S> {}

impl<C: Certificate> Path<C> {
    /// Anchors the path at its head, where a locator is meant for it, and answers whether the path
    /// is anchored. A path that is anchored, and one of another head, stays as it is. Refuses by
    /// `NoAnchor` where the head is no trust anchor, with the cause; the path is then as it was. No
    /// memory is taken.
    pub fn supply_tal<T: Locator<C>>(&mut self, tal: &T) -> Result<bool, SupplyFault<T::Fault>>
        ensures { Answers C.cert (T.refuses tal.now) (Supply.Tal (T.key tal.now))
            self.old self.new result }
    {
        if self.anchored {
            return Ok(true);
        }
        if !tal.fits(&self.head) {
            return Ok(false);
        }
        if let Err(fault) = tal.validate(&self.head) {
            return Err(SupplyFault::NoAnchor(fault));
        }
        self.anchored = true;
        Ok(true)
    }

    /// Anchors the path under a CA that is meant for its head, and answers whether the path is
    /// anchored. A path that is anchored, and one of another head, stays as it is. Refuses by
    /// `NotCovered` of the first family whose nearest explicit set the CA does not have (RFC 6487,
    /// section 7.2), or by `Memory`; the path is then as it was.
    pub fn supply_ca<S: SuppliedCa<C>, F>(&mut self, ca: &S) -> Result<bool, SupplyFault<F>>
        ensures { Answers C.cert (λ head fault. ⊥)
            (Supply.Ca (S.ski ca.now) (S.key ca.now) (S.sets ca.now)) self.old self.new result }
    {
        if self.anchored {
            return Ok(true);
        }
        if !ca.fits(&self.head) {
            return Ok(false);
        }
        let overclaim = self.head.overclaim();
        if let Some(family) = self.sets.exceeding(overclaim, ca) {
            return Err(SupplyFault::NotCovered(family));
        }
        self.sets = self.sets.with_supplied_ca(overclaim, ca)?;
        self.anchored = true;
        Ok(true)
    }

    /// Anchors the path under a locator or a CA. Answers and refuses as `supply_tal` and
    /// `supply_ca` do.
    pub fn supply<T: Locator<C>, S: SuppliedCa<C>>(
        &mut self,
        supplied: &Supplied<T, S>,
    ) -> Result<bool, SupplyFault<T::Fault>>
        ensures { Answers C.cert (refusal_of T.refuses supplied.now)
            (supply_of T.key S.ski S.key S.sets supplied.now) self.old self.new result }
    {
        match supplied {
            Supplied::Tal(tal) => self.supply_tal(*tal),
            Supplied::Ca(ca) => self.supply_ca(*ca),
        }
    }
}

/// Anchors each path under a locator or a CA, in order, and answers whether all paths are anchored
/// then. Refuses as `Path::supply` does, at the first path that it is meant for and does not take:
/// earlier paths keep their anchor, and that path and later ones stay as they were.
pub fn supply_each<C: Certificate, T: Locator<C>, S: SuppliedCa<C>>(
    paths: &mut [Path<C>],
    supplied: &Supplied<T, S>,
) -> Result<bool, SupplyFault<T::Fault>>
    ensures { AnswersEach C.cert (refusal_of T.refuses supplied.now)
        (supply_of T.key S.ski S.key S.sets supplied.now) paths.old paths.new result }
{
    let mut done = true;
    for i in 0..paths.len() {
        match paths[i].supply(supplied) {
            Ok(anchored) => {
                done &= anchored;
            }
            Err(fault) => {
                return Err(fault);
            }
        }
    }
    Ok(done)
}

/// Hands in several supplies in order, each to all paths, as `supply_each` does. The first fault
/// ends the call, and leaves the paths as that supply left them.
pub fn supply_all<C: Certificate, T: Locator<C>, S: SuppliedCa<C>>(
    paths: &mut [Path<C>],
    supplies: &[Supplied<T, S>],
) -> Result<(), SupplyFault<T::Fault>>
    ensures { AreSuppliedAll C.cert (supply_of T.key S.ski S.key S.sets) (refusal_of T.refuses)
        supplies.now paths.old paths.new result }
{
    for i in 0..supplies.len() {
        match supply_each(paths, &supplies[i]) {
            Ok(_) => {}
            Err(fault) => {
                return Err(fault);
            }
        }
    }
    Ok(())
}
