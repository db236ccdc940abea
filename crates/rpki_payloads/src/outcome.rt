//! What a validation run under a locator comes to.

ghost use Rattle.std.specs.Prelude.{◌≡◌, is_ok};
ghost use Rattle.rpki_relying_party.specs.Passes.{setting};
ghost use Rattle.rpki_show.specs.Grows.{Grows};
ghost use Rattle.rpki_payloads.specs.Outcomes.{IsNamedOutcome, IsOutcome, is_memory, lacks_memory};
ghost use Rattle.rpki_payloads.specs.Report.{found_under, outcome_line};

use crate::found::AnchorFindings;
use rpki_basics::Crypto;
use rpki_relying_party::{Found, Pass, Repository, RunFault, refuse_unread, run_under};
use rpki_tal::Tal;
use std::alloc::{AllocError, Global};
use std::fmt::Write;
use std::marker::Model;

/// The name of a locator, and what the run under it came to.
#[derive(Drop)]
pub(crate) struct AnchorOutcome<'a> {
    name: &'a str,
    outcome: Result<Found, RunFault>,
}

impl<'a> Model for AnchorOutcome<'a> {
    ghost use Rattle.std.specs.Coded.{codes};
    ghost use Rattle.rpki_payloads.specs.Outcomes.{AnchorOutcome};
    ghost use Rattle.rpki_relying_party.specs.contracts.found.Found as found_type;

    ghost Value = { AnchorOutcome };

    // By which proofs tell outcomes apart.
    ghost coded = { Prim.hlevel (codes, found_type.the_row.coded) };

    ghost view = { λ a. record { name = a.name.now; outcome = a.outcome } };
}

// What is found under a locator, with a refusal for each CA whose places were left unread; or why
// there is no run. Where memory runs out, what was found is dropped.
fn outcome_under<R: Repository, C: Crypto>(
    alloc: Global,
    pass: &Pass<'_, R, C>,
    tal: &Tal,
    limit: u64,
) -> Result<Found, RunFault>
    ensures { IsOutcome (setting R.finds C.digest_of C.is_signed pass.now) tal.now limit result }
{
    let mut found = Found::new(alloc);
    match run_under(alloc, pass, tal, limit, &mut found) {
        Err(fault) => {
            drop(found);
            Err(fault)
        }
        Ok(unread) => match refuse_unread(alloc, &unread, &mut found) {
            Err(_) => {
                drop(unread);
                drop(found);
                Err(RunFault::Memory)
            }
            Ok(()) => {
                drop(unread);
                Ok(found)
            }
        },
    }
}

// Whether the cause is want of memory.
fn is_memory(fault: &RunFault) -> bool
    ensures { result ≡ is_memory fault.now }
{
    match fault {
        RunFault::Anchor(_) => false,
        RunFault::Point(_) => false,
        RunFault::Limit => false,
        RunFault::Memory => true,
    }
}

impl<'a> AnchorOutcome<'a> {
    /// What the run under this locator comes to. That memory ran out is an outcome too.
    pub(crate) fn of_run<R: Repository, C: Crypto>(
        alloc: Global,
        pass: &Pass<'_, R, C>,
        name: &'a str,
        tal: &Tal,
        limit: u64,
    ) -> AnchorOutcome<'a>
        ensures { IsNamedOutcome (setting R.finds C.digest_of C.is_signed pass.now) name.now
            tal.now limit result }
    {
        AnchorOutcome {
            name,
            outcome: outcome_under(alloc, pass, tal, limit),
        }
    }

    /// Whether there is a run.
    pub(crate) fn is_ok(&self) -> bool
        ensures { result ≡ is_ok self.now.outcome }
    {
        self.outcome.is_ok()
    }

    /// Whether there is no run for want of memory.
    pub(crate) fn lacks_memory(&self) -> bool
        ensures { result ≡ lacks_memory self.now.outcome }
    {
        match &self.outcome {
            Ok(_) => false,
            Err(fault) => is_memory(fault),
        }
    }

    /// What was found, if there is a run.
    pub(crate) fn findings(&self) -> Option<AnchorFindings<'_>>
        ensures { result ≡ found_under self.now.name self.now.outcome }
    {
        match &self.outcome {
            Ok(found) => Some(AnchorFindings::new(self.name, found)),
            Err(_) => None,
        }
    }

    /// Appends the line of what is refused, where there is no run. Refuses where memory runs out.
    pub(crate) fn push_line(&self, text: &mut String) -> Result<(), AllocError>
        ensures { Grows result text.old text.new (outcome_line self.now.name self.now.outcome) }
    {
        match &self.outcome {
            Ok(_) => Ok(()),
            Err(fault) => {
                let name = self.name;
                write!(text, "refused {name}: {fault}\n")
            }
        }
    }
}
