//! What a validation run finds.

ghost use Rattle.std.specs.Prelude.{◌≡◌, IfOk, OnOk};
ghost use Rattle.rpki_relying_party.specs.Found.{Lists, KeepsFinding, KeepsFindings};
ghost use Rattle.rpki_relying_party.specs.declared.found.Finding.{Finding};

use crate::cause::Cause;
use crate::payload::{Held, Payload};
use crate::payloads::Payloads;
use crate::refusals::Refusals;
use rpki_basics::Rsync;
use std::alloc::{AllocError, Global};
use std::marker::Model;

/// What is refused, a file or a publication point under the URI of its manifest; why; and the URI
/// of the manifest of the CA that it stands below, which for the point of a trust anchor is its
/// own.
#[derive(Debug, Drop)]
pub struct Refusal {
    pub uri: Rsync,
    pub cause: Cause,
    pub under: Rsync,
}

/// A refusal, kept apart: findings, most of which are payloads, are small so.
#[derive(Debug, Drop)]
pub struct BoxedRefusal {
    refusal: Box<Refusal>,
}

impl Model for BoxedRefusal {
    ghost use Rattle.rpki_relying_party.specs.declared.found.Refusal.{Refusal};

    ghost Value = { Refusal };

    ghost view = { λ b. b.refusal.value };
}

impl BoxedRefusal {
    /// Keeps a refusal apart.
    pub(crate) fn new(alloc: Global, refusal: Refusal) -> Result<BoxedRefusal, AllocError>
        ensures { IfOk result (λ boxed. boxed ≡ refusal) }
    {
        match Box::new(alloc, refusal) {
            Err(refused) => {
                drop(refused);
                Err(AllocError)
            }
            Ok(refusal) => Ok(BoxedRefusal { refusal }),
        }
    }

    /// The refusal.
    pub fn into_refusal(self) -> Refusal
        ensures { result ≡ self }
    {
        Box::into_inner(self.refusal)
    }
}

/// One of the things that a place says.
#[derive(Debug, Drop)]
pub enum Finding {
    Payload(Payload, Held),
    Refusal(BoxedRefusal),
}

/// What was found: payloads and refusals, each once.
#[derive(Drop)]
pub struct Found {
    pub payloads: Payloads,
    pub refusals: Refusals,
}

impl Found {
    /// Nothing was found yet.
    pub fn new(alloc: Global) -> Found
        ensures { (x : Finding) → ¬ Lists result x }
    {
        Found {
            payloads: Payloads::new(alloc),
            refusals: Refusals::new(alloc),
        }
    }

    /// Keeps a refusal.
    pub(crate) fn refuse(&mut self, alloc: Global, refusal: Refusal) -> Result<(), AllocError>
        ensures { OnOk result (KeepsFinding (Finding.Refusal refusal) self.old self.new) }
    {
        self.refusals.keep(alloc, refusal)
    }

    /// Keeps a finding.
    pub(crate) fn keep(&mut self, alloc: Global, finding: Finding) -> Result<(), AllocError>
        ensures { OnOk result (KeepsFinding finding self.old self.new) }
    {
        match finding {
            Finding::Payload(payload, held) => self.payloads.keep(payload, held),
            Finding::Refusal(boxed) => self.refuse(alloc, boxed.into_refusal()),
        }
    }

    /// Keeps findings.
    pub(crate) fn keep_all(&mut self, alloc: Global, said: Vec<Finding>) -> Result<(), AllocError>
        ensures { OnOk result (KeepsFindings said.items self.old self.new) }
    {
        for finding in said {
            self.keep(alloc, finding)?;
        }
        Ok(())
    }
}
