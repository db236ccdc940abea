//! Refusals by their lines.

ghost use Rattle.std.proofs.Props.{props};
ghost use Rattle.std.specs.Prelude.{◌≡◌, ℕ, List, None, IfOk, OnOk};
ghost use Rattle.std.specs.BTreeMap.{get_by_text, IsOrdered};
ghost use Rattle.std.specs.String.{string_bytes};
ghost use Rattle.rpki_relying_party.specs.Orders.{line_order};
ghost use Rattle.rpki_relying_party.specs.Refusals.{KeepsRefusal, StandAtTheirLines};
ghost use Rattle.rpki_relying_party.specs.Texts.{refusal_line};

use crate::found::Refusal;
use std::alloc::{AllocError, Global};
use std::collections::BTreeMap;

/// Refusals, each once, at its line: the URI, the cause, and the CA that it stands below.
#[derive(Drop)]
pub struct Refusals {
    pub by_line: BTreeMap<String, Refusal>,
    pub ghost lines: { StandAtTheirLines by_line },
    pub ghost in_order: { IsOrdered line_order by_line } by { Prim.hlevel props },
}

// The line of a refusal.
fn line_of(alloc: Global, refusal: &Refusal) -> Result<String, AllocError>
    ensures { IfOk result (λ line. string_bytes line ≡ refusal_line refusal.now) }
{
    let uri = refusal.uri.as_str();
    let cause = &refusal.cause;
    let under = refusal.under.as_str();
    format!(in alloc; "{uri}: {cause} (under {under})")
}

// Keeps a refusal at its line.
fn keep_refusal(
    alloc: Global,
    refusals: &mut BTreeMap<String, Refusal>,
    refusal: Refusal,
) -> Result<(), AllocError>
    ensures keeps { OnOk result (KeepsRefusal refusal refusals.old refusals.new) }
    ensures lines { StandAtTheirLines refusals.old → StandAtTheirLines refusals.new }
    ensures order { IsOrdered line_order refusals.old → IsOrdered line_order refusals.new }
{
    match line_of(alloc, &refusal) {
        Err(error) => {
            drop(refusal);
            Err(error)
        }
        Ok(line) => match refusals.insert(line, refusal) {
            Err(refused) => {
                drop(refused);
                Err(AllocError)
            }
            Ok(replaced) => {
                drop(replaced);
                Ok(())
            }
        },
    }
}

impl Refusals {
    /// No refusals.
    pub fn new(alloc: Global) -> Refusals
        ensures { (line : List ℕ) → get_by_text result.by_line line ≡ None }
    {
        let by_line = BTreeMap::new(alloc);
        Refusals { by_line }
    }

    /// Keeps a refusal.
    pub(crate) fn keep(&mut self, alloc: Global, refusal: Refusal) -> Result<(), AllocError>
        ensures { OnOk result (KeepsRefusal refusal self.old.by_line self.new.by_line) }
    {
        keep_refusal(alloc, &mut self.by_line, refusal)
    }
}
