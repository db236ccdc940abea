//! A relying party with a copy in a folder.

ghost use Rattle.std.specs.Prelude.{IfOk};
ghost use Rattle.rpki_payloads.specs.Outcomes.{IsOutcomeUnder};
ghost use Rattle.rpki_payloads.specs.Party.{party_of};
ghost use Rattle.rpki_payloads.specs.Report.{AreOutcomes};

use crate::locators::NamedLocator;
use crate::outcome::AnchorOutcome;
use rpki_basics::{Crypto, ProviderLimit, Time};
use rpki_relying_party::{FolderCopy, Folders, Pass};
use std::alloc::{AllocError, Global};

/// How much work there is at most under a locator, if nothing else is said: 8 GiB.
pub const MOST_WORK: u64 = 8_589_934_592;

/// A relying party that finds payloads in a copy of the repositories, which is in a folder.
#[derive(Drop)]
pub struct FolderParty<'a, F, C> {
    /// The folders among which it is.
    pub folders: &'a F,
    /// What says which signatures are good.
    pub crypto: &'a C,
    /// The folder of the copy.
    pub copy: &'a str,
    /// When objects are judged.
    pub moment: Time,
    /// How many providers a customer may have.
    pub providers: ProviderLimit,
    /// How much work there is at most under a locator, as `run_under` counts it.
    pub limit: u64,
}

/// What the runs under these locators come to, in their order.
pub(crate) fn run_all<'p, F: Folders, C: Crypto>(
    alloc: Global,
    party: &FolderParty<'_, F, C>,
    locators: &'p [NamedLocator<'_>],
) -> Result<Vec<AnchorOutcome<'p>>, AllocError>
    ensures { IfOk result (λ outcomes. AreOutcomes
        (party_of F.finds C.digest_of C.is_signed party.now) locators.now outcomes.items) }
{
    let mut outcomes = Vec::new(alloc);
    for one in locators {
        outcomes.push(run_named(alloc, party, one))?;
    }
    Ok(outcomes)
}

// What the run under this locator comes to.
fn run_named<'p, F: Folders, C: Crypto>(
    alloc: Global,
    party: &FolderParty<'_, F, C>,
    named: &'p NamedLocator<'_>,
) -> AnchorOutcome<'p>
    ensures { IsOutcomeUnder (party_of F.finds C.digest_of C.is_signed party.now)
        named.now.name.now named.now.locator result }
{
    let copy = FolderCopy {
        folders: party.folders,
        folder: party.copy,
        name: named.name,
    };
    let pass = Pass {
        copy: &copy,
        crypto: party.crypto,
        moment: party.moment,
        providers: party.providers,
    };
    AnchorOutcome::of_run(alloc, &pass, named.name, &named.locator, party.limit)
}
