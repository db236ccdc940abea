//! Reading a content.

ghost use Rattle.rpki_der.specs.declared.mode.Mode.TheVariants.{Der};
ghost use Rattle.rpki_der.specs.Read.Reads.{Found, Reads, Stays};
ghost use Rattle.rpki_lists.specs.Entries.{list_at};
ghost use Rattle.rpki_lists.specs.Named.{named_fields_at, sets_at};
ghost use Rattle.rpki_files.specs.Checklist.Files.{checked_at};
ghost use Rattle.rpki_files.specs.Checklist.{number_fields_at, numbers_at, listed_at, fields_at};
ghost use Rattle.rpki_files.specs.Checklist.{checklist_at};

use crate::checklist::ResourceSignedChecklist;
use crate::checklist::checked::CheckedFiles;
use crate::faults;
use crate::version::take_version;
use bytes::Bytes;
use rpki_basics::DigestAlgorithm;
use rpki_der::{Constructed, DecodeError, Mode, Tag};
use rpki_lists::EntryList;
use rpki_lists::named::{Named, Sets, names_some, sets_of, take_addresses};
use rpki_resources::AsBlocks;
use std::alloc::Global;

// Reads the AS numbers under their tag.
#[tactic(auto, unfolding(crate::specs::Checklist::number_fields_at))]
fn take_number_fields(cons: &mut Constructed<'_>, alloc: Global) -> Result<AsBlocks, DecodeError>
    ensures { Reads (λ set. set) number_fields_at cons.old result cons.new }
{
    let set = cons.take_constructed_if(Tag::CTX_0, |cons| AsBlocks::take_from(alloc, cons))?;
    Ok(set)
}

// Reads the AS numbers.
fn take_numbers(cons: &mut Constructed<'_>, alloc: Global) -> Result<AsBlocks, DecodeError>
    ensures { Reads (λ set. set) numbers_at cons.old result cons.new }
{
    cons.take_sequence(|cons| take_number_fields(cons, alloc))
}

// Reads the AS numbers and the addresses, one after the other.
#[tactic(auto, unfolding(rpki_lists::specs::Named::named_fields_at))]
fn take_named(cons: &mut Constructed<'_>, alloc: Global) -> Result<Named, DecodeError>
    ensures { Reads (λ named. named) (named_fields_at numbers_at) cons.old result cons.new }
{
    let asns = cons.take_opt_constructed_if(Tag::CTX_0, |cons| take_numbers(cons, alloc))?;
    let addresses = take_addresses(cons, alloc)?;
    Ok(Named { asns, addresses })
}

// Reads the sets, where something is named.
#[tactic(auto, unfolding(rpki_der::specs::Read::Parse::tested))]
fn take_sets(cons: &mut Constructed<'_>, alloc: Global) -> Result<Sets, DecodeError>
    ensures { Reads (λ sets. sets) (sets_at numbers_at) cons.old result cons.new }
{
    let named = cons.take_sequence(|cons| take_named(cons, alloc))?;
    if names_some(&named) {
        Ok(sets_of(alloc, named))
    } else {
        Err(cons.refuse_for(faults::NO_RESOURCES))
    }
}

// Reads the files.
fn take_files(cons: &mut Constructed<'_>) -> Result<EntryList<CheckedFiles>, DecodeError>
    ensures { Reads (λ l. l) (list_at checked_at) cons.old result cons.new }
{
    EntryList::take_from(cons)
}

// Reads the algorithm and the files.
#[tactic(auto, unfolding(crate::specs::Checklist::listed_at))]
fn take_listed(cons: &mut Constructed<'_>) -> Result<EntryList<CheckedFiles>, DecodeError>
    ensures { Reads (λ l. l) listed_at cons.old result cons.new }
{
    DigestAlgorithm::take_from(cons)?;
    let files = take_files(cons)?;
    Ok(files)
}

// Reads the fields, one after another.
#[tactic(auto, unfolding(crate::specs::Checklist::fields_at))]
fn take_fields(
    alloc: Global,
    cons: &mut Constructed<'_>,
) -> Result<ResourceSignedChecklist, DecodeError>
    ensures { Reads (λ l. l) fields_at cons.old result cons.new }
{
    cons.take_opt_constructed_if(Tag::CTX_0, take_version)?;
    cons.holds_octets();
    let (as_resources, (v4_resources, v6_resources)) = take_sets(cons, alloc)?;
    let files = take_listed(cons)?;
    Ok(ResourceSignedChecklist {
        as_resources,
        v4_resources,
        v6_resources,
        files,
    })
}

/// Reads a content. Refuses as `ResourceSignedChecklist::take_from` does.
pub fn take_checklist(
    alloc: Global,
    cons: &mut Constructed<'_>,
) -> Result<ResourceSignedChecklist, DecodeError>
    ensures reads { Reads (λ l. l) checklist_at cons.old result cons.new }
    ensures stays { Stays result cons.new }
{
    cons.take_sequence(|cons| take_fields(alloc, cons))
}

/// Reads the content at the front. Refuses as `ResourceSignedChecklist::decode` does.
pub fn read_front(alloc: Global, source: Bytes) -> Result<ResourceSignedChecklist, DecodeError>
    ensures { Found (λ l. l) (checklist_at Der source) result }
{
    Constructed::decode(source, Mode::Der, |cons| take_checklist(alloc, cons))
}
