//! A validation run under a trust anchor's locator.

ghost use Rattle.std.specs.Prelude.{◌≡◌, ◌⊎◌, ◌+◌, ◌<◌, ◌^◌, ℕ, List, Some};
ghost use Rattle.std.specs.Prelude.{bytes_eq, cond, option_map, IfErr, IfOk, OnOk};
ghost use Rattle.rpki_relying_party.specs.Found.{Lists, HasAsLong};
ghost use Rattle.rpki_relying_party.specs.Passes.{setting};
ghost use Rattle.rpki_relying_party.specs.Runs.{IsRunUnder, IsSaidUnder, FindsAllUnder, WhyNoRun};
ghost use Rattle.rpki_relying_party.specs.Runs.{TellsSteadily, IsFaultOf};
ghost use Rattle.rpki_relying_party.specs.Runs.{start_place, run_fault_text};
ghost use Rattle.rpki_relying_party.specs.Runs.{IsLeftRefusal, IsRefusalFor, KeepsAll, lister_of};
ghost use Rattle.rpki_relying_party.specs.Runs.{is_same, is_left, left_under, left_cause};
ghost use Rattle.rpki_relying_party.specs.Runs.{count_for, counted};
ghost use Rattle.rpki_relying_party.specs.declared.found.Finding.{Finding};
ghost use Rattle.rpki_relying_party.specs.declared.locator.RunFault.{RunFault as Fault};
ghost use Rattle.rpki_relying_party.specs.declared.walk.Why.{Why as Reason};

use crate::anchor::{AnchorFault, anchor_of};
use crate::cause::Cause;
use crate::copy::Repository;
use crate::found::{Found, Refusal};
use crate::pass::Pass;
use crate::place::Place;
use crate::point::{PointReading, read_within};
use crate::walk::{Unread, Why, walk_from};
use rpki_basics::{Crypto, Rsync};
use rpki_certs::ResourceCert;
use rpki_tal::Tal;
use std::alloc::{AllocError, Global};
use std::collections::BTreeMap;
use std::error::Error;
use std::fmt;

/// Why there is no validation run under a locator.
#[derive(Debug, Drop)]
pub enum RunFault {
    /// The locator has no trust anchor.
    Anchor(AnchorFault),
    /// The publication point of its trust anchor is refused.
    Point(Cause),
    /// To read the publication point of its trust anchor is more work than the limit.
    Limit,
    /// No memory was to be had.
    Memory,
}

impl fmt::Display for RunFault {
    ghost output = { λ fault. Some (run_fault_text fault) };

    fn fmt<W: fmt::Write>(&self, f: &mut fmt::Formatter<W>) -> fmt::Result {
        match self {
            RunFault::Anchor(fault) => fault.fmt(f),
            RunFault::Point(cause) => cause.fmt(f),
            RunFault::Limit => f.write_str("not read: limit reached"),
            RunFault::Memory => f.write_str("out of memory"),
        }
    }
}

impl Error for RunFault {}

// What a fault of the trust anchor is of the run: want of memory is that of the run.
fn of_anchor(fault: AnchorFault) -> RunFault
    ensures { IsFaultOf fault result }
{
    match fault {
        AnchorFault::TooManyUris => RunFault::Anchor(AnchorFault::TooManyUris),
        AnchorFault::NoFile(why) => RunFault::Anchor(AnchorFault::NoFile(why)),
        AnchorFault::OtherKey => RunFault::Anchor(AnchorFault::OtherKey),
        AnchorFault::Refused(error) => RunFault::Anchor(AnchorFault::Refused(error)),
        AnchorFault::Memory => RunFault::Memory,
    }
}

// The place of a trust anchor.
fn start_place(ca: ResourceCert) -> Place
    ensures { result ≡ start_place ca }
{
    let until = ca.cert().validity().not_after();
    Place {
        ca,
        until,
        listed_by: None,
    }
}

// What the refusal of a trust anchor's own point is of the run.
fn of_point(refusal: Refusal) -> RunFault
    ensures { result ≡ RunFault.Point refusal.cause }
{
    let Refusal { uri, cause, under } = refusal;
    drop(uri);
    drop(under);
    RunFault::Point(cause)
}

/// A validation run under a locator: from its trust anchor on each place is read once, as
/// `walk_from` does it, within this limit on work. What the places say is put to `found`; the
/// answer is the places that were met and left unread.
///
/// The trust anchor's own place is read first, and may take all of the limit. Where its point is
/// refused, or is more work than that, there is no run.
///
/// What is new in `found` is said by a place to which a chain of children leads from the trust
/// anchor. Where the copy does not change, something alike to all that such a place says is found,
/// unless some place on its chain has the key of one that was left unread.
pub fn run_under<R: Repository, C: Crypto>(
    alloc: Global,
    pass: &Pass<'_, R, C>,
    tal: &Tal,
    limit: u64,
    found: &mut Found,
) -> Result<Vec<Unread<Place>>, RunFault>
    ensures reads { IfOk result (λ unread. IsRunUnder
        (setting R.finds C.digest_of C.is_signed pass.now) tal.now limit found.old found.new
        unread.items) }
    ensures sound { OnOk result ((x : Finding) → Lists found.new x → Lists found.old x
        ⊎ IsSaidUnder (setting R.finds C.digest_of C.is_signed pass.now) tal.now x) }
    ensures complete { IfOk result (λ unread.
        TellsSteadily (setting R.finds C.digest_of C.is_signed pass.now)
        → FindsAllUnder (setting R.finds C.digest_of C.is_signed pass.now) tal.now found.new
        unread.items) }
    ensures refused { IfErr result
        (WhyNoRun (setting R.finds C.digest_of C.is_signed pass.now) tal.now limit) }
    ensures unchanged { IfErr result (λ fault. (fault ≡ Fault.Memory) ⊎ (found.new ≡ found.old)) }
{
    let ca = match anchor_of(alloc, pass, tal) {
        Err(fault) => return Err(of_anchor(fault)),
        Ok(ca) => ca,
    };
    let start = start_place(ca);
    match read_within(alloc, pass, &start, limit) {
        Err(_) => {
            drop(start);
            Err(RunFault::Memory)
        }
        Ok(PointReading::Cut) => {
            drop(start);
            Err(RunFault::Limit)
        }
        Ok(PointReading::Refused(refusal, _)) => {
            drop(start);
            Err(of_point(refusal))
        }
        Ok(PointReading::Told(told)) => match walk_from(alloc, pass, start, told, limit, found) {
            Err(_) => Err(RunFault::Memory),
            Ok(unread) => Ok(unread),
        },
    }
}

// The CA that listed a place, by the URI of its manifest; a trust anchor stands for itself.
fn lister_of(place: &Place) -> Option<&Rsync>
    ensures { option_map (λ uri. uri.now) result ≡ lister_of place.now }
{
    match &place.listed_by {
        Some(uri) => Some(uri),
        None => place.ca.cert().rpki_manifest(),
    }
}

// So many places of each CA were left unread, by the URI of its manifest.
type ByUri = BTreeMap<String, u64>;

// So many were left for the limit, and so many for want of memory.
#[derive(Drop)]
struct Counts {
    limit: ByUri,
    memory: ByUri,
}

// Whether two places were left for the same.
fn is_same(why: Why, other: Why) -> bool
    ensures { result ≡ is_same why other }
{
    match why {
        Why::Limit => match other {
            Why::Limit => true,
            Why::Memory => false,
        },
        Why::Memory => match other {
            Why::Limit => false,
            Why::Memory => true,
        },
    }
}

// How many there are of a CA.
fn count_for(counts: &ByUri, uri: &Rsync) -> u64
    ensures { result ≡ count_for counts.now uri.now }
{
    match counts.get(uri.as_str()) {
        None => 0,
        Some(count) => *count,
    }
}

// Counts one more of a CA.
fn count_one(alloc: Global, uri: &Rsync, counts: &mut ByUri) -> Result<(), AllocError>
    requires { count_for counts.now uri.now + 1 < 2 ^ 64 }
    ensures { OnOk result ((other : List ℕ) → count_for counts.new other
        ≡ count_for counts.old other + cond (bytes_eq uri.now other) 1 0) }
{
    let key = String::from_str(alloc, uri.as_str())?;
    let next = count_for(counts, uri) + 1;
    counts.insert(key, next)?;
    Ok(())
}

// Counts a place, if it was left unread for this.
fn count_left(
    alloc: Global,
    left: &Unread<Place>,
    why: Why,
    counts: &mut ByUri,
) -> Result<(), AllocError>
    requires { (uri : List ℕ) → count_for counts.now uri + 1 < 2 ^ 64 }
    ensures { OnOk result ((uri : List ℕ) → count_for counts.new uri
        ≡ count_for counts.old uri + cond (is_left why uri left.now) 1 0) }
{
    if !is_same(left.why, why) {
        return Ok(());
    }
    match lister_of(&left.place) {
        None => Ok(()),
        Some(uri) => count_one(alloc, uri, counts),
    }
}

// Counts the places that were left unread for this, of each CA.
fn count_why(alloc: Global, unread: &[Unread<Place>], why: Why) -> Result<ByUri, AllocError>
    ensures { IfOk result (λ counts. (uri : List ℕ)
        → count_for counts uri ≡ left_under unread.now why uri) }
{
    let mut counts = BTreeMap::new(alloc);
    for left in unread {
        count_left(alloc, left, why, &mut counts)?;
    }
    Ok(counts)
}

// Counts the places that were left unread, of each CA.
fn count_all(alloc: Global, unread: &[Unread<Place>]) -> Result<Counts, AllocError>
    ensures { IfOk result (λ counts. (why : Reason) (uri : List ℕ)
        → counted counts why uri ≡ left_under unread.now why uri) }
{
    let limit = count_why(alloc, unread, Why::Limit)?;
    let memory = count_why(alloc, unread, Why::Memory)?;
    Ok(Counts { limit, memory })
}

// Why places of a CA are refused, of which one was left for this.
fn cause_for(counts: &Counts, uri: &Rsync, why: Why) -> Cause
    ensures { result ≡ left_cause why (counted counts.now why uri.now) }
{
    match why {
        Why::Limit => Cause::Limit(count_for(&counts.limit, uri)),
        Why::Memory => Cause::Memory(count_for(&counts.memory, uri)),
    }
}

// Refuses a place that was left unread.
fn refuse_left(
    alloc: Global,
    counts: &Counts,
    left: &Unread<Place>,
    found: &mut Found,
) -> Result<(), AllocError>
    ensures { OnOk result
        (KeepsAll (IsRefusalFor (counted counts.now) left.now) found.old found.new) }
{
    match lister_of(&left.place) {
        None => Ok(()),
        Some(manifest) => {
            let (uri, under) = (manifest.clone()?, manifest.clone()?);
            let cause = cause_for(counts, manifest, left.why);
            found.refuse(alloc, Refusal { uri, cause, under })
        }
    }
}

/// Puts to what was found, for each CA that listed places which were left unread, how many were
/// left for the limit, and how many for want of memory. A trust anchor stands for itself. Where
/// memory runs out nothing is known of `found`.
pub fn refuse_unread(
    alloc: Global,
    unread: &[Unread<Place>],
    found: &mut Found,
) -> Result<(), AllocError>
    ensures { OnOk result (KeepsAll (IsLeftRefusal unread.now) found.old found.new) }
{
    let counts = count_all(alloc, unread)?;
    for left in unread {
        refuse_left(alloc, &counts, left, found)?;
    }
    Ok(())
}
