//! The providers of a customer.

ghost use Rattle.std.specs.Prelude.{◌≡◌, ◌↔◌, length, IsTrue, IfErr, IfOk, IsSome, false};
ghost use Rattle.rpki_der.specs.Read.Reads.{Reads};
ghost use Rattle.rpki_basics.specs.declared.limits.ProviderLimit.TheVariants.{Wide};
ghost use Rattle.rpki_routes.specs.Aspa.{IsProviderSet, AreProviders};
ghost use Rattle.rpki_routes.specs.Aspa.Read.{in_order_at, providers_at, follows, may_come};

use crate::faults;
use rpki_basics::{BuildError, ProviderLimit};
use rpki_der::encode::each;
use rpki_der::{Constructed, DecodeError};
use rpki_lists::{
    EntryIter, EntryKind, EntryList, Refused, Rule, SliceEntry, SliceReader, list_of, octets_of,
    take_list,
};
use rpki_resources::{Asn, SmallAsnSet};
use std::alloc::{AllocError, Global};
use std::marker::{Model, PhantomData};

/// Providers as entries of a list: numbers.
#[derive(Debug, Drop)]
pub struct Providers;

impl EntryKind for Providers {
    ghost use Rattle.rpki_der.specs.declared.mode.Mode.TheVariants.{Der};
    ghost use Rattle.rpki_der.specs.Tags.{INTEGER};
    ghost use Rattle.rpki_der.specs.Read.Parse.{u32_at, unsigned_of};
    ghost use Rattle.rpki_der.proofs.Reading.Many.{primitive-shorter};

    type Shown = u32;

    ghost entry_at = { u32_at };

    ghost shrinks = { λ b n r e. primitive-shorter INTEGER (unsigned_of 4) Der b n r e };

    fn skip(reader: &mut SliceReader<'_>) -> Result<(), Refused> {
        match reader.take_u32() {
            Some(_) => Ok(()),
            None => Err(Refused::Malformed),
        }
    }
}

/// Providers in slices of a lifetime.
#[derive(Debug, Drop)]
pub struct ProvidersIn<'a> {
    octets: PhantomData<&'a [u8]>,
}

impl<'a> SliceEntry for ProvidersIn<'a> {
    type EntryKind = Providers;

    type Item = Asn;

    type Reader = SliceReader<'a>;

    ghost slice = { λ r. r };

    ghost shown = { λ n. n };

    fn is_end(reader: &SliceReader<'a>) -> bool {
        reader.is_empty()
    }

    fn read(reader: &mut SliceReader<'a>) -> Asn {
        Asn::from_u32(reader.known_u32())
    }

    fn again(reader: &SliceReader<'a>) -> SliceReader<'a> {
        reader.again()
    }
}

/// The providers that are still to come, in ascending order.
pub type ProviderAsIter<'a> = EntryIter<ProvidersIn<'a>>;

/// The providers of a customer, in ascending order: at least one, and AS0 only alone. They are kept
/// as their octets.
#[derive(Debug, Drop)]
pub struct ProviderAsSet {
    numbers: EntryList<Providers>,
}

impl Model for ProviderAsSet {
    ghost use Rattle.std.specs.Prelude.{ℕ, List};
    ghost use Rattle.rpki_basics.specs.declared.limits.ProviderLimit.TheVariants.{Wide};
    ghost use Rattle.rpki_routes.specs.Aspa.{IsProviderSet};

    ghost Value = { List ℕ };

    ghost view = { λ s. s.numbers };

    ghost invariant = { λ s. IsProviderSet Wide s.numbers };
}

impl Clone for ProviderAsSet {
    ghost is_clone = { λ s copy. copy ≡ s };

    fn clone(&self) -> Result<ProviderAsSet, AllocError> {
        Ok(ProviderAsSet {
            numbers: self.numbers.clone()?,
        })
    }
}

impl ProviderAsSet {
    // The set of these providers, whose octets are written. Refuses by `Memory` alone.
    pub(crate) fn of(alloc: Global, providers: &[Asn]) -> Result<ProviderAsSet, BuildError>
        requires { IsProviderSet Wide providers.now }
        ensures set { IfOk result (λ set. set ≡ providers.now) }
        ensures refused { IfErr result (λ e. e ≡ BuildError.Memory) }
    {
        let octets = octets_of(alloc, &each(providers))?;
        let numbers = list_of(octets)?;
        Ok(ProviderAsSet { numbers })
    }

    /// How many providers there are.
    pub fn len(&self) -> usize
        ensures count { result ≡ length self.now }
        ensures set { IsProviderSet Wide self.now }
    {
        self.numbers.len()
    }

    /// Whether there is no provider, which is never so.
    pub fn is_empty(&self) -> bool
        ensures count { IsTrue result ↔ (length self.now ≡ 0) }
        ensures set { IsProviderSet Wide self.now }
    {
        self.numbers.is_empty()
    }

    /// The providers in ascending order.
    pub fn iter(&self) -> ProviderAsIter<'_>
        ensures providers { result ≡ self.now }
        ensures set { IsProviderSet Wide self.now }
    {
        EntryIter::of(self.numbers.reader())
    }

    /// The providers as a set of their own. Refuses where memory runs out.
    pub fn to_set(&self, alloc: Global) -> Result<SmallAsnSet, AllocError>
        ensures { IfOk result (λ set. set ≡ self.now) }
    {
        let mut numbers = Vec::with_capacity(alloc, self.len())?;
        for number in self.iter() {
            numbers.push(number)?;
        }
        Ok(SmallAsnSet::from_ascending(numbers))
    }
}

/// What has been seen of the providers of a customer: how many, and the last one.
#[derive(Drop)]
struct InOrder {
    limit: ProviderLimit,
    customer: u32,
    count: u32,
    last: Option<u32>,
}

impl InOrder {
    // Why a number can't follow the last one, if it can't.
    fn refusal_after(&self, next: u32) -> Option<&'static str>
        ensures { IsSome result ↔ (follows self.now.last next ≡ false) }
    {
        let last = self.last?;
        if next <= last {
            Some(faults::PROVIDERS_NOT_ASCENDING)
        } else if last == 0 {
            Some(faults::AS0_BESIDE_OTHERS)
        } else {
            None
        }
    }

    // Why a number can't be the next provider, if it can't.
    fn refusal_of(&self, next: u32) -> Option<&'static str>
        ensures { IsSome result ↔ (may_come self.now next ≡ false) }
    {
        let most = self.limit.most();
        if self.count >= most {
            Some(faults::TOO_MANY_PROVIDERS)
        } else if next == self.customer {
            Some(faults::CUSTOMER_AMONG_PROVIDERS)
        } else {
            self.refusal_after(next)
        }
    }
}

impl Rule for InOrder {
    ghost use Rattle.rpki_routes.specs.Aspa.Read.{after_provider};

    type EntryKind = Providers;

    ghost after = { after_provider };

    fn pass(&mut self, reader: &mut SliceReader<'_>) -> Result<(), Refused> {
        let Some(next) = reader.take_u32() else {
            return Err(Refused::Malformed);
        };
        if let Some(text) = self.refusal_of(next) {
            return Err(Refused::For(text));
        }
        self.count += 1;
        self.last = Some(next);
        Ok(())
    }
}

// Reads numbers that may be a customer's providers, a SEQUENCE.
#[tactic(auto, unfolding(crate::specs::Aspa::Read::in_order_at))]
fn take_in_order(
    cons: &mut Constructed<'_>,
    customer: u32,
    limit: ProviderLimit,
) -> Result<EntryList<Providers>, DecodeError>
    ensures { Reads (λ l. l) (in_order_at limit customer) cons.old result cons.new }
{
    take_list(
        cons,
        InOrder {
            limit,
            customer,
            count: 0,
            last: None,
        },
    )
}

// Reads them, if there is one at least.
#[tactic(auto, unfolding(rpki_der::specs::Read::Parse::tested))]
fn take_some(
    cons: &mut Constructed<'_>,
    customer: u32,
    limit: ProviderLimit,
) -> Result<EntryList<Providers>, DecodeError>
    ensures { Reads (λ l. l) (providers_at limit customer) cons.old result cons.new }
{
    let numbers = take_in_order(cons, customer, limit)?;
    if numbers.is_empty() {
        Err(cons.refuse_for(faults::NO_PROVIDERS))
    } else {
        Ok(numbers)
    }
}

/// Reads the providers of a customer, a SEQUENCE. Refuses by `TOO_MANY_PROVIDERS`,
/// `CUSTOMER_AMONG_PROVIDERS`, `PROVIDERS_NOT_ASCENDING`, `AS0_BESIDE_OTHERS` or `NO_PROVIDERS`, by
/// `Malformed` for all else, or by `Memory`.
pub fn take_providers(
    cons: &mut Constructed<'_>,
    customer: u32,
    limit: ProviderLimit,
) -> Result<ProviderAsSet, DecodeError>
    ensures reads { Reads (λ s. s) (providers_at limit customer) cons.old result cons.new }
    ensures providers { IfOk result (AreProviders limit customer) }
{
    cons.holds_octets();
    let numbers = take_some(cons, customer, limit)?;
    Ok(ProviderAsSet { numbers })
}
