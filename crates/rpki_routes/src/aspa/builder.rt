//! Building contents of Autonomous System Provider Authorizations (ASPAs;
//! draft-ietf-sidrops-aspa-profile-15, section 3).

mod signing;

ghost use Rattle.std.specs.Prelude.{◌≡◌, ◌↔◌, [], All, Contains, Err, IsTrue, None, Some, false};
ghost use Rattle.std.specs.Prelude.{IfErr, IfOk, IfSome, OnErr, OnOk, codes};
ghost use Rattle.std.specs.List.Sorted.{IsNonDecreasing, IsPermutation, IsStrictlyIncreasing};
ghost use Rattle.rpki_faults.specs.Checks.{AllHold, AnswersFirstFault};
ghost use Rattle.rpki_resources.specs.As.{IsAsn};
ghost use Rattle.rpki_routes.specs.Aspa.{IsAttestation};
ghost use Rattle.rpki_routes.specs.Aspa.Built.{HasTwice, IsAdded, IsPlace, aspa_checks};
ghost use Rattle.rpki_routes.specs.Aspa.Form.{AspaForm};
ghost use Rattle.rpki_routes.specs.Aspa.Written.{aspa_octets};
ghost use Rattle.rpki_lists.specs.Built.{IsNotBuilt};

use crate::aspa::AsProviderAttestation;
use crate::aspa::providers::ProviderAsSet;
use rpki_basics::{BuildError, BuildFault, ProviderLimit};
use rpki_resources::Asn;
use std::alloc::Global;
use std::error::Error;
use std::fmt;
use std::marker::Model;

/// A provider is named twice.
#[derive(Clone, Copy, Debug, PartialEq, Eq)]
pub struct DuplicateProviderAs;

impl fmt::Display for DuplicateProviderAs {
    ghost output = { λ _. Some (codes "provider as set contains duplicate") };

    fn fmt<W: fmt::Write>(&self, f: &mut fmt::Formatter<W>) -> fmt::Result {
        f.write_str("provider as set contains duplicate")
    }
}

impl Error for DuplicateProviderAs {}

/// Why a provider is not added.
#[derive(Clone, Copy, Debug, PartialEq, Eq)]
pub enum AddProviderError {
    /// It is a provider already.
    Duplicate,
    /// Out of memory.
    Memory,
}

impl fmt::Display for AddProviderError {
    ghost use Rattle.std.specs.Prelude.{Some};
    ghost use Rattle.rpki_routes.specs.Aspa.Built.{add_text};

    ghost output = { λ e. Some (add_text e) };

    fn fmt<W: fmt::Write>(&self, f: &mut fmt::Formatter<W>) -> fmt::Result {
        f.write_str(match self {
            AddProviderError::Duplicate => "provider as set contains duplicate",
            AddProviderError::Memory => "out of memory",
        })
    }
}

impl Error for AddProviderError {}

/// A builder of an ASPA content: a customer and its providers, in ascending order.
#[derive(Drop)]
pub struct AspaBuilder {
    customer: Asn,
    providers: Vec<Asn>,
}

impl Model for AspaBuilder {
    ghost use Rattle.std.specs.List.Sorted.{IsStrictlyIncreasing};
    ghost use Rattle.rpki_routes.specs.Aspa.{Aspa};

    ghost Value = { Aspa };

    ghost view = { λ b. record { customer = b.customer; providers = b.providers.items } };

    ghost invariant = { λ b. IsStrictlyIncreasing b.providers.items };
}

impl AspaBuilder {
    /// A builder for this customer with these providers, which may come in any order. Refuses where
    /// one of them stands twice.
    pub fn new(customer: Asn, providers: Vec<Asn>) -> Result<AspaBuilder, DuplicateProviderAs>
        ensures customer { IfOk result (λ b. b.customer ≡ customer) }
        ensures providers { IfOk result (λ b. IsPermutation providers.items b.providers) }
        ensures ascending { IfOk result (λ b. IsStrictlyIncreasing b.providers) }
        ensures duplicate { OnErr result (HasTwice providers.items) }
    {
        let mut providers = providers;
        providers.sort_unstable();
        if has_twice(&providers) {
            Err(DuplicateProviderAs)
        } else {
            Ok(AspaBuilder {
                customer,
                providers,
            })
        }
    }

    /// A builder for this customer, without providers.
    pub fn empty(alloc: Global, customer: Asn) -> AspaBuilder
        ensures { result ≡ record { customer = customer; providers = [] } }
    {
        AspaBuilder {
            customer,
            providers: Vec::new(alloc),
        }
    }

    /// Adds a provider. Refuses by `Duplicate` where it is one already, or by `Memory`; the builder
    /// is then as it was.
    #[tactic(auto, using(crate::proofs::Ascending::added_at))]
    pub fn add_provider(&mut self, provider: Asn) -> Result<(), AddProviderError>
        ensures customer { self.new.customer ≡ self.old.customer }
        ensures added { OnOk result (IsAdded provider self.old.providers self.new.providers) }
        ensures duplicate { result ≡ Err AddProviderError.Duplicate
            → Contains self.old.providers provider }
        ensures unchanged { OnErr result (self.new ≡ self.old) }
    {
        match self.place_for(provider) {
            None => Err(AddProviderError::Duplicate),
            Some(place) => match self.providers.insert(place, provider) {
                Ok(()) => Ok(()),
                Err(_) => Err(AddProviderError::Memory),
            },
        }
    }

    /// The content (section 3 of the profile), with at most as many providers as the limit says.
    /// Refuses by the first of these: `CustomerAs0`, `Empty`, `TooMany`, `CustomerInSet`,
    /// `As0NotAlone`; and by `Memory`, and never by `TooLong`.
    pub fn into_attestation(self, limit: ProviderLimit) -> Result<AsProviderAttestation, BuildError>
        ensures built { IfOk result (λ a. a ≡ self) }
        ensures within { OnOk result (IsAttestation limit self) }
        ensures written { OnOk result (AspaForm limit (aspa_octets self) self) }
        ensures refused { IfErr result (IsNotBuilt (aspa_checks limit self) ⊥) }
    {
        self.check(limit)?;
        self.is_attestation(limit);
        let alloc = *self.providers.allocator();
        let providers = ProviderAsSet::of(alloc, &self.providers)?;
        Ok(AsProviderAttestation {
            customer: self.customer,
            providers,
        })
    }

    // Where a number is to be put among the providers, if it is none of them.
    fn place_for(&self, number: Asn) -> Option<usize>
        ensures place { IfSome result (IsPlace number self.now.providers) }
        ensures none { result ≡ None → Contains self.now.providers number }
    {
        match self.providers.binary_search(&number) {
            Ok(_) => None,
            Err(place) => Some(place),
        }
    }

    // Whether a number is among the providers.
    fn has(&self, number: Asn) -> bool
        ensures { IsTrue result ↔ Contains self.now.providers number }
    {
        self.providers.contains(&number)
    }

    // The first thing that is wrong with the content, if anything is.
    fn check(&self, limit: ProviderLimit) -> Result<(), BuildFault>
        ensures { AnswersFirstFault (aspa_checks limit self.now) result }
    {
        if self.customer.into_u32() == 0 {
            return Err(BuildFault::CustomerAs0);
        }
        if self.providers.is_empty() {
            return Err(BuildFault::Empty);
        }
        if self.providers.len() > limit.most() as usize {
            return Err(BuildFault::TooMany);
        }
        if self.has(self.customer) {
            return Err(BuildFault::CustomerInSet);
        }
        if self.has(Asn::from_u32(0)) && self.providers.len() != 1 {
            return Err(BuildFault::As0NotAlone);
        }
        Ok(())
    }

    // What passes the checks is an attestation.
    #[tactic(auto, using(crate::proofs::Attestations::Built::attested))]
    fn is_attestation(&self, limit: ProviderLimit)
        requires { AllHold (aspa_checks limit self.now) }
        ensures { IsAttestation limit self.now }
    {
        is_number(self.customer);
        are_numbers(&self.providers);
    }
}

// Whether one of the numbers, which don't fall, stands twice.
fn has_twice(numbers: &[Asn]) -> bool
    requires { IsNonDecreasing numbers.now }
    ensures twice { IsTrue result → HasTwice numbers.now }
    ensures once { result ≡ false → IsStrictlyIncreasing numbers.now }
{
    for i in 1..numbers.len() {
        if numbers[i - 1] == numbers[i] {
            return true;
        }
    }
    false
}

// The number of an autonomous system is below 2^32.
fn is_number(number: Asn)
    ensures { IsAsn number }
{
    let _ = number.into_u32();
}

// So is each of ascending ones, since the last one is.
#[tactic(auto, using(crate::proofs::Ascending::below_last))]
fn are_numbers(numbers: &[Asn])
    requires { IsStrictlyIncreasing numbers.now }
    ensures { All IsAsn numbers.now }
{
    if !numbers.is_empty() {
        is_number(numbers[numbers.len() - 1]);
    }
}
