//! What of local exceptions is refused though each member has its type.

ghost use Rattle.std.specs.Prelude.{◌≡◌, Bool, is_none};
ghost use Rattle.std.specs.List.{list_all};
ghost use Rattle.rpki_payloads.specs.Slurm.Valid.{are_valid, filters_keys, filters_origins};
ghost use Rattle.rpki_payloads.specs.Slurm.Valid.{has_max_len, has_provider, has_version};

use crate::slurm::prefix::most_bits;
use crate::slurm::text::{
    AspaAssertion, Assertions, Exceptions, Filters, PrefixAssertion, PrefixFilter, RouterKeyFilter,
};
use std::fmt;

/// What of a file is refused though each member has its type: the version, or an item of a list, by
/// its place in it; or that its text reads as something else.
#[derive(Clone, Copy, Debug, PartialEq, Eq)]
pub enum Misfit {
    Version,
    Filter(usize),
    KeyFilter(usize),
    Assertion(usize),
    Aspa(usize),
    Reading,
}

impl fmt::Display for Misfit {
    fn fmt<W: fmt::Write>(&self, f: &mut fmt::Formatter<W>) -> fmt::Result {
        match self {
            Misfit::Version => f.write_str("slurmVersion is not 1, or 2 where there are ASPAs"),
            Misfit::Filter(at) => write!(f, "prefixFilters[{at}] has no prefix and no asn"),
            Misfit::KeyFilter(at) => write!(f, "bgpsecFilters[{at}] has no asn and no SKI"),
            Misfit::Assertion(at) => write!(
                f,
                "prefixAssertions[{at}] has another maxPrefixLength"
            ),
            Misfit::Aspa(at) => write!(f, "aspaAssertions[{at}] has no provider"),
            Misfit::Reading => f.write_str("its text reads as something else"),
        }
    }
}

// What a file may have as an item of a list.
trait Item {
    // Whether a file may have it.
    ghost valid: { Self → Bool };

    /// Whether a file may have it.
    fn is_valid(&self) -> bool
        ensures { result ≡ valid self.now };
}

// The place of the first item that a file may not have.
fn misfit_in<T: Item>(items: &[T]) -> Option<usize>
    ensures { is_none result ≡ list_all T.valid items.now }
{
    items.iter().position(|item| !item.is_valid())
}

impl Exceptions {
    /// What of the file is refused, if anything is.
    pub fn misfit(&self) -> Option<Misfit>
        ensures { is_none result ≡ are_valid self.now }
    {
        if !self.has_version() {
            return Some(Misfit::Version);
        }
        if let Some(at) = misfit_in(&self.filters.prefix_filters) {
            return Some(Misfit::Filter(at));
        }
        if let Some(at) = misfit_in(&self.filters.bgpsec_filters) {
            return Some(Misfit::KeyFilter(at));
        }
        if let Some(at) = misfit_in(&self.assertions.prefix_assertions) {
            return Some(Misfit::Assertion(at));
        }
        misfit_in(&self.assertions.aspa_assertions).map(Misfit::Aspa)
    }

    // Whether the version is 2, or 1 where there are no ASPAs.
    fn has_version(&self) -> bool
        ensures { result ≡ has_version self.now }
    {
        self.version == 2
            || self.version == 1
                && self.filters.aspa_filters.is_empty()
                && self.assertions.aspa_assertions.is_empty()
    }
}

impl Item for PrefixFilter {
    ghost valid = { filters_origins };

    fn is_valid(&self) -> bool {
        self.prefix.is_some() || self.asn.is_some()
    }
}

impl Item for RouterKeyFilter {
    ghost valid = { filters_keys };

    fn is_valid(&self) -> bool {
        self.asn.is_some() || self.key.is_some()
    }
}

impl Item for PrefixAssertion {
    ghost valid = { has_max_len };

    fn is_valid(&self) -> bool {
        match self.max_len {
            None => true,
            Some(max) => self.prefix.len <= max && max <= most_bits(self.prefix.family),
        }
    }
}

impl Item for AspaAssertion {
    ghost valid = { has_provider };

    fn is_valid(&self) -> bool {
        !self.provider_asns.is_empty()
    }
}
