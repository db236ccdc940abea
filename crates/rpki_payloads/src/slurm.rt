//! Local exceptions (RFC 8416, and draft-ietf-sidrops-aspa-slurm for ASPAs): filters that remove
//! payloads, and assertions that add some.

ghost use Rattle.std.specs.Prelude.{◌≡◌, IfOk, OnOk};
ghost use Rattle.std.specs.List.{list_any};
ghost use Rattle.rpki_payloads.specs.Slurm.{drops_origin, drops_provider, drops, drops_customer};
ghost use Rattle.rpki_payloads.specs.Slurm.{asserted};
ghost use Rattle.rpki_payloads.specs.Slurm.Said.{IsExceptionsText};

mod misfit;
mod prefix;
mod said;
mod several;
mod text;

pub use misfit::Misfit;
pub use prefix::SlurmPrefix;
use rpki_relying_party::{Origin, Provider};
use said::Said;
use serde_json::Value;
pub use several::{are_apart, overlap};
use std::alloc::Global;
use std::fmt;
pub use text::{
    AspaAssertion, AspaFilter, Assertions, Exceptions, Filters, NoPrefix, PrefixAssertion,
    PrefixFilter, RouterKeyAssertion, RouterKeyFilter,
};

/// Why a file is refused whole.
#[derive(Clone, Copy)]
pub enum SlurmError {
    /// It is no text of local exceptions, by its line and column; or memory ran out.
    Text(serde_json::Error),
    /// What a member says is refused.
    Misfit(Misfit),
}

impl fmt::Display for SlurmError {
    fn fmt<W: fmt::Write>(&self, f: &mut fmt::Formatter<W>) -> fmt::Result {
        match self {
            SlurmError::Text(error) => error.fmt(f),
            SlurmError::Misfit(misfit) => misfit.fmt(f),
        }
    }
}

/// The local exceptions in a file.
///
/// Serde reads them, and says where it refuses a text: an unknown member, one that is missing, or
/// one that stands twice. What it read is then held against the JSON value of the text.
pub fn read_exceptions(alloc: Global, octets: &[u8]) -> Result<Exceptions, SlurmError>
    ensures { IfOk result (IsExceptionsText octets.now) }
{
    let file: Exceptions = match serde_json::from_slice(alloc, octets) {
        Err(error) => return Err(SlurmError::Text(error)),
        Ok(file) => file,
    };
    match check_exceptions(alloc, octets, &file) {
        Ok(()) => Ok(file),
        Err(error) => {
            drop(file);
            Err(error)
        }
    }
}

// Whether the octets say these exceptions, and each of them can have an effect.
fn check_exceptions(alloc: Global, octets: &[u8], file: &Exceptions) -> Result<(), SlurmError>
    ensures { OnOk result (IsExceptionsText octets.now file.now) }
{
    if let Some(misfit) = file.misfit() {
        return Err(SlurmError::Misfit(misfit));
    }
    match Value::from_slice(alloc, octets) {
        Err(error) => Err(SlurmError::Text(error)),
        Ok(value) => {
            let is_said = file.is_said(&value);
            drop(value);
            if is_said {
                Ok(())
            } else {
                Err(SlurmError::Misfit(Misfit::Reading))
            }
        }
    }
}

impl PrefixFilter {
    /// Whether the filter removes an origin: each of the prefix and the AS that it gives matches
    /// (RFC 8416, section 3.3.1).
    pub fn drops(&self, origin: &Origin) -> bool
        ensures { result ≡ drops self.now origin.now }
    {
        let in_prefix = match &self.prefix {
            None => true,
            Some(prefix) => prefix.covers(origin),
        };
        let of_asn = match self.asn {
            None => true,
            Some(asn) => asn == origin.asn,
        };
        in_prefix && of_asn
    }
}

impl AspaFilter {
    /// Whether the filter removes a provider: that of its customer.
    pub fn drops(&self, provider: &Provider) -> bool
        ensures { result ≡ drops_customer self.now provider.now }
    {
        self.customer_asn == provider.customer
    }
}

/// Whether a filter of any of the files removes an origin.
pub fn drops_origin(exceptions: &[Exceptions], origin: &Origin) -> bool
    ensures { result ≡ drops_origin exceptions.now origin.now }
{
    exceptions.iter().any(|file| file.drops_origin(origin))
}

/// Whether a filter of any of the files removes a provider.
pub fn drops_provider(exceptions: &[Exceptions], provider: &Provider) -> bool
    ensures { result ≡ drops_provider exceptions.now provider.now }
{
    exceptions.iter().any(|file| file.drops_provider(provider))
}

impl Exceptions {
    // Whether a filter removes an origin.
    fn drops_origin(&self, origin: &Origin) -> bool
        ensures { result ≡ list_any (λ f. drops f origin.now)
            self.now.filters.prefix_filters.items }
    {
        let filters = &self.filters.prefix_filters;
        filters.iter().any(|filter| filter.drops(origin))
    }

    // Whether a filter removes a provider.
    fn drops_provider(&self, provider: &Provider) -> bool
        ensures { result ≡ list_any (λ f. drops_customer f provider.now)
            self.now.filters.aspa_filters.items }
    {
        let filters = &self.filters.aspa_filters;
        filters.iter().any(|filter| filter.drops(provider))
    }
}

impl PrefixAssertion {
    /// The origin that is asserted.
    pub fn origin(&self) -> Origin
        ensures { result ≡ asserted self.now }
    {
        let SlurmPrefix { family, addr, len } = self.prefix;
        Origin {
            family,
            addr,
            len,
            max_len: self.max_len.unwrap_or(len),
            asn: self.asn,
        }
    }
}
