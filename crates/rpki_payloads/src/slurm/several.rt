//! Several files of local exceptions, which must not speak of the same (RFC 8416, section 4.2).

ghost use Rattle.std.specs.Prelude.{◌≡◌, ◌==◌};
ghost use Rattle.std.specs.List.{list_any};
ghost use Rattle.rpki_payloads.specs.Slurm.{are_apart, overlap, prefixes_overlap, meets_any};
ghost use Rattle.rpki_payloads.specs.Slurm.{routers_overlap, has_router, meets, some_passes};
ghost use Rattle.rpki_payloads.specs.Slurm.{customers_overlap, has_customer};

use crate::slurm::{Exceptions, SlurmPrefix};

/// Whether no two of the files overlap. Each item of each file is held against each of the others:
/// all are the operator's own.
#[tactic(auto, using(crate::proofs::Apart::apart_at, crate::proofs::Apart::apart_end))]
pub fn are_apart(exceptions: &[Exceptions]) -> bool
    ensures { result ≡ are_apart exceptions.now }
{
    for i in 0..exceptions.len() {
        if overlaps_any(&exceptions[i], &exceptions[i + 1..]) {
            return false;
        }
    }
    true
}

// Whether a file overlaps one of the others.
fn overlaps_any(one: &Exceptions, others: &[Exceptions]) -> bool
    ensures { result ≡ list_any (overlap one.now) others.now }
{
    others.iter().any(|other| overlap(one, other))
}

/// Whether two files overlap: an address is in prefixes of both, or an AS stands among the router
/// keys, or as a customer, in both.
pub fn overlap(one: &Exceptions, other: &Exceptions) -> bool
    ensures { result ≡ overlap one.now other.now }
{
    prefixes_overlap(one, other) || routers_overlap(one, other) || customers_overlap(one, other)
}

// Whether an address is in prefixes of both.
fn prefixes_overlap(one: &Exceptions, other: &Exceptions) -> bool
    ensures { result ≡ prefixes_overlap one.now other.now }
{
    filters_prefix_of(one, other) || asserts_prefix_of(one, other)
}

// Whether an address in a filter of the one file is in a prefix of the other.
fn filters_prefix_of(one: &Exceptions, other: &Exceptions) -> bool
    ensures { result ≡ list_any (λ f. some_passes (λ p. meets_any p other.now) f.prefix)
        one.now.filters.prefix_filters.items }
{
    let filters = &one.filters.prefix_filters;
    filters.iter().any(|filter| match &filter.prefix {
        None => false,
        Some(prefix) => meets_any(prefix, other),
    })
}

// Whether an address in an assertion of the one file is in a prefix of the other.
fn asserts_prefix_of(one: &Exceptions, other: &Exceptions) -> bool
    ensures { result ≡ list_any (λ a. meets_any a.prefix other.now)
        one.now.assertions.prefix_assertions.items }
{
    let assertions = &one.assertions.prefix_assertions;
    assertions
        .iter()
        .any(|assertion| meets_any(&assertion.prefix, other))
}

// Whether an address of a prefix is in one of the file.
fn meets_any(prefix: &SlurmPrefix, file: &Exceptions) -> bool
    ensures { result ≡ meets_any prefix.now file.now }
{
    meets_filter(prefix, file) || meets_assertion(prefix, file)
}

// Whether an address of a prefix is in a filter of the file.
fn meets_filter(prefix: &SlurmPrefix, file: &Exceptions) -> bool
    ensures { result ≡ list_any (λ f. some_passes (meets prefix.now) f.prefix)
        file.now.filters.prefix_filters.items }
{
    let filters = &file.filters.prefix_filters;
    filters.iter().any(|filter| match &filter.prefix {
        None => false,
        Some(other) => prefix.meets(other),
    })
}

// Whether an address of a prefix is in an assertion of the file.
fn meets_assertion(prefix: &SlurmPrefix, file: &Exceptions) -> bool
    ensures { result ≡ list_any (λ a. meets prefix.now a.prefix)
        file.now.assertions.prefix_assertions.items }
{
    let assertions = &file.assertions.prefix_assertions;
    assertions
        .iter()
        .any(|assertion| prefix.meets(&assertion.prefix))
}

// Whether an AS has router keys in both.
fn routers_overlap(one: &Exceptions, other: &Exceptions) -> bool
    ensures { result ≡ routers_overlap one.now other.now }
{
    filters_router_of(one, other) || asserts_router_of(one, other)
}

// Whether an AS in a filter of the one file has router keys in the other.
fn filters_router_of(one: &Exceptions, other: &Exceptions) -> bool
    ensures { result ≡ list_any (λ f. some_passes (λ n. has_router n other.now) f.asn)
        one.now.filters.bgpsec_filters.items }
{
    let filters = &one.filters.bgpsec_filters;
    filters.iter().any(|filter| match filter.asn {
        None => false,
        Some(asn) => has_router(asn, other),
    })
}

// Whether an AS in an assertion of the one file has router keys in the other.
fn asserts_router_of(one: &Exceptions, other: &Exceptions) -> bool
    ensures { result ≡ list_any (λ a. has_router a.asn other.now)
        one.now.assertions.bgpsec_assertions.items }
{
    let assertions = &one.assertions.bgpsec_assertions;
    assertions
        .iter()
        .any(|assertion| has_router(assertion.asn, other))
}

// Whether an AS has router keys in the file.
fn has_router(asn: u32, file: &Exceptions) -> bool
    ensures { result ≡ has_router asn file.now }
{
    filters_router(asn, file) || asserts_router(asn, file)
}

// Whether an AS has router keys in a filter of the file.
fn filters_router(asn: u32, file: &Exceptions) -> bool
    ensures { result ≡ list_any (λ f. some_passes (λ m. asn == m) f.asn)
        file.now.filters.bgpsec_filters.items }
{
    let filters = &file.filters.bgpsec_filters;
    filters.iter().any(|filter| match filter.asn {
        None => false,
        Some(other) => asn == other,
    })
}

// Whether an AS has router keys in an assertion of the file.
fn asserts_router(asn: u32, file: &Exceptions) -> bool
    ensures { result ≡ list_any (λ a. asn == a.asn)
        file.now.assertions.bgpsec_assertions.items }
{
    let assertions = &file.assertions.bgpsec_assertions;
    assertions.iter().any(|assertion| asn == assertion.asn)
}

// Whether an AS is a customer in both.
fn customers_overlap(one: &Exceptions, other: &Exceptions) -> bool
    ensures { result ≡ customers_overlap one.now other.now }
{
    filters_customer_of(one, other) || asserts_customer_of(one, other)
}

// Whether a customer in a filter of the one file is one in the other.
fn filters_customer_of(one: &Exceptions, other: &Exceptions) -> bool
    ensures { result ≡ list_any (λ f. has_customer f.customer_asn other.now)
        one.now.filters.aspa_filters.items }
{
    let filters = &one.filters.aspa_filters;
    filters
        .iter()
        .any(|filter| has_customer(filter.customer_asn, other))
}

// Whether a customer in an assertion of the one file is one in the other.
fn asserts_customer_of(one: &Exceptions, other: &Exceptions) -> bool
    ensures { result ≡ list_any (λ a. has_customer a.customer_asn other.now)
        one.now.assertions.aspa_assertions.items }
{
    let assertions = &one.assertions.aspa_assertions;
    assertions
        .iter()
        .any(|assertion| has_customer(assertion.customer_asn, other))
}

// Whether an AS is a customer in the file.
fn has_customer(asn: u32, file: &Exceptions) -> bool
    ensures { result ≡ has_customer asn file.now }
{
    filters_customer(asn, file) || asserts_customer(asn, file)
}

// Whether an AS is a customer in a filter of the file.
fn filters_customer(asn: u32, file: &Exceptions) -> bool
    ensures { result ≡ list_any (λ f. asn == f.customer_asn)
        file.now.filters.aspa_filters.items }
{
    let filters = &file.filters.aspa_filters;
    filters.iter().any(|filter| asn == filter.customer_asn)
}

// Whether an AS is a customer in an assertion of the file.
fn asserts_customer(asn: u32, file: &Exceptions) -> bool
    ensures { result ≡ list_any (λ a. asn == a.customer_asn)
        file.now.assertions.aspa_assertions.items }
{
    let assertions = &file.assertions.aspa_assertions;
    assertions
        .iter()
        .any(|assertion| asn == assertion.customer_asn)
}
