//! Contents of AS provider attestations that are built.

use crate::contents::{Answer, Row, are_so, is_built};
use rpki_basics::ProviderLimit;
use rpki_resources::Asn;
use rpki_routes::{AddProviderError, AspaBuilder, DuplicateProviderAs};
use std::alloc::{AllocError, Global};

/// AS64496 with AS64497, AS64498 and AS64499.
const THREE: &[u8] = b"\x30\x1B\xA0\x03\x02\x01\x01\x02\x03\x00\xFB\xF0\x30\x0F\x02\x03\x00\
    \xFB\xF1\x02\x03\x00\xFB\xF2\x02\x03\x00\xFB\xF3";

/// Customers and their providers, in the order in which they are added, how many of these are
/// there already, and what is written of the others, or why they are refused.
struct Built(u32, &'static [u32], usize, Answer<'static>);

static ROWS: [Built; 14] = [
    Built(64496, &[64498, 64497, 64499], 0, Ok(THREE)),
    // AS0 alone.
    Built(
        1,
        &[0],
        0,
        Ok(b"\x30\x0D\xA0\x03\x02\x01\x01\x02\x01\x01\x30\x03\x02\x01\x00"),
    ),
    Built(0, &[], 0, Err("customer is AS0")),
    Built(0, &[0], 0, Err("customer is AS0")),
    Built(1, &[], 0, Err("no provider")),
    Built(5, &[5], 0, Err("customer is its own provider")),
    Built(5, &[0, 5], 0, Err("customer is its own provider")),
    Built(5, &[7, 5, 3], 0, Err("customer is its own provider")),
    Built(1, &[0, 2], 0, Err("AS0 beside another provider")),
    Built(1, &[2, 0], 0, Err("AS0 beside another provider")),
    // A provider twice.
    Built(64496, &[64498, 64497, 64499, 64497], 1, Ok(THREE)),
    Built(
        1,
        &[2, 2],
        1,
        Ok(b"\x30\x0D\xA0\x03\x02\x01\x01\x02\x01\x01\x30\x03\x02\x01\x02"),
    ),
    Built(
        3,
        &[2, 1, 2],
        1,
        Ok(b"\x30\x10\xA0\x03\x02\x01\x01\x02\x01\x03\x30\x06\x02\x01\x01\x02\x01\x02"),
    ),
    Built(
        4,
        &[3, 2, 1, 3, 2],
        2,
        Ok(
            b"\x30\x13\xA0\x03\x02\x01\x01\x02\x01\x04\x30\x09\x02\x01\x01\x02\x01\x02\x02\x01\
            \x03",
        ),
    ),
];

/// Adds providers, and answers how many were there already.
fn add_each(to: &mut AspaBuilder, providers: &[u32]) -> Result<usize, AllocError> {
    let mut count = 0usize;
    for provider in providers {
        match to.add_provider(Asn::from_u32(*provider)) {
            Ok(()) => {}
            Err(AddProviderError::Duplicate) => count = count.saturating_add(1),
            Err(AddProviderError::Memory) => return Err(AllocError),
        }
    }
    Ok(count)
}

/// Whether a content to which providers are added is built so.
fn is_added(
    alloc: Global,
    customer: u32,
    providers: &[u32],
    count: usize,
    wanted: Answer<'_>,
) -> Result<bool, AllocError> {
    let mut builder = AspaBuilder::empty(alloc, Asn::from_u32(customer));
    let added = add_each(&mut builder, providers);
    let built = builder.into_attestation(ProviderLimit::Narrow);
    let is_built = is_built(alloc, built, wanted);
    Ok(added? == count && is_built?)
}

/// These providers.
fn numbers(alloc: Global, providers: &[u32]) -> Result<Vec<Asn>, AllocError> {
    let mut numbers = Vec::new(alloc);
    for provider in providers {
        numbers.push(Asn::from_u32(*provider))?;
    }
    Ok(numbers)
}

/// Whether a content of these providers is built so, or whether they are refused for some that is
/// there already.
fn is_made(
    alloc: Global,
    customer: u32,
    providers: Vec<Asn>,
    limit: ProviderLimit,
    wanted: Option<Answer<'_>>,
) -> Result<bool, AllocError> {
    match (AspaBuilder::new(Asn::from_u32(customer), providers), wanted) {
        (Ok(builder), Some(wanted)) => is_built(alloc, builder.into_attestation(limit), wanted),
        (Ok(builder), None) => {
            drop(builder);
            Ok(false)
        }
        (Err(DuplicateProviderAs), wanted) => Ok(wanted.is_none()),
    }
}

impl Row for Built {
    fn is_so(&self, alloc: Global) -> Result<bool, AllocError> {
        let Built(customer, providers, count, wanted) = self;
        let made = if *count == 0 { Some(*wanted) } else { None };
        let numbers = numbers(alloc, providers)?;
        Ok(
            is_made(alloc, *customer, numbers, ProviderLimit::Wide, made)?
                && is_added(alloc, *customer, providers, *count, *wanted)?,
        )
    }
}

/// The customer AS1 among 10,001 providers.
fn is_many(alloc: Global, limit: ProviderLimit, why: &str) -> Result<bool, AllocError> {
    let mut numbers = Vec::new(alloc);
    for number in 1..10_002u32 {
        numbers.push(Asn::from_u32(number))?;
    }
    is_made(alloc, 1, numbers, limit, Some(Err(why)))
}

/// Whether the number of providers is told before the customer among them.
fn are_many(alloc: Global) -> Result<bool, AllocError> {
    Ok(
        is_many(alloc, ProviderLimit::Narrow, "too many providers")?
            && is_many(alloc, ProviderLimit::Wide, "customer is its own provider")?,
    )
}

/// Whether the texts of a provider that is there already are right.
fn is_told(alloc: Global) -> Result<bool, AllocError> {
    let (own, added) = (DuplicateProviderAs, AddProviderError::Duplicate);
    let text = format!(in alloc; "{own}; {added}")?;
    Ok(text.as_str() == "provider as set contains duplicate; provider as set contains duplicate")
}

#[test]
fn attestations_are_built(rt: HostRuntime) -> Result<(), AllocError> {
    let alloc = rt.alloc();
    assert!(rt; are_so(alloc, &ROWS)? && are_many(alloc)? && is_told(alloc)?);
    Ok(())
}
