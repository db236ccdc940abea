//! What several locators and local exceptions say of one payload.

use super::tree::moment;
use rpki_payloads::AnchorFindings;
use rpki_payloads::formats::{PayloadFormat, push_payloads};
use rpki_payloads::slurm::{Exceptions, SlurmError, read_exceptions};
use rpki_relying_party::{Found, Held, Origin, Payload, Provider};
use rpki_testing::{Fail, rsync};
use std::alloc::Global;

/// Under which name, until which year, and by which object.
type Said = (&'static str, u16, &'static str);

/// 192.0.2.0/24, 198.51.100.0/24-26 and 203.0.113.0/24, of AS65001.
const ONE: Origin = Origin {
    family: 1,
    addr: 0xc000_0200 << 96,
    len: 24,
    max_len: 24,
    asn: 65001,
};

const OTHER: Origin = Origin {
    family: 1,
    addr: 0xc633_6400 << 96,
    len: 24,
    max_len: 26,
    asn: 65001,
};

const THIRD: Origin = Origin {
    family: 1,
    addr: 0xcb00_7100 << 96,
    len: 24,
    max_len: 24,
    asn: 65001,
};

/// Origins that are found under two names.
static ORIGINS: [(Origin, Said); 5] = [
    (OTHER, ("a", 2036, "rsync://h/m/x.roa")),
    (ONE, ("a", 2030, "rsync://h/m/y.roa")),
    (ONE, ("b", 2031, "rsync://h/m/z.roa")),
    (OTHER, ("b", 2036, "rsync://h/m/w.roa")),
    (THIRD, ("b", 2028, "rsync://h/m/v.roa")),
];

/// Customers and providers, in the same form.
static PROVIDERS: [((u32, u32), Said); 4] = [
    ((65001, 65010), ("a", 2030, "rsync://h/m/x.asa")),
    ((65002, 65010), ("a", 2036, "rsync://h/m/y.asa")),
    ((65001, 65009), ("b", 2029, "rsync://h/m/z.asa")),
    ((65001, 65010), ("b", 2035, "rsync://h/m/w.asa")),
];

const NONE: &str = "{\"slurmVersion\":1,\"validationOutputFilters\":{\"prefixFilters\":[],\
    \"bgpsecFilters\":[]},\"locallyAddedAssertions\":{\"prefixAssertions\":[],\
    \"bgpsecAssertions\":[]}}";

/// Asserts what is found under both names, and a provider that no one says.
const ASSERTS: &str = "{\"slurmVersion\":2,\"validationOutputFilters\":{\"prefixFilters\":[],\
    \"bgpsecFilters\":[]},\"locallyAddedAssertions\":{\"prefixAssertions\":[\
    {\"asn\":65001,\"prefix\":\"192.0.2.0/24\"},{\"asn\":65001,\"prefix\":\"192.0.2.0/24\"}],\
    \"bgpsecAssertions\":[],\"aspaAssertions\":[\
    {\"customerAsn\":65001,\"providerAsns\":[65011,65010]}]}}";

/// Removes what it then asserts, and another prefix.
const FILTERS: &str = "{\"slurmVersion\":2,\"validationOutputFilters\":{\"prefixFilters\":[\
    {\"prefix\":\"192.0.2.0/23\"},{\"prefix\":\"203.0.113.0/24\",\"asn\":65001}],\
    \"bgpsecFilters\":[],\"aspaFilters\":[{\"customerAsn\":65001}]},\
    \"locallyAddedAssertions\":{\"prefixAssertions\":[\
    {\"asn\":65001,\"prefix\":\"192.0.2.0/24\"}],\"bgpsecAssertions\":[]}}";

/// After which exceptions, in which form, and what is printed.
static ROWS: [(&str, PayloadFormat, &str); 7] = [
    (
        NONE,
        PayloadFormat::Long,
        "origin AS65001 192.0.2.0/24 until 2031-01-01T00:00:00Z rsync://h/m/z.roa\n\
         origin AS65001 198.51.100.0/24-26 until 2036-01-01T00:00:00Z rsync://h/m/x.roa\n\
         origin AS65001 203.0.113.0/24 until 2028-01-01T00:00:00Z rsync://h/m/v.roa\n\
         aspa AS65001 AS65009 until 2029-01-01T00:00:00Z rsync://h/m/z.asa\n\
         aspa AS65001 AS65010 until 2035-01-01T00:00:00Z rsync://h/m/w.asa\n\
         aspa AS65002 AS65010 until 2036-01-01T00:00:00Z rsync://h/m/y.asa\n",
    ),
    (
        NONE,
        PayloadFormat::Csv,
        "ASN,IP Prefix,Max Length,Trust Anchor,Expires\n\
         AS65001,192.0.2.0/24,24,b,1924992000\nAS65001,198.51.100.0/24,26,a,2082758400\n\
         AS65001,203.0.113.0/24,24,b,1830297600\n",
    ),
    (
        NONE,
        PayloadFormat::Bird,
        "roa4 table ROAS4;\n\nprotocol static origins4 {\n\troa4 { table ROAS4; };\n\
         \troute 192.0.2.0/24 max 24 as 65001;\n\troute 198.51.100.0/24 max 26 as 65001;\n\
         \troute 203.0.113.0/24 max 24 as 65001;\n}\n\nroa6 table ROAS6;\n\n\
         protocol static origins6 {\n\troa6 { table ROAS6; };\n}\n",
    ),
    (
        NONE,
        PayloadFormat::Openbgpd,
        "roa-set {\n\t192.0.2.0/24 source-as 65001 expires 1924992000\n\
         \t198.51.100.0/24 maxlen 26 source-as 65001 expires 2082758400\n\
         \t203.0.113.0/24 source-as 65001 expires 1830297600\n}\naspa-set {\n\
         \tcustomer-as 65001 expires 1861920000 provider-as { 65009 65010 }\n\
         \tcustomer-as 65002 expires 2082758400 provider-as { 65010 }\n}\n",
    ),
    (
        ASSERTS,
        PayloadFormat::Long,
        "origin AS65001 192.0.2.0/24 asserted\n\
         origin AS65001 198.51.100.0/24-26 until 2036-01-01T00:00:00Z rsync://h/m/x.roa\n\
         origin AS65001 203.0.113.0/24 until 2028-01-01T00:00:00Z rsync://h/m/v.roa\n\
         aspa AS65001 AS65009 until 2029-01-01T00:00:00Z rsync://h/m/z.asa\n\
         aspa AS65001 AS65010 asserted\naspa AS65001 AS65011 asserted\n\
         aspa AS65002 AS65010 until 2036-01-01T00:00:00Z rsync://h/m/y.asa\n",
    ),
    (
        ASSERTS,
        PayloadFormat::Lines,
        "origin AS65001 192.0.2.0/24\norigin AS65001 198.51.100.0/24-26\n\
         origin AS65001 203.0.113.0/24\naspa AS65001 AS65009 AS65010 AS65011\n\
         aspa AS65002 AS65010\n",
    ),
    (
        FILTERS,
        PayloadFormat::Lines,
        "origin AS65001 192.0.2.0/24\norigin AS65001 198.51.100.0/24-26\naspa AS65002 AS65010\n",
    ),
];

/// What is refused of files of exceptions, and why.
static REFUSED: [(&str, &str); 3] = [
    (
        "{\"slurmVersion\":2,\"validationOutputFilters\":{\"prefixFilters\":[],\
         \"bgpsecFilters\":[]},\"locallyAddedAssertions\":{\"prefixAssertions\":[],\
         \"bgpsecAssertions\":[],\"aspaAssertions\":[{\"customerAsn\":1,\"providerAsns\":[]}]}}",
        "aspaAssertions[0] has no provider",
    ),
    (
        "{\"slurmVersion\":1,\"validationOutputFilters\":{\"prefixFilters\":[{}],\
         \"bgpsecFilters\":[]},\"locallyAddedAssertions\":{\"prefixAssertions\":[],\
         \"bgpsecAssertions\":[]}}",
        "prefixFilters[0] has no prefix and no asn",
    ),
    (
        "{\"slurmVersion\":3,\"validationOutputFilters\":{\"prefixFilters\":[],\
         \"bgpsecFilters\":[]},\"locallyAddedAssertions\":{\"prefixAssertions\":[],\
         \"bgpsecAssertions\":[]}}",
        "slurmVersion is not 1, or 2 where there are ASPAs",
    ),
];

// What holds a payload.
fn held(alloc: Global, said: &Said) -> Result<Held, Fail> {
    Ok(Held {
        until: moment(said.1)?,
        object: rsync(alloc, said.2.as_bytes())?,
    })
}

// What is found under a name.
fn found_under(alloc: Global, name: &str) -> Result<Found, Fail> {
    let mut found = Found::new(alloc);
    for (origin, said) in &ORIGINS {
        if said.0 == name {
            let held = held(alloc, said)?;
            found.payloads.keep(Payload::Origin(*origin), held)?;
        }
    }
    for ((customer, provider), said) in &PROVIDERS {
        if said.0 == name {
            let held = held(alloc, said)?;
            let pair = Provider {
                customer: *customer,
                provider: *provider,
            };
            found.payloads.keep(Payload::Provider(pair), held)?;
        }
    }
    Ok(found)
}

// Why no exceptions were read.
fn why(error: &serde_json::Error) -> Fail {
    if error.is_memory() {
        Fail::Memory
    } else {
        Fail::Refused
    }
}

// The exceptions in a text.
fn exceptions_in(alloc: Global, text: &str) -> Result<Exceptions, Fail> {
    match read_exceptions(alloc, text.as_bytes()) {
        Ok(file) => Ok(file),
        Err(SlurmError::Text(error)) => Err(why(&error)),
        Err(SlurmError::Misfit(_)) => Err(Fail::Refused),
    }
}

// Whether this is printed of what is found under both names.
fn is_printed(
    alloc: Global,
    text: &str,
    format: PayloadFormat,
    wanted: &str,
) -> Result<bool, Fail> {
    let one = found_under(alloc, "a")?;
    let other = found_under(alloc, "b")?;
    let mut exceptions = Vec::new(alloc);
    exceptions.push(exceptions_in(alloc, text)?)?;
    let found = [
        AnchorFindings::new("a", &one),
        AnchorFindings::new("b", &other),
    ];
    let mut printed = String::new(alloc);
    push_payloads(
        alloc,
        &mut printed,
        format,
        moment(2027)?,
        &found,
        &exceptions,
    )?;
    Ok(printed.as_str() == wanted)
}

// How many rows are printed so, before the first that is not, or all.
fn printed(alloc: Global) -> Result<usize, Fail> {
    for (place, (text, format, wanted)) in ROWS.iter().enumerate() {
        if !is_printed(alloc, text, *format, wanted)? {
            return Ok(place);
        }
    }
    Ok(ROWS.len())
}

// Whether a text is refused, and why.
fn is_refused(alloc: Global, text: &str, wanted: &str) -> Result<bool, Fail> {
    match read_exceptions(alloc, text.as_bytes()) {
        Ok(file) => {
            drop(file);
            Ok(false)
        }
        Err(SlurmError::Text(error)) => Err(why(&error)),
        Err(SlurmError::Misfit(misfit)) => Ok(format!(in alloc; "{misfit}")?.as_str() == wanted),
    }
}

// How many texts are refused so, before the first that is not, or all.
fn refused(alloc: Global) -> Result<usize, Fail> {
    for (place, (text, wanted)) in REFUSED.iter().enumerate() {
        if !is_refused(alloc, text, wanted)? {
            return Ok(place);
        }
    }
    Ok(REFUSED.len())
}

#[test]
fn each_payload_is_printed_once(rt: HostRuntime) -> Result<(), Fail> {
    assert_eq!(rt; printed(rt.alloc())?, ROWS.len());
    Ok(())
}

#[test]
fn exceptions_without_effect_are_refused(rt: HostRuntime) -> Result<(), Fail> {
    assert_eq!(rt; refused(rt.alloc())?, REFUSED.len());
    Ok(())
}
