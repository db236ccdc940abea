//! The text of local exceptions: one JSON object, whose members are those of RFC 8416, section 3,
//! or, in version 2, of draft-ietf-sidrops-aspa-slurm too.

use crate::slurm::prefix::SlurmPrefix;
use serde::Deserialize;
use std::fmt;

/// Why a text is no prefix.
#[derive(Clone, Copy, Debug)]
pub struct NoPrefix;

impl fmt::Display for NoPrefix {
    fn fmt<W: fmt::Write>(&self, f: &mut fmt::Formatter<W>) -> fmt::Result {
        f.write_str("no prefix")
    }
}

impl TryFrom<String> for SlurmPrefix {
    type Error = NoPrefix;

    fn try_from(text: String) -> Result<SlurmPrefix, NoPrefix> {
        SlurmPrefix::of_text(text.as_str()).ok_or(NoPrefix)
    }
}

/// Removes the origins of a prefix and what is within it, or of an AS, or of both (section 3.3.1).
#[derive(Drop, Deserialize)]
#[serde(deny_unknown_fields)]
pub struct PrefixFilter {
    pub prefix: Option<SlurmPrefix>,
    pub asn: Option<u32>,
    pub comment: Option<String>,
}

/// Removes router keys (section 3.3.2), of which there are none here.
#[derive(Drop, Deserialize)]
#[serde(deny_unknown_fields)]
pub struct RouterKeyFilter {
    pub asn: Option<u32>,
    #[serde(rename = "SKI")]
    pub key: Option<String>,
    pub comment: Option<String>,
}

/// Removes the providers of a customer.
#[derive(Drop, Deserialize)]
#[serde(deny_unknown_fields)]
pub struct AspaFilter {
    #[serde(rename = "customerAsn", alias = "customerAsid")]
    pub customer_asn: u32,
    pub comment: Option<String>,
}

/// Adds an origin (section 3.4.1).
#[derive(Drop, Deserialize)]
#[serde(deny_unknown_fields)]
pub struct PrefixAssertion {
    pub prefix: SlurmPrefix,
    pub asn: u32,
    #[serde(rename = "maxPrefixLength")]
    pub max_len: Option<u8>,
    pub comment: Option<String>,
}

/// Adds a router key (section 3.4.2), which has no effect here.
#[derive(Drop, Deserialize)]
#[serde(deny_unknown_fields)]
pub struct RouterKeyAssertion {
    pub asn: u32,
    #[serde(rename = "SKI")]
    pub key: String,
    #[serde(rename = "routerPublicKey")]
    pub public_key: String,
    pub comment: Option<String>,
}

/// Adds providers of a customer.
#[derive(Drop, Deserialize)]
#[serde(deny_unknown_fields)]
pub struct AspaAssertion {
    #[serde(rename = "customerAsn", alias = "customerAsid")]
    pub customer_asn: u32,
    #[serde(rename = "providerAsns", alias = "providers")]
    pub provider_asns: Vec<u32>,
    pub comment: Option<String>,
}

/// What is removed.
#[derive(Drop, Deserialize)]
#[serde(rename_all = "camelCase", deny_unknown_fields)]
pub struct Filters {
    pub prefix_filters: Vec<PrefixFilter>,
    pub bgpsec_filters: Vec<RouterKeyFilter>,
    #[serde(default)]
    pub aspa_filters: Vec<AspaFilter>,
}

/// What is added.
#[derive(Drop, Deserialize)]
#[serde(rename_all = "camelCase", deny_unknown_fields)]
pub struct Assertions {
    pub prefix_assertions: Vec<PrefixAssertion>,
    pub bgpsec_assertions: Vec<RouterKeyAssertion>,
    #[serde(default)]
    pub aspa_assertions: Vec<AspaAssertion>,
}

/// The local exceptions of one file.
#[derive(Drop, Deserialize)]
#[serde(deny_unknown_fields)]
pub struct Exceptions {
    #[serde(rename = "slurmVersion")]
    pub version: u64,
    #[serde(rename = "validationOutputFilters")]
    pub filters: Filters,
    #[serde(rename = "locallyAddedAssertions")]
    pub assertions: Assertions,
}
