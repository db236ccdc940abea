//! Providers of one customer, which stand side by side.

ghost use Rattle.std.specs.Prelude.{◌≡◌, IfOk};
ghost use Rattle.rpki_payloads.specs.Formats.Groups.{groups, ends, same_customer, customer_of};
ghost use Rattle.rpki_payloads.specs.Formats.Groups.{expires_of, sooner, name_of};
ghost use Rattle.rpki_payloads.specs.Formats.Fields.{end_seconds};

use crate::formats::fields::end_seconds;
use crate::formats::rows::ProviderRow;
use rpki_resources::Asn;
use std::alloc::{AllocError, Global};
use std::marker::Model;

/// The providers of one customer.
#[derive(Drop)]
pub(crate) struct AspaGroup<'a, 'b> {
    rows: &'b [ProviderRow<'a>],
}

impl<'a, 'b> Model for AspaGroup<'a, 'b> {
    ghost use Rattle.std.specs.Prelude.{List};
    ghost use Rattle.rpki_payloads.specs.Formats.Row.{ProviderRow};

    ghost Value = { List ProviderRow };

    ghost view = { λ g. g.rows.now };
}

/// The groups of these providers, in their order.
pub(crate) fn groups_of<'a, 'b>(
    alloc: Global,
    rows: &'b [ProviderRow<'a>],
) -> Result<Vec<AspaGroup<'a, 'b>>, AllocError>
    ensures { IfOk result (λ found. found.items ≡ groups rows.now) }
{
    let mut found = Vec::new(alloc);
    let mut start = 0;
    for i in 0..rows.len() {
        if ends(&rows[i..]) {
            found.push(AspaGroup {
                rows: &rows[start..i + 1],
            })?;
            start = i + 1;
        }
    }
    Ok(found)
}

// Whether a group ends with the first of these.
#[tactic(auto, using(crate::proofs::Rowed::ends_few, crate::proofs::Rowed::ends_two))]
fn ends(rows: &[ProviderRow<'_>]) -> bool
    ensures { result ≡ ends rows.now }
{
    if rows.len() < 2 {
        return true;
    }
    !same_customer(&rows[0], &rows[1])
}

// Whether two providers are of one customer.
fn same_customer(one: &ProviderRow<'_>, other: &ProviderRow<'_>) -> bool
    ensures { result ≡ same_customer one.now other.now }
{
    one.provider.customer == other.provider.customer
}

impl<'a, 'b> AspaGroup<'a, 'b> {
    /// The rows.
    pub(crate) fn rows(&self) -> &'b [ProviderRow<'a>]
        ensures { result.now ≡ self.now }
    {
        self.rows
    }

    /// The customer.
    pub(crate) fn customer(&self) -> Asn
        ensures { result ≡ customer_of self.now }
    {
        match self.rows.first() {
            None => Asn::from_u32(0),
            Some(first) => Asn::from_u32(first.provider.customer),
        }
    }

    /// The name under which the first of them was found.
    pub(crate) fn name(&self) -> &'a str
        ensures { result.now ≡ name_of self.now }
    {
        match self.rows.first() {
            None => "",
            Some(first) => first.name,
        }
    }

    /// Until when all of them hold, in seconds since 1970; nothing, if forever.
    #[tactic(auto, using(std::proofs::lemmas::List::Sums::fold_more))]
    pub(crate) fn expires(&self) -> Option<u64>
        ensures { result ≡ expires_of self.now }
    {
        let mut earliest = None;
        for row in self.rows {
            earliest = sooner(earliest, end_seconds(row.until));
        }
        earliest
    }
}

// The earlier one of two ends.
fn sooner(one: Option<u64>, other: Option<u64>) -> Option<u64>
    ensures { result ≡ sooner one other }
{
    match (one, other) {
        (None, other) => other,
        (Some(one), None) => Some(one),
        (Some(one), Some(other)) => Some(one.min(other)),
    }
}
