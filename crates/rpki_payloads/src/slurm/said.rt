//! Local exceptions, held against the JSON value of their text.

ghost use Rattle.std.specs.Prelude.{◌≡◌, true, map, nat_eq, option_map, string_bytes};
ghost use Rattle.std.specs.BTreeMap.{keys};
ghost use Rattle.std.specs.Cmp.Lexicographic.{pointwise};
ghost use Rattle.std.specs.List.{list_all, list_any};
ghost use Rattle.serde_json.specs.View.{items_view, view};
ghost use Rattle.rpki_payloads.specs.Slurm.Said.{ItemsSay, ListMaySay, MaySay, MemberSays};
ghost use Rattle.rpki_payloads.specs.Slurm.Said.{OnlyHas, either_member};

use crate::slurm::prefix::SlurmPrefix;
use crate::slurm::text::{
    AspaAssertion, AspaFilter, Assertions, Exceptions, Filters, PrefixAssertion, PrefixFilter,
    RouterKeyAssertion, RouterKeyFilter,
};
use serde_json::{Map, Value};

/// What a JSON value can say.
pub(crate) trait Said {
    ghost use Rattle.serde_json.specs.Data.{Data};

    // A value says this.
    ghost says: { Data → Self → Type 0 };

    /// Whether the value says this.
    fn is_said(&self, value: &Value) -> bool
        ensures { result ≡ true → says (view value.now) self.now };
}

// Whether a name is one of these.
fn is_among(name: &String, names: &[&str]) -> bool
    ensures { result ≡ list_any (λ n. pointwise nat_eq n.now (string_bytes name.now)) names.now }
{
    names.iter().any(|one| *one == name.as_str())
}

// Whether each member has one of these names.
fn are_among(members: &Map<String, Value>, names: &[&str]) -> bool
    ensures { result ≡ list_all (λ k. list_any (λ n. pointwise nat_eq n.now (string_bytes k))
        names.now) (keys members.now) }
{
    members.keys().all(|name| is_among(name, names))
}

// Whether the value is an object that has no members but those with these names.
fn only_has(value: &Value, names: &[&str]) -> bool
    ensures { result ≡ true → OnlyHas (map (λ n. n.now) names.now) (view value.now) }
{
    match value.as_object() {
        None => false,
        Some(members) => are_among(members, names),
    }
}

// Whether a member is there and says this.
fn is_member<T: Said>(member: Option<&Value>, found: &T) -> bool
    ensures { result ≡ true
        → MemberSays T.says (option_map (λ v. view v.now) member.entry) found.now }
{
    match member {
        None => false,
        Some(value) => found.is_said(value),
    }
}

// Whether a member says this, or is left out or null where there is nothing.
fn is_maybe<T: Said>(member: Option<&Value>, found: Option<&T>) -> bool
    ensures { result ≡ true → MaySay T.says (option_map (λ v. view v.now) member.entry)
        (option_map (λ x. x.now) found.entry) }
{
    match (member, found) {
        (None, None) => true,
        (None, Some(_)) => false,
        (Some(value), None) => value.is_null(),
        (Some(value), Some(found)) => found.is_said(value),
    }
}

// Whether a member is a list of these, or is left out where there are none.
fn is_list_or_none<T: Said>(member: Option<&Value>, found: &Vec<T>) -> bool
    ensures { result ≡ true
        → ListMaySay T.says (option_map (λ v. view v.now) member.entry) found.now.items }
{
    match member {
        None => found.is_empty(),
        Some(value) => found.is_said(value),
    }
}

// Whether these items say this, one each, in order.
fn are_said<T: Said>(items: &[Value], found: &[T]) -> bool
    ensures { result ≡ true → ItemsSay T.says (items_view items.now) found.now }
{
    if items.len() != found.len() {
        return false;
    }
    for i in 0..found.len() {
        if !found[i].is_said(&items[i]) {
            return false;
        }
    }
    true
}

// Whether a member by either of two names is there and says this.
fn is_either<T: Said>(member: Option<&Value>, other: Option<&Value>, found: &T) -> bool
    ensures { result ≡ true → MemberSays T.says (either_member
        (option_map (λ v. view v.now) member.entry) (option_map (λ v. view v.now) other.entry))
        found.now }
{
    match (member, other) {
        (None, other) => is_member(other, found),
        (member, None) => is_member(member, found),
        (Some(_), Some(_)) => false,
    }
}

impl Said for String {
    ghost use Rattle.rpki_payloads.specs.Slurm.Said.{IsTextOf};

    ghost says = { IsTextOf };

    fn is_said(&self, value: &Value) -> bool {
        match value.as_str() {
            None => false,
            Some(text) => text == self.as_str(),
        }
    }
}

impl Said for u8 {
    ghost use Rattle.rpki_payloads.specs.Slurm.Said.{IsNumberOf};

    ghost says = { IsNumberOf };

    fn is_said(&self, value: &Value) -> bool {
        value.as_u64() == Some(u64::from(*self))
    }
}

impl Said for u32 {
    ghost use Rattle.rpki_payloads.specs.Slurm.Said.{IsNumberOf};

    ghost says = { IsNumberOf };

    fn is_said(&self, value: &Value) -> bool {
        value.as_u64() == Some(u64::from(*self))
    }
}

impl Said for u64 {
    ghost use Rattle.rpki_payloads.specs.Slurm.Said.{IsNumberOf};

    ghost says = { IsNumberOf };

    fn is_said(&self, value: &Value) -> bool {
        value.as_u64() == Some(*self)
    }
}

impl Said for SlurmPrefix {
    ghost use Rattle.rpki_payloads.specs.Slurm.Said.{IsPrefixOf};

    ghost says = { IsPrefixOf };

    fn is_said(&self, value: &Value) -> bool {
        match value.as_str() {
            None => false,
            Some(text) => match SlurmPrefix::of_text(text) {
                None => false,
                Some(prefix) => prefix == *self,
            },
        }
    }
}

impl<T: Said> Said for Vec<T> {
    ghost use Rattle.rpki_payloads.specs.Slurm.Said.{ListSays};

    ghost says = { λ d v. ListSays T.says d v.items };

    fn is_said(&self, value: &Value) -> bool {
        match value.as_array() {
            None => false,
            Some(items) => are_said(items, self),
        }
    }
}

impl Said for PrefixFilter {
    ghost use Rattle.rpki_payloads.specs.Slurm.Said.{IsPrefixFilterOf};

    ghost says = { IsPrefixFilterOf };

    fn is_said(&self, value: &Value) -> bool {
        only_has(value, &["prefix", "asn", "comment"])
            && is_maybe(value.get("prefix"), self.prefix.as_ref())
            && is_maybe(value.get("asn"), self.asn.as_ref())
            && is_maybe(value.get("comment"), self.comment.as_ref())
    }
}

impl Said for RouterKeyFilter {
    ghost use Rattle.rpki_payloads.specs.Slurm.Said.{IsRouterKeyFilterOf};

    ghost says = { IsRouterKeyFilterOf };

    fn is_said(&self, value: &Value) -> bool {
        only_has(value, &["asn", "SKI", "comment"])
            && is_maybe(value.get("asn"), self.asn.as_ref())
            && is_maybe(value.get("SKI"), self.key.as_ref())
            && is_maybe(value.get("comment"), self.comment.as_ref())
    }
}

impl Said for AspaFilter {
    ghost use Rattle.rpki_payloads.specs.Slurm.Said.{IsAspaFilterOf};

    ghost says = { IsAspaFilterOf };

    fn is_said(&self, value: &Value) -> bool {
        only_has(value, &["customerAsn", "customerAsid", "comment"])
            && is_either(
                value.get("customerAsn"),
                value.get("customerAsid"),
                &self.customer_asn,
            )
            && is_maybe(value.get("comment"), self.comment.as_ref())
    }
}

impl Said for Filters {
    ghost use Rattle.rpki_payloads.specs.Slurm.Said.{AreFiltersOf};

    ghost says = { AreFiltersOf };

    fn is_said(&self, value: &Value) -> bool {
        only_has(value, &["prefixFilters", "bgpsecFilters", "aspaFilters"])
            && is_member(value.get("prefixFilters"), &self.prefix_filters)
            && is_member(value.get("bgpsecFilters"), &self.bgpsec_filters)
            && is_list_or_none(value.get("aspaFilters"), &self.aspa_filters)
    }
}

impl Said for PrefixAssertion {
    ghost use Rattle.rpki_payloads.specs.Slurm.Said.{IsPrefixAssertionOf};

    ghost says = { IsPrefixAssertionOf };

    fn is_said(&self, value: &Value) -> bool {
        only_has(value, &["prefix", "asn", "maxPrefixLength", "comment"])
            && is_member(value.get("prefix"), &self.prefix)
            && is_member(value.get("asn"), &self.asn)
            && is_maybe(value.get("maxPrefixLength"), self.max_len.as_ref())
            && is_maybe(value.get("comment"), self.comment.as_ref())
    }
}

impl Said for RouterKeyAssertion {
    ghost use Rattle.rpki_payloads.specs.Slurm.Said.{IsRouterKeyAssertionOf};

    ghost says = { IsRouterKeyAssertionOf };

    fn is_said(&self, value: &Value) -> bool {
        only_has(value, &["asn", "SKI", "routerPublicKey", "comment"])
            && is_member(value.get("asn"), &self.asn)
            && is_member(value.get("SKI"), &self.key)
            && is_member(value.get("routerPublicKey"), &self.public_key)
            && is_maybe(value.get("comment"), self.comment.as_ref())
    }
}

impl Said for AspaAssertion {
    ghost use Rattle.rpki_payloads.specs.Slurm.Said.{IsAspaAssertionOf};

    ghost says = { IsAspaAssertionOf };

    fn is_said(&self, value: &Value) -> bool {
        only_has(
            value,
            &[
                "customerAsn",
                "customerAsid",
                "providerAsns",
                "providers",
                "comment",
            ],
        ) && is_either(
            value.get("customerAsn"),
            value.get("customerAsid"),
            &self.customer_asn,
        ) && is_either(
            value.get("providerAsns"),
            value.get("providers"),
            &self.provider_asns,
        ) && is_maybe(value.get("comment"), self.comment.as_ref())
    }
}

impl Said for Assertions {
    ghost use Rattle.rpki_payloads.specs.Slurm.Said.{AreAssertionsOf};

    ghost says = { AreAssertionsOf };

    fn is_said(&self, value: &Value) -> bool {
        only_has(
            value,
            &["prefixAssertions", "bgpsecAssertions", "aspaAssertions"],
        ) && is_member(value.get("prefixAssertions"), &self.prefix_assertions)
            && is_member(value.get("bgpsecAssertions"), &self.bgpsec_assertions)
            && is_list_or_none(value.get("aspaAssertions"), &self.aspa_assertions)
    }
}

impl Said for Exceptions {
    ghost use Rattle.rpki_payloads.specs.Slurm.Said.{AreExceptionsOf};

    ghost says = { AreExceptionsOf };

    fn is_said(&self, value: &Value) -> bool {
        only_has(
            value,
            &[
                "slurmVersion",
                "validationOutputFilters",
                "locallyAddedAssertions",
            ],
        ) && is_member(value.get("slurmVersion"), &self.version)
            && is_member(value.get("validationOutputFilters"), &self.filters)
            && is_member(value.get("locallyAddedAssertions"), &self.assertions)
    }
}
