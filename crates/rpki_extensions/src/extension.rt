//! Extensions, whose values are not read yet.

ghost use Rattle.std.specs.Prelude.{◌≡◌, IfOk, option_map};
ghost use Rattle.std.specs.List.{list_all};
ghost use Rattle.rpki_der.specs.Form.Keyed.{are_distinct, with_key, has_key};
ghost use Rattle.rpki_der.specs.Read.Reads.{Reads, Stays};
ghost use Rattle.rpki_extensions.specs.Extension.{extension_fields_at, oid_of, may_stand};
ghost use Rattle.rpki_extensions.specs.Extension.{standing_at};

use crate::faults;
use crate::identifiers::is_same;
use bytes::Bytes;
use rpki_der::{Constructed, DecodeError, ListItem, Oid};
use std::alloc::{AllocError, Global};
use std::collections::BTreeSet;

/// An extension (RFC 5280, section 4.1).
#[derive(Debug, Drop)]
pub struct Extension {
    /// What it is about.
    pub oid: Oid,
    /// Whether the certificate is refused by those who don't know it.
    pub critical: bool,
    /// The octets of its value.
    pub value: Bytes,
}

impl Clone for Extension {
    ghost is_clone = { λ e copy. copy ≡ e };

    fn clone(&self) -> Result<Extension, AllocError> {
        Ok(Extension {
            oid: self.oid.clone()?,
            critical: self.critical,
            value: self.value.clone()?,
        })
    }
}

// Reads what stands in the SEQUENCE.
#[tactic(auto, unfolding(crate::specs::Extension::extension_fields_at))]
fn take_fields(alloc: Global, cons: &mut Constructed<'_>) -> Result<Extension, DecodeError>
    ensures { Reads (λ e. e) extension_fields_at cons.old result cons.new }
{
    let oid = cons.take_oid()?;
    let critical = cons.take_flag()?;
    let value = cons.take_octets(alloc)?;
    Ok(Extension {
        oid,
        critical,
        value,
    })
}

impl ListItem for Extension {
    ghost use Rattle.rpki_der.specs.Tags.{SEQUENCE};
    ghost use Rattle.rpki_extensions.specs.Extension.{extension_fields_at, extension_at};

    ghost tag = { SEQUENCE };

    ghost at = { extension_at };

    fn take_opt_from(
        alloc: Global,
        cons: &mut Constructed<'_>,
    ) -> Result<Option<Extension>, DecodeError> {
        cons.take_opt_sequence(|cons| take_fields(alloc, cons))
    }
}

// Whether no two extensions have the same identifier, after one look-up in an ordered set for each.
// Refuses where memory runs out.
pub fn are_distinct(alloc: Global, list: &[Extension]) -> Result<bool, AllocError>
    ensures { IfOk result (λ b. b ≡ are_distinct oid_of list.now) }
{
    let mut seen = BTreeSet::new(alloc);
    for extension in list {
        if !seen.insert(extension.oid.as_slice())? {
            return Ok(false);
        }
    }
    Ok(true)
}

// How many extensions are compared in pairs, which for so few is faster than an ordered set.
const FEW: usize = 16;

// Whether no two extensions have the same identifier, of which each is compared with those after it.
#[tactic(auto, unfolding(rpki_der::specs::Form::Keyed::are_distinct))]
fn are_distinct_in_pairs(list: &[Extension]) -> bool
    ensures { result ≡ are_distinct oid_of list.now }
{
    let mut rest = list;
    while let Some((first, others)) = rest.split_first() {
        if has_oid(others, first.oid.as_slice()) {
            return false;
        }
        rest = others;
    }
    true
}

// Whether no two extensions have the same identifier. Refuses where memory runs out.
fn stand_once(alloc: Global, list: &[Extension]) -> Result<bool, AllocError>
    ensures { IfOk result (λ b. b ≡ are_distinct oid_of list.now) }
{
    if list.len() <= FEW {
        Ok(are_distinct_in_pairs(list))
    } else {
        are_distinct(alloc, list)
    }
}

/// What extensions belong to: which of them are known there.
pub trait Profile {
    ghost use Rattle.std.specs.Prelude.{◌≡◌, ℕ, List};
    ghost use Rattle.rpki_extensions.specs.Extension.{is_among};

    // The identifiers of the extensions that are known.
    ghost known: { List (List ℕ) };

    /// Whether this is the identifier of an extension that is known.
    fn is_known(oid: &[u8]) -> bool
        ensures { result ≡ is_among known oid.now };
}

// Whether each extension is known or not critical.
fn may_stand<P: Profile>(list: &[Extension]) -> bool
    ensures { result ≡ list_all (may_stand P.known) list.now }
{
    for extension in list {
        if extension.critical && !P::is_known(extension.oid.as_slice()) {
            return false;
        }
    }
    true
}

/// Takes as many extensions as there are, in any order (RFC 5280, section 4.2). Refuses by
/// `EXTENSION_TWICE` where an identifier stands twice, after one look-up in an ordered set for
/// each where there are more than sixteen; by `UNKNOWN_CRITICAL_EXTENSION` for a critical one that
/// is not known; by `Malformed`, or by `Memory`.
#[tactic(auto, unfolding(rpki_der::specs::Read::Parse::tested))]
pub fn take_standing<P: Profile>(
    alloc: Global,
    cons: &mut Constructed<'_>,
) -> Result<Vec<Extension>, DecodeError>
    ensures reads { Reads (λ list. list.items) (standing_at P.known) cons.old result cons.new }
    ensures stays { Stays result cons.new }
{
    let list: Vec<Extension> = cons.take_items(alloc)?;
    match stand_once(alloc, &list) {
        Ok(true) => {}
        Ok(false) => return Err(cons.refuse_for(faults::EXTENSION_TWICE)),
        Err(_) => return Err(cons.fail(DecodeError::Memory)),
    }
    if !may_stand::<P>(&list) {
        return Err(cons.refuse_for(faults::UNKNOWN_CRITICAL_EXTENSION));
    }
    Ok(list)
}

/// The extension with this identifier, the first one where there are several.
pub fn with_oid<'l>(list: &'l [Extension], oid: &[u8]) -> Option<&'l Extension>
    ensures { option_map (λ e. e.now) result ≡ with_key oid_of oid.now list.now }
{
    for extension in list {
        if is_same(extension.oid.as_slice(), oid) {
            return Some(extension);
        }
    }
    None
}

// Whether there is an extension with this identifier.
pub fn has_oid(list: &[Extension], oid: &[u8]) -> bool
    ensures { result ≡ has_key oid_of oid.now list.now }
{
    for extension in list {
        if is_same(extension.oid.as_slice(), oid) {
            return true;
        }
    }
    false
}
