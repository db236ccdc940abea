//! What the extensions of a certificate say of its key.

ghost use Rattle.rpki_der.specs.Form.Keyed.{must};
ghost use Rattle.rpki_der.specs.Form.Made.{front_of};
ghost use Rattle.rpki_der.specs.Read.Reads.{Reads, Tells};
ghost use Rattle.rpki_der.specs.declared.mode.Mode.TheVariants.{Der};
ghost use Rattle.std.specs.Prelude.{◌≡◌, false};
ghost use Rattle.rpki_extensions.specs.BasicConstraints.{basic_constraints_at};
ghost use Rattle.rpki_extensions.specs.Extension.{stated};
ghost use Rattle.rpki_extensions.specs.Extensions.{stated_or, has_purposes_at, key_facts_of};
ghost use Rattle.rpki_extensions.specs.Extensions.{subject_key_identifier, key_usage};
ghost use Rattle.rpki_extensions.specs.Extensions.{authority_key_identifier, basic_constraints};
ghost use Rattle.rpki_extensions.specs.Extensions.{extended_key_usage};
ghost use Rattle.rpki_extensions.specs.KeyIdentifiers.{subject_key_at, authority_key_at};
ghost use Rattle.rpki_extensions.specs.Usage.{key_usage_at};

use crate::basic::take_basic_constraints;
use crate::extension::{Extension, with_oid};
use crate::faults;
use crate::identifiers::{
    AUTHORITY_KEY_IDENTIFIER, BASIC_CONSTRAINTS, EXTENDED_KEY_USAGE, KEY_USAGE,
    SUBJECT_KEY_IDENTIFIER,
};
use crate::key_identifiers::{take_authority_key_identifier, take_subject_key_identifier};
use crate::purposes::take_purposes;
use crate::usage::take_key_usage;
use bytes::Bytes;
use rpki_basics::KeyIdentifier;
use rpki_der::{Constructed, DecodeError, Mode};
use rpki_faults::KeyUsage;
use std::alloc::{AllocError, Global};

/// What the extensions of a certificate say of its key.
#[derive(Debug, Drop)]
pub struct KeyFacts {
    /// The identifier of the key (RFC 6487, section 4.8.2).
    pub subject_key: KeyIdentifier,
    /// The identifier of the issuer's key, if it is said (RFC 6487, section 4.8.3).
    pub authority_key: Option<KeyIdentifier>,
    /// Whether the subject is a CA, if there are basic constraints (RFC 6487, section 4.8.1).
    pub basic_ca: Option<bool>,
    /// What the key is for (RFC 6487, section 4.8.4).
    pub usage: KeyUsage,
    /// Whether there is an extended key usage (RFC 6487, section 4.8.5).
    pub has_purposes: bool,
}

impl Clone for KeyFacts {
    ghost is_clone = { λ x copy. copy ≡ x };

    fn clone(&self) -> Result<KeyFacts, AllocError> {
        Ok(KeyFacts {
            subject_key: self.subject_key,
            authority_key: self.authority_key,
            basic_ca: self.basic_ca,
            usage: self.usage,
            has_purposes: self.has_purposes,
        })
    }
}

// The identifier of the key in a value.
fn subject_key_in(alloc: Global, value: Bytes) -> Result<KeyIdentifier, DecodeError>
    ensures { Tells (λ id. id) (front_of subject_key_at Der value) result }
{
    Constructed::decode(
        value,
        Mode::Der,
        |cons| take_subject_key_identifier(alloc, cons),
    )
}

// The identifier of the key.
fn subject_key(alloc: Global, list: &[Extension]) -> Result<KeyIdentifier, DecodeError>
    ensures { Tells (λ id. id)
        (must (stated subject_key_identifier subject_key_at list.now)) result }
{
    match with_oid(list, &SUBJECT_KEY_IDENTIFIER) {
        None => Err(DecodeError::refusal(faults::NO_SUBJECT_KEY_IDENTIFIER)),
        Some(extension) => subject_key_in(alloc, extension.value.clone()?),
    }
}

// The identifier of the issuer's key in a value.
fn authority_key_in(value: Bytes) -> Result<KeyIdentifier, DecodeError>
    ensures { Tells (λ id. id) (front_of authority_key_at Der value) result }
{
    Constructed::decode(value, Mode::Der, |cons| take_authority_key_identifier(cons))
}

// The identifier of the issuer's key, if it is said.
fn authority_key(list: &[Extension]) -> Result<Option<KeyIdentifier>, DecodeError>
    ensures { Tells (λ id. id) (stated authority_key_identifier authority_key_at list.now) result }
{
    match with_oid(list, &AUTHORITY_KEY_IDENTIFIER) {
        None => Ok(None),
        Some(extension) => Ok(Some(authority_key_in(extension.value.clone()?)?)),
    }
}

// Whether the subject is a CA, in a value.
fn basic_ca_in(value: Bytes) -> Result<bool, DecodeError>
    ensures { Tells (λ ca. ca) (front_of basic_constraints_at Der value) result }
{
    Constructed::decode(value, Mode::Der, |cons| take_basic_constraints(cons))
}

// Whether the subject is a CA, if there are basic constraints.
fn basic_ca(list: &[Extension]) -> Result<Option<bool>, DecodeError>
    ensures { Tells (λ ca. ca) (stated basic_constraints basic_constraints_at list.now) result }
{
    match with_oid(list, &BASIC_CONSTRAINTS) {
        None => Ok(None),
        Some(extension) => Ok(Some(basic_ca_in(extension.value.clone()?)?)),
    }
}

// What the key is for, in a value.
fn usage_in(value: Bytes) -> Result<KeyUsage, DecodeError>
    ensures { Tells (λ usage. usage) (front_of key_usage_at Der value) result }
{
    Constructed::decode(value, Mode::Der, |cons| take_key_usage(cons))
}

// What the key is for.
fn usage(list: &[Extension]) -> Result<KeyUsage, DecodeError>
    ensures { Tells (λ usage. usage) (must (stated key_usage key_usage_at list.now)) result }
{
    match with_oid(list, &KEY_USAGE) {
        None => Err(DecodeError::refusal(faults::NO_KEY_USAGE)),
        Some(extension) => usage_in(extension.value.clone()?),
    }
}

// Reads purposes, of which it is kept that they are there.
fn take_has_purposes(alloc: Global, cons: &mut Constructed<'_>) -> Result<bool, DecodeError>
    ensures { Reads (λ has. has) has_purposes_at cons.old result cons.new }
{
    take_purposes(alloc, cons)?;
    Ok(true)
}

// Whether there are purposes in a value.
fn purposes_in(alloc: Global, value: Bytes) -> Result<bool, DecodeError>
    ensures { Tells (λ has. has) (front_of has_purposes_at Der value) result }
{
    Constructed::decode(value, Mode::Der, |cons| take_has_purposes(alloc, cons))
}

// Whether there is an extended key usage.
fn has_purposes(alloc: Global, list: &[Extension]) -> Result<bool, DecodeError>
    ensures { Tells (λ has. has)
        (stated_or false extended_key_usage has_purposes_at list.now) result }
{
    match with_oid(list, &EXTENDED_KEY_USAGE) {
        None => Ok(false),
        Some(extension) => purposes_in(alloc, extension.value.clone()?),
    }
}

// What the extensions say of the key. Refuses by `NO_SUBJECT_KEY_IDENTIFIER`, by `NO_KEY_USAGE`, by
// what the values are refused by, or by `Memory`.
#[tactic(auto, unfolding(crate::specs::Extensions::key_facts_of))]
pub fn key_facts_of(alloc: Global, list: &[Extension]) -> Result<KeyFacts, DecodeError>
    ensures { Tells (λ facts. facts) (key_facts_of list.now) result }
{
    let subject_key = subject_key(alloc, list)?;
    let authority_key = authority_key(list)?;
    let basic_ca = basic_ca(list)?;
    let usage = usage(list)?;
    let has_purposes = has_purposes(alloc, list)?;
    Ok(KeyFacts {
        subject_key,
        authority_key,
        basic_ca,
        usage,
        has_purposes,
    })
}
