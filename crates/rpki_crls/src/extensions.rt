//! What the extensions of a revocation list say.

ghost use Rattle.rpki_der.specs.Form.Decodes.{DecodesNext};
ghost use Rattle.rpki_der.specs.Form.Keyed.{must};
ghost use Rattle.rpki_der.specs.Form.Made.{front_of, partly};
ghost use Rattle.rpki_der.specs.Read.Parse.{u160_at};
ghost use Rattle.rpki_der.specs.Read.Reads.{Reads, Stays, Tells};
ghost use Rattle.rpki_der.specs.declared.mode.Mode.TheVariants.{Der};
ghost use Rattle.rpki_extensions.specs.Extension.{standing_at, stated};
ghost use Rattle.rpki_extensions.specs.Extensions.{authority_key_identifier};
ghost use Rattle.rpki_extensions.specs.KeyIdentifiers.{authority_key_at};
ghost use Rattle.rpki_crls.specs.Extensions.{crl_number, crl_extensions, CrlExtensionsForm};
ghost use Rattle.rpki_crls.specs.Extensions.{crl_extensions_of, crl_extensions_at};

use crate::faults;
use bytes::Bytes;
use rpki_basics::{KeyIdentifier, Serial};
use rpki_der::{Constructed, DecodeError, Mode};
use rpki_extensions::identifiers::AUTHORITY_KEY_IDENTIFIER;
use rpki_extensions::{Extension, Profile, take_authority_key_identifier, take_standing, with_oid};
use std::alloc::Global;

/// id-ce-cRLNumber (RFC 5280, section 5.2.3).
pub const CRL_NUMBER: [u8; 3] = [0x55, 0x1D, 20];

/// What the extensions of a revocation list say (RFC 6487, section 5).
#[derive(Clone, Copy, Debug)]
pub struct CrlExtensions {
    /// The identifier of the issuer's key (RFC 5280, section 5.2.1).
    pub authority_key: KeyIdentifier,
    /// The number of the list (RFC 5280, section 5.2.3).
    pub number: Serial,
}

impl Profile for CrlExtensions {
    ghost use Rattle.rpki_crls.specs.Extensions.{crl_extensions};

    ghost known = { crl_extensions };

    fn is_known(oid: &[u8]) -> bool {
        oid == AUTHORITY_KEY_IDENTIFIER.as_slice() || oid == CRL_NUMBER.as_slice()
    }
}

// The identifier of the issuer's key in a value.
fn authority_key_in(value: Bytes) -> Result<KeyIdentifier, DecodeError>
    ensures { Tells (λ id. id) (front_of authority_key_at Der value) result }
{
    Constructed::decode(value, Mode::Der, |cons| take_authority_key_identifier(cons))
}

// The identifier of the issuer's key.
fn authority_key(list: &[Extension]) -> Result<KeyIdentifier, DecodeError>
    ensures { Tells (λ id. id)
        (must (stated authority_key_identifier authority_key_at list.now)) result }
{
    match with_oid(list, &AUTHORITY_KEY_IDENTIFIER) {
        None => Err(DecodeError::refusal(faults::NO_AUTHORITY_KEY_IDENTIFIER)),
        Some(extension) => authority_key_in(extension.value.clone()?),
    }
}

// The number of the list in a value.
fn number_in(value: Bytes) -> Result<Serial, DecodeError>
    ensures { Tells (λ number. number) (front_of u160_at Der value) result }
{
    Constructed::decode(value, Mode::Der, |cons| Serial::take_from(cons))
}

// The number of the list.
fn number(list: &[Extension]) -> Result<Serial, DecodeError>
    ensures { Tells (λ number. number) (must (stated crl_number u160_at list.now)) result }
{
    match with_oid(list, &CRL_NUMBER) {
        None => Err(DecodeError::refusal(faults::NO_CRL_NUMBER)),
        Some(extension) => number_in(extension.value.clone()?),
    }
}

// What the extensions say, where they may stand.
#[tactic(auto, unfolding(crate::specs::Extensions::crl_extensions_of))]
fn said_by(list: &[Extension]) -> Result<CrlExtensions, DecodeError>
    ensures { Tells (λ x. x) (crl_extensions_of list.now) result }
{
    let authority_key = authority_key(list)?;
    let number = number(list)?;
    Ok(CrlExtensions {
        authority_key,
        number,
    })
}

// Reads as many extensions as there are, and what they say.
fn take_list(alloc: Global, cons: &mut Constructed<'_>) -> Result<CrlExtensions, DecodeError>
    ensures { Reads (λ x. x) (partly crl_extensions_of (standing_at crl_extensions))
        cons.old result cons.new }
{
    let list = take_standing::<CrlExtensions>(alloc, cons)?;
    said_by(&list)
}

// Reads the extensions.
fn take_extensions(alloc: Global, cons: &mut Constructed<'_>) -> Result<CrlExtensions, DecodeError>
    ensures reads { Reads (λ x. x) crl_extensions_at cons.old result cons.new }
    ensures stays { Stays result cons.new }
{
    cons.take_sequence(|cons| take_list(alloc, cons))
}

impl CrlExtensions {
    /// Reads the extensions of a revocation list, a SEQUENCE OF Extension in any order (RFC 5280,
    /// section 5.2; RFC 6487, section 5). Each value is read in DER, whatever the mode of the
    /// reader is. As in a certificate, octets after a value within its extension are left, an
    /// extension that is known has either flag, and one that is not known says nothing where it is
    /// not critical: own rules of this project.
    ///
    /// Refuses by `EXTENSION_TWICE`, by `UNKNOWN_CRITICAL_EXTENSION`, by
    /// `NO_AUTHORITY_KEY_IDENTIFIER` and `NO_CRL_NUMBER` for what has to be there, by `Malformed`,
    /// or by `Memory`.
    pub fn take_from(
        alloc: Global,
        cons: &mut Constructed<'_>,
    ) -> Result<CrlExtensions, DecodeError>
        ensures reads { Reads (λ x. x) crl_extensions_at cons.old result cons.new }
        ensures decodes { DecodesNext CrlExtensionsForm (λ x. x) cons.old result cons.new }
        ensures stays { Stays result cons.new }
    {
        cons.holds_octets();
        take_extensions(alloc, cons)
    }
}
