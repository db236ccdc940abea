//! What the extensions of a resource certificate say.

ghost use Rattle.std.specs.Prelude.{◌≡◌};
ghost use Rattle.rpki_der.specs.Form.Decodes.{DecodesNext};
ghost use Rattle.rpki_der.specs.Form.Made.{partly};
ghost use Rattle.rpki_der.specs.Read.Reads.{Reads, Stays, Tells};
ghost use Rattle.rpki_extensions.specs.Extension.{standing_at};
ghost use Rattle.rpki_extensions.specs.Extensions.{ExtensionsForm, certificate_extensions};
ghost use Rattle.rpki_extensions.specs.Extensions.{said_by_all, extensions_at};

use crate::claims::{Claims, claims_of};
use crate::extension::{Extension, Profile, take_standing};
use crate::identifiers::is_known;
use crate::keys::{KeyFacts, key_facts_of};
use crate::locations::{Locations, locations_of};
use rpki_der::{Constructed, DecodeError};
use std::alloc::{AllocError, Global};

/// What the extensions of a resource certificate say (RFC 6487, section 4.8).
#[derive(Debug, Drop)]
pub struct Extensions {
    /// What they say of the key.
    pub key: KeyFacts,
    /// Where they say that something lies.
    pub locations: Locations,
    /// What they claim.
    pub claims: Claims,
}

impl Clone for Extensions {
    ghost is_clone = { λ x copy. copy ≡ x };

    fn clone(&self) -> Result<Extensions, AllocError> {
        let key = self.key.clone()?;
        let locations = self.locations.clone()?;
        match self.claims.clone() {
            Ok(claims) => Ok(Extensions {
                key,
                locations,
                claims,
            }),
            Err(error) => {
                drop(locations);
                Err(error)
            }
        }
    }
}

impl Profile for Extensions {
    ghost use Rattle.rpki_extensions.specs.Extensions.{certificate_extensions};

    ghost known = { certificate_extensions };

    fn is_known(oid: &[u8]) -> bool {
        is_known(oid)
    }
}

// What the extensions say, where they may stand.
#[tactic(auto, unfolding(crate::specs::Extensions::said_by_all))]
fn said_by(alloc: Global, list: &[Extension]) -> Result<Extensions, DecodeError>
    ensures { Tells (λ x. x) (said_by_all list.now) result }
{
    let key = key_facts_of(alloc, list)?;
    let locations = locations_of(alloc, list)?;
    match claims_of(alloc, list) {
        Ok(claims) => Ok(Extensions {
            key,
            locations,
            claims,
        }),
        Err(error) => {
            drop(locations);
            Err(error)
        }
    }
}

// Reads as many extensions as there are, and what they say.
fn take_list(alloc: Global, cons: &mut Constructed<'_>) -> Result<Extensions, DecodeError>
    ensures { Reads (λ x. x) (partly said_by_all (standing_at certificate_extensions))
        cons.old result cons.new }
{
    let list = take_standing::<Extensions>(alloc, cons)?;
    said_by(alloc, &list)
}

// Reads the extensions.
fn take_extensions(alloc: Global, cons: &mut Constructed<'_>) -> Result<Extensions, DecodeError>
    ensures reads { Reads (λ x. x) extensions_at cons.old result cons.new }
    ensures stays { Stays result cons.new }
{
    cons.take_sequence(|cons| take_list(alloc, cons))
}

impl Extensions {
    /// Reads the extensions of a resource certificate, a SEQUENCE OF Extension in any order (RFC
    /// 5280, section 4.1; RFC 6487, section 4.8). Each value is read in DER, whatever the mode of
    /// the reader is. Own rules of this project are: octets after a value within its extension are
    /// left, an extension that is known has either flag, and one that is not known says nothing
    /// where it is not critical, which RFC 6487, section 8, does not permit.
    ///
    /// Refuses by `EXTENSION_TWICE`, by `UNKNOWN_CRITICAL_EXTENSION`, by
    /// `NO_SUBJECT_KEY_IDENTIFIER`, `NO_KEY_USAGE` and `NO_POLICY` for what has to be there, by
    /// `RESOURCES_OF_OTHER_POLICY`, by what the values are refused by, by `Malformed`, or by
    /// `Memory`.
    pub fn take_from(alloc: Global, cons: &mut Constructed<'_>) -> Result<Extensions, DecodeError>
        ensures reads { Reads (λ x. x) extensions_at cons.old result cons.new }
        ensures decodes { DecodesNext ExtensionsForm (λ x. x) cons.old result cons.new }
        ensures stays { Stays result cons.new }
    {
        cons.holds_octets();
        take_extensions(alloc, cons)
    }
}
