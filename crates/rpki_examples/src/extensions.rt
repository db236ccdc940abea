//! What the extensions of a certificate say, as those who fetch and validate use it.

ghost use Rattle.std.specs.Prelude.{◌≡◌, ℕ, List, MatchResult};
ghost use Rattle.rpki_der.specs.declared.mode.Mode.TheVariants.{Der};
ghost use Rattle.rpki_der.specs.Form.Decodes.{Decodes};
ghost use Rattle.rpki_der.specs.Grammar.{Front, HasNoFront};
ghost use Rattle.rpki_der.specs.Read.Reads.{Found, Refuses};
ghost use Rattle.rpki_extensions.specs.declared.extensions.Extensions.{Extensions};
ghost use Rattle.rpki_extensions.specs.Extensions.{ExtensionsForm, extensions_at};

use bytes::Bytes;
use rpki::der::laws::slices_hold_octets;
use rpki::der::{Constructed, DecodeError, Mode};
use rpki::extensions::Extensions;
use rpki::uri::Rsync;
use std::alloc::Global;

/// Reads the extensions at the front of octets in DER.
pub fn extensions_in(alloc: Global, octets: Bytes) -> Result<Extensions, DecodeError>
    ensures { Decodes (ExtensionsForm Der) (λ x. x) octets result }
{
    slices_hold_octets(octets.as_slice());
    read_front(alloc, octets)
}

// Reads the extensions at the front.
fn read_front(alloc: Global, octets: Bytes) -> Result<Extensions, DecodeError>
    ensures { Found (λ x. x) (extensions_at Der octets) result }
{
    Constructed::decode(octets, Mode::Der, |cons| Extensions::take_from(alloc, cons))
}

/// Where the manifest of the subject is, if the extensions at the front of the octets say it.
pub fn manifest_in(alloc: Global, octets: Bytes) -> Result<Option<Rsync>, DecodeError>
    ensures { MatchResult result
        (λ uri. (x : Extensions) × (rest : List ℕ) × Front (ExtensionsForm Der) octets x rest
        × (uri ≡ x.locations.subject.rpki_manifest))
        (λ error. Refuses error (HasNoFront (ExtensionsForm Der) octets)) }
{
    let mut said = extensions_in(alloc, octets)?;
    let uri = said.locations.subject.rpki_manifest.take();
    drop(said);
    Ok(uri)
}
