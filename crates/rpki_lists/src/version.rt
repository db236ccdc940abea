//! The version of a content, where it is 0.

ghost use Rattle.rpki_der.specs.Form.Decodes.{DecodesIfNext};
ghost use Rattle.rpki_der.specs.Read.Parse.{optional};
ghost use Rattle.rpki_der.specs.Read.Reads.{Reads, Stays, OnlyMalformed};
ghost use Rattle.rpki_der.specs.Tags.{context};
ghost use Rattle.rpki_lists.specs.Version.{VersionForm, version_at};

use rpki_der::{Constructed, DecodeError, Tag};

// Skips the version, if it is there.
fn skip_tagged(cons: &mut Constructed<'_>) -> Result<Option<()>, DecodeError>
    ensures reads { Reads (λ u. u) (optional (context 0) version_at) cons.old result cons.new }
    ensures stays { Stays result cons.new }
    ensures refused { OnlyMalformed cons.old result }
{
    cons.take_opt_constructed_if(Tag::CTX_0, |cons| cons.skip_u8_if(0))
}

/// Skips the version, which stands under [0], if it is there; it is 0 (RFC 9582, section 4.1;
/// draft-michaelson-rpki-rta, section 4). Refuses by `Malformed`.
pub fn skip_version(cons: &mut Constructed<'_>) -> Result<Option<()>, DecodeError>
    ensures reads { Reads (λ u. u) (optional (context 0) version_at) cons.old result cons.new }
    ensures decodes { DecodesIfNext (context 0) VersionForm (λ u. u) cons.old result cons.new }
    ensures stays { Stays result cons.new }
    ensures refused { OnlyMalformed cons.old result }
{
    cons.holds_octets();
    skip_tagged(cons)
}
