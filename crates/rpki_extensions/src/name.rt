//! Names.

ghost use Rattle.std.specs.Prelude.{◌≡◌, IfOk};
ghost use Rattle.rpki_der.specs.Form.Keyed.{first_said};
ghost use Rattle.rpki_der.specs.Read.Reads.{Reads};
ghost use Rattle.rpki_extensions.specs.Names.{general_name_at, general_names_at, named};

use crate::uri::NamedUri;
use bytes::Bytes;
use rpki_der::{Constructed, DecodeError, Tag};
use std::alloc::{AllocError, Global};

/// A name (RFC 5280, section 4.2.1.6).
#[derive(Debug, Drop)]
pub enum GeneralName {
    /// The text of a URI.
    Uri(Bytes),
    /// A name of another kind, which is not kept.
    Other,
}

// Reads a name. Refuses by `Malformed` where no value stands there, or by `Memory`.
pub fn take_general_name(cons: &mut Constructed<'_>) -> Result<GeneralName, DecodeError>
    ensures { Reads (λ name. name) general_name_at cons.old result cons.new }
{
    match cons.take_opt_primitive_if(Tag::CTX_6_PRIMITIVE)? {
        Some(text) => Ok(GeneralName::Uri(text)),
        None => {
            cons.skip_one()?;
            Ok(GeneralName::Other)
        }
    }
}

// Reads names, up to the end. Refuses as `take_general_name` does.
pub fn take_general_names(
    alloc: Global,
    cons: &mut Constructed<'_>,
) -> Result<Vec<GeneralName>, DecodeError>
    ensures { Reads (λ names. names.items) general_names_at cons.old result cons.new }
{
    let mut names = Vec::new(alloc);
    while !cons.is_at_end()? {
        let name = take_general_name(cons)?;
        names.push(name)?;
    }
    Ok(names)
}

// The URI that a name is, or `None`. Refuses where memory runs out.
pub fn uri_of<U: NamedUri>(name: &GeneralName) -> Result<Option<U>, AllocError>
    ensures { IfOk result (λ uri. uri ≡ named U.of name.now) }
{
    match name {
        GeneralName::Uri(text) => Ok(U::of_text(text.clone()?)),
        GeneralName::Other => Ok(None),
    }
}

// The first URI of names, or `None`. Refuses where memory runs out.
pub fn first_uri<U: NamedUri>(names: &[GeneralName]) -> Result<Option<U>, AllocError>
    ensures { IfOk result (λ uri. uri ≡ first_said (named U.of) names.now) }
{
    for name in names {
        if let Some(uri) = uri_of(name)? {
            return Ok(Some(uri));
        }
    }
    Ok(None)
}
