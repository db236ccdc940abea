//! URIs of texts.

ghost use Rattle.std.specs.Prelude.{◌≡◌};
ghost use Rattle.rpki_extensions.specs.Uri.{rsync_of, https_of};

use bytes::Bytes;
use rpki_basics::{Https, Rsync};

/// A kind of URI that a name may be.
pub trait NamedUri: Drop + Sized {
    ghost use Rattle.std.specs.Prelude.{◌≡◌, ℕ, List, Option};

    // The URI of a text, if it is one.
    ghost of: { List ℕ → Option Self };

    /// The URI of this text, if it is one.
    fn of_text(text: Bytes) -> Option<Self>
        ensures { result ≡ of text };
}

impl NamedUri for Rsync {
    ghost of = { rsync_of };

    fn of_text(text: Bytes) -> Option<Rsync> {
        match Rsync::from_bytes(text) {
            Ok(uri) => Some(uri),
            Err(_) => None,
        }
    }
}

impl NamedUri for Https {
    ghost of = { https_of };

    fn of_text(text: Bytes) -> Option<Https> {
        match Https::from_bytes(text) {
            Ok(uri) => Some(uri),
            Err(_) => None,
        }
    }
}
