//! URIs of trust anchors.

ghost use Rattle.std.specs.Prelude.{◌≡◌, not, Some};
ghost use Rattle.std.specs.String.{string_bytes};
ghost use Rattle.rpki_tal.specs.Uri.{IsTalUriOf, uri_text, is_https};

use bytes::Bytes;
use rpki_basics::{Https, Rsync, uri};
use std::alloc::{AllocError, Global};
use std::fmt;
use std::hash::{Hash, Hasher};

/// A URI under which the certificate of a trust anchor is published (RFC 8630, section 2.2). That
/// the URI of a directory, which section 2.3 forbids, is not refused is this project's own rule.
#[derive(Debug, Drop)]
pub enum TalUri {
    /// An rsync URI (RFC 5781).
    Rsync(Rsync),
    /// An https URI (RFC 9110, section 4.2.2).
    Https(Https),
}

impl TalUri {
    /// The URI with this text. Refuses as `from_bytes` does.
    pub fn from_string(text: String) -> Result<TalUri, uri::Error>
        ensures { IsTalUriOf (string_bytes text) result }
    {
        match Bytes::from_vec(text.into_bytes()) {
            Ok(text) => TalUri::from_bytes(text),
            Err(_) => Err(uri::Error::Memory),
        }
    }

    /// The URI with this text, which is copied. Refuses as `from_bytes` does.
    pub fn from_slice(alloc: Global, text: &[u8]) -> Result<TalUri, uri::Error>
        ensures { IsTalUriOf text.now result }
    {
        let text = Bytes::copy_from_slice(alloc, text)?;
        TalUri::from_bytes(text)
    }

    /// The URI with this text: an rsync URI, or else an https URI (RFC 8630, section 2.2). What is
    /// neither is refused by what is wrong with it as an https URI, as `Https::from_bytes` does;
    /// `Memory` may come too.
    pub fn from_bytes(text: Bytes) -> Result<TalUri, uri::Error>
        ensures { IsTalUriOf text result }
    {
        let copy = text.clone()?;
        match Rsync::from_bytes(copy) {
            Ok(uri) => Ok(TalUri::Rsync(uri)),
            Err(_) => match Https::from_bytes(text) {
                Ok(uri) => Ok(TalUri::Https(uri)),
                Err(e) => Err(e),
            },
        }
    }

    /// Whether it is an rsync URI.
    pub fn is_rsync(&self) -> bool
        ensures { result ≡ not (is_https self.now) }
    {
        match self {
            TalUri::Rsync(_) => true,
            TalUri::Https(_) => false,
        }
    }

    /// Whether it is an https URI.
    pub fn is_https(&self) -> bool
        ensures { result ≡ is_https self.now }
    {
        match self {
            TalUri::Rsync(_) => false,
            TalUri::Https(_) => true,
        }
    }

    /// Its text.
    pub fn as_str(&self) -> &str
        ensures { result.now ≡ uri_text self.now }
    {
        match self {
            TalUri::Rsync(uri) => uri.as_str(),
            TalUri::Https(uri) => uri.as_str(),
        }
    }
}

impl From<Rsync> for TalUri {
    ghost use Rattle.rpki_tal.specs.declared.uri.TalUri.TheVariants.{Rsync};

    ghost from_gives = { λ text uri. uri ≡ Rsync text };

    fn from(uri: Rsync) -> TalUri {
        TalUri::Rsync(uri)
    }
}

impl From<Https> for TalUri {
    ghost use Rattle.rpki_tal.specs.declared.uri.TalUri.TheVariants.{Https};

    ghost from_gives = { λ text uri. uri ≡ Https text };

    fn from(uri: Https) -> TalUri {
        TalUri::Https(uri)
    }
}

impl TryFrom<String> for TalUri {
    type Error = uri::Error;

    ghost try_from_gives = { λ text result. IsTalUriOf (string_bytes text) result };

    fn try_from(text: String) -> Result<TalUri, uri::Error> {
        TalUri::from_string(text)
    }
}

impl Clone for TalUri {
    ghost is_clone = { λ uri copy. copy ≡ uri };

    fn clone(&self) -> Result<TalUri, AllocError> {
        match self {
            TalUri::Rsync(uri) => Ok(TalUri::Rsync(uri.clone()?)),
            TalUri::Https(uri) => Ok(TalUri::Https(uri.clone()?)),
        }
    }
}

/// Two are equal exactly if their texts are.
impl PartialEq for TalUri {
    ghost use Rattle.std.proofs.Common.{rules};
    ghost use Rattle.std.specs.Cmp.Rules.{comparing};
    ghost use Rattle.std.specs.Prelude.{bytes_eq};
    ghost use Rattle.std.specs.Ordering.{on};
    ghost use Rattle.rpki_tal.specs.Uri.{uri_text};

    ghost eq = { on uri_text bytes_eq };

    ghost laws = { Prim.search (comparing, rules) };

    fn eq(&self, other: &TalUri) -> bool {
        self.as_str() == other.as_str()
    }
}

impl Eq for TalUri {
    ghost use Rattle.std.proofs.Common.{rules};
    ghost use Rattle.std.specs.Cmp.Rules.{comparing};

    ghost laws = { Prim.search (comparing, rules) };
}

/// By the text, so that equal ones hash alike.
impl Hash for TalUri {
    ghost use Rattle.std.proofs.Common.{rules};
    ghost use Rattle.std.specs.Cmp.Rules.{hashing};
    ghost use Rattle.std.specs.Hash as fed;
    ghost use Rattle.rpki_tal.specs.Uri.{uri_text};

    ghost hash_input = { λ u. fed.slice fed.u8 (uri_text u) };

    ghost respects_eq = { Prim.search (hashing, rules) };

    fn hash<H: Hasher>(&self, state: &mut H) {
        self.as_str().as_bytes().hash(state);
    }
}

impl fmt::Display for TalUri {
    ghost output = { λ uri. Some (uri_text uri) };

    fn fmt<W: fmt::Write>(&self, f: &mut fmt::Formatter<W>) -> fmt::Result {
        f.write_str(self.as_str())
    }
}
