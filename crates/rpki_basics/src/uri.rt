//! URIs of objects: rsync (RFC 5781) and https (RFC 9110, section 4.2.2).

ghost use Rattle.std.specs.Prelude.{◌≡◌, codes, nat_eq, IfOk, Some};
ghost use Rattle.std.specs.Cmp.{partial_equiv_from_equiv};
ghost use Rattle.std.specs.Cmp.Lexicographic.{pointwise, nat_list_eq_equiv};
ghost use Rattle.rpki_basics.specs.Uri.{IsUriOf, IsJoined, AreRsyncSegments, AreHttpsSegments};
ghost use Rattle.rpki_basics.specs.Uri.{IsRsync, IsHttps, AreUriOctets, join_text, error_text};

mod segments;
mod syntax;

use bytes::Bytes;
use std::alloc::{AllocError, Global};
use std::fmt;
use std::marker::Model;
use syntax::{after_scheme, are_uri_octets, goes_on_as_https, goes_on_as_rsync};

/// Why a text is no URI of the kind that was asked for: the first cause in this order.
#[derive(Debug, Drop)]
pub enum Error {
    /// It has an octet that no URI has (RFC 3986, section 2).
    InvalidCharacters,
    /// It has another scheme, or none (RFC 3986, section 3.1).
    BadScheme,
    /// It has the scheme, but no authority or not the path that is asked for (RFC 3986, section 3).
    BadUri,
    /// No memory was to be had.
    Memory,
}

impl fmt::Display for Error {
    ghost output = { λ error. Some (error_text error) };

    fn fmt<W: fmt::Write>(&self, f: &mut fmt::Formatter<W>) -> fmt::Result {
        f.write_str(match self {
            Error::InvalidCharacters => "invalid characters",
            Error::BadScheme => "bad URI scheme",
            Error::BadUri => "bad URI",
            Error::Memory => "out of memory",
        })
    }
}

impl std::error::Error for Error {}

/// A URI `rsync://authority/module/path` (RFC 5781), kept as its text.
#[derive(Debug, Drop)]
pub struct Rsync {
    text: Bytes,
}

impl Model for Rsync {
    ghost use Rattle.std.specs.Prelude.{ℕ, List};
    ghost use Rattle.rpki_basics.specs.Uri.{IsRsync};

    ghost Value = { List ℕ };

    ghost view = { λ u. u.text };

    ghost invariant = { λ u. IsRsync u.text };
}

/// A URI `https://authority/path` (RFC 9110, section 4.2.2), kept as its text.
#[derive(Debug, Drop)]
pub struct Https {
    text: Bytes,
}

impl Model for Https {
    ghost use Rattle.std.specs.Prelude.{ℕ, List};
    ghost use Rattle.rpki_basics.specs.Uri.{IsHttps};

    ghost Value = { List ℕ };

    ghost view = { λ u. u.text };

    ghost invariant = { λ u. IsHttps u.text };
}

impl Rsync {
    /// The URI of this text. Refuses by the first thing that is wrong with it, in this order:
    /// `InvalidCharacters`, `BadScheme`, `BadUri`.
    pub fn from_bytes(text: Bytes) -> Result<Rsync, Error>
        ensures { IsUriOf (codes "rsync") AreRsyncSegments text result }
    {
        let octets = text.as_slice();
        if !are_uri_octets(octets) {
            return Err(Error::InvalidCharacters);
        }
        match after_scheme(b"rsync", octets) {
            None => Err(Error::BadScheme),
            Some(rest) => {
                if goes_on_as_rsync(rest) {
                    Ok(Rsync { text })
                } else {
                    Err(Error::BadUri)
                }
            }
        }
    }
}

impl Https {
    /// The URI of this text. Refuses by the first thing that is wrong with it, in this order:
    /// `InvalidCharacters`, `BadScheme`, `BadUri`.
    pub fn from_bytes(text: Bytes) -> Result<Https, Error>
        ensures { IsUriOf (codes "https") AreHttpsSegments text result }
    {
        let octets = text.as_slice();
        if !are_uri_octets(octets) {
            return Err(Error::InvalidCharacters);
        }
        match after_scheme(b"https", octets) {
            None => Err(Error::BadScheme),
            Some(rest) => {
                if goes_on_as_https(rest) {
                    Ok(Https { text })
                } else {
                    Err(Error::BadUri)
                }
            }
        }
    }
}

impl Rsync {
    /// Its octets.
    pub fn as_slice(&self) -> &[u8]
        ensures octets { result.now ≡ self.now }
        ensures valid { IsRsync self.now }
    {
        self.text.as_slice()
    }

    /// Its text.
    pub fn as_str(&self) -> &str
        ensures { result.now ≡ self.now }
    {
        ascii(self.text.as_slice())
    }

    /// The URI with this name after it, and a slash between them where the URI does not end in one.
    /// Refuses by `InvalidCharacters`, or else by `BadUri`, where that is no rsync URI, or by
    /// `Memory`.
    pub fn join(&self, alloc: Global, name: &[u8]) -> Result<Rsync, Error>
        ensures { IsJoined self.now name.now result }
    {
        let text = joined(alloc, self.text.as_slice(), name)?;
        Rsync::from_bytes(text)
    }
}

impl Https {
    /// Its octets.
    pub fn as_slice(&self) -> &[u8]
        ensures octets { result.now ≡ self.now }
        ensures valid { IsHttps self.now }
    {
        self.text.as_slice()
    }

    /// Its text.
    pub fn as_str(&self) -> &str
        ensures { result.now ≡ self.now }
    {
        ascii(self.text.as_slice())
    }
}

/// URIs are the same where their texts are.
impl PartialEq for Rsync {
    ghost eq = { pointwise nat_eq };

    ghost laws = { partial_equiv_from_equiv nat_list_eq_equiv };

    fn eq(&self, other: &Rsync) -> bool {
        self.as_slice() == other.as_slice()
    }
}

impl Eq for Rsync {
    ghost laws = { nat_list_eq_equiv };
}

impl Clone for Rsync {
    ghost is_clone = { λ u copy. copy ≡ u };

    fn clone(&self) -> Result<Rsync, AllocError> {
        let text = self.text.clone()?;
        Ok(Rsync { text })
    }
}

/// URIs are the same where their texts are.
impl PartialEq for Https {
    ghost eq = { pointwise nat_eq };

    ghost laws = { partial_equiv_from_equiv nat_list_eq_equiv };

    fn eq(&self, other: &Https) -> bool {
        self.as_slice() == other.as_slice()
    }
}

impl Eq for Https {
    ghost laws = { nat_list_eq_equiv };
}

impl Clone for Https {
    ghost is_clone = { λ u copy. copy ≡ u };

    fn clone(&self) -> Result<Https, AllocError> {
        let text = self.text.clone()?;
        Ok(Https { text })
    }
}

// A text and a name after it, with a slash between them where the text does not end in one.
fn joined(alloc: Global, text: &[u8], name: &[u8]) -> Result<Bytes, AllocError>
    ensures { IfOk result (λ octets. octets ≡ join_text text.now name.now) }
{
    let mut octets = Vec::with_capacity(alloc, text.len() + 1 + name.len())?;
    octets.extend_from_slice(text)?;
    if !text.ends_with(b"/") {
        octets.push(b'/')?;
    }
    octets.extend_from_slice(name)?;
    Ok(Bytes::from_vec(octets)?)
}

// The text of a URI.
fn ascii(octets: &[u8]) -> &str
    requires { AreUriOctets octets.now }
    ensures { result.now ≡ octets.now }
{
    match str::from_utf8(octets) {
        Ok(text) => text,
        Err(_) => unreachable!(),
    }
}

impl From<AllocError> for Error {
    ghost use Rattle.rpki_basics.specs.declared.uri.Error.TheVariants.{Memory};

    ghost from_gives = { λ _ e. e ≡ Memory };

    fn from(_e: AllocError) -> Error {
        Error::Memory
    }
}
