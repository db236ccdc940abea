//! Trust anchor locators.

ghost use Rattle.std.specs.Prelude.{◌≡◌, ◌+◌, IfOk, OnOk, OnErr};
ghost use Rattle.std.specs.String.{string_bytes};
ghost use Rattle.std.specs.Slice.Iter.{iter_rest};
ghost use Rattle.rpki_tal.specs.Uri.{https_first};
ghost use Rattle.rpki_tal.specs.Read.{ReadsTal, failed_calls};

use crate::error::ReadError;
use crate::info::TalInfo;
use crate::text::read_text;
use crate::uri::TalUri;
use rpki_basics::PublicKey;
use rpki_der::{Source, SourceError};
use std::alloc::{AllocError, Global};
use std::marker::Model;
use std::rc::Rc;
use std::slice::Iter;

/// A trust anchor locator (RFC 8630): where the certificate of a trust anchor is published, and the
/// key that it has to have. Contracts see it as its name, its URIs and the bits of its key.
#[derive(Debug, Drop)]
pub struct Tal {
    uris: Vec<TalUri>,
    key_info: PublicKey,
    info: Rc<TalInfo>,
}

impl Model for Tal {
    ghost use Rattle.rpki_tal.specs.Tal.{Locator};

    ghost Value = { Locator };

    ghost view = { λ t.
        record { name = t.info.value; uris = t.uris.items; key = t.key_info } };
}

impl Tal {
    /// Reads the locator that is all the text of a source, to its end (RFC 8630, section 2.2), and
    /// gives it this name. A source that does not tell its octets may have given any text.
    ///
    /// Refuses by `Io` exactly where a call of the source has failed; by `UnexpectedEof`, `BadUri`,
    /// `BadKeyInfoEncoding` or `BadKeyInfo` for what is wrong with the text; or by `Memory`.
    pub fn read_named<S: Source>(
        alloc: Global,
        name: String,
        source: &mut S,
    ) -> Result<Tal, ReadError>
        ensures read { ReadsTal (S.left source.old) (S.left source.new) result }
        ensures named { IfOk result (λ tal. tal.name ≡ string_bytes name) }
        ensures io { S.failures source.new ≡ S.failures source.old + failed_calls result }
    {
        let text = match source.read_all(alloc) {
            Ok(text) => text,
            Err(SourceError::Io) => return Err(ReadError::Io),
            Err(SourceError::Memory) => return Err(ReadError::Memory),
        };
        let (uris, key_info) = read_text(alloc, text.as_slice())?;
        let info = TalInfo::from_name(name).into_rc(alloc)?;
        Ok(Tal {
            uris,
            key_info,
            info,
        })
    }

    /// Puts the https URIs before the rsync URIs, each kind in its order. Where memory runs out,
    /// the URIs stay as they were.
    pub fn prefer_https(&mut self) -> Result<(), AllocError>
        ensures ordered { OnOk result
            (self.new ≡ record self.old { uris = https_first self.old.uris }) }
        ensures same { OnErr result (self.new ≡ self.old) }
    {
        self.uris.sort_by_key(|uri| uri.is_rsync())
    }

    /// The URIs under which the certificate of the trust anchor is published, in their order.
    pub fn uris(&self) -> Iter<'_, TalUri>
        ensures { iter_rest result ≡ self.now.uris }
    {
        self.uris.iter()
    }

    /// The key of the trust anchor.
    pub fn key_info(&self) -> &PublicKey
        ensures { result.now ≡ self.now.key }
    {
        &self.key_info
    }

    /// The name of the locator.
    pub fn info(&self) -> &Rc<TalInfo>
        ensures { result.now.value ≡ self.now.name }
    {
        &self.info
    }
}

impl Clone for Tal {
    ghost is_clone = { λ tal copy. copy ≡ tal };

    fn clone(&self) -> Result<Tal, AllocError> {
        Ok(Tal {
            uris: self.uris.clone()?,
            key_info: self.key_info.clone()?,
            info: self.info.clone()?,
        })
    }
}
