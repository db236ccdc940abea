//! Revocation lists.

mod fields;
mod read;

ghost use Rattle.std.specs.Prelude.{◌≡◌, ◌<◌, IfOk, IfSome, length, option_map};
ghost use Rattle.rpki_der.specs.declared.mode.Mode.TheVariants.{Der};
ghost use Rattle.rpki_der.specs.Form.Decodes.{Decodes, DecodesNext, DecodesIfNext};
ghost use Rattle.rpki_der.specs.Read.Parse.{optional};
ghost use Rattle.rpki_der.specs.Read.Reads.{Reads, Stays, Found};
ghost use Rattle.rpki_der.specs.Tags.{SEQUENCE};
ghost use Rattle.rpki_crls.specs.Crl.{CrlForm, crl_at, list_of, IsKept};

use bytes::Bytes;
use read::Contents;
use rpki_der::encode::CapturedEncoder;
use rpki_der::laws::slices_hold_octets;
use rpki_der::{Captured, Constructed, DecodeError, Encode, EncodeError, Mode, Sink, SinkFailed};
use std::alloc::{AllocError, Global};
use std::marker::Model;

/// A revocation list (RFC 5280, section 5; RFC 6487, section 5), with its octets as they were read.
#[derive(Debug, Drop)]
pub struct Crl {
    contents: Contents,
    captured: Captured,
}

impl Model for Crl {
    ghost use Rattle.std.specs.Prelude.{◌≡◌};
    ghost use Rattle.rpki_crls.specs.Crl.{KeptCrl, IsKept, list_of};

    ghost Value = { KeptCrl };

    ghost view = { λ c. record {
      list = list_of (c.contents.contents, c.captured.octets);
      mode = c.captured.mode;
    } };

    ghost invariant = { λ c. IsKept (record {
      list = list_of (c.contents.contents, c.captured.octets);
      mode = c.captured.mode;
    }) × (c.contents.name_mode ≡ c.captured.mode) };
}

impl Crl {
    // The revocation list of these contents and octets.
    fn of(contents: Contents, captured: Captured) -> Crl
        requires form { IsKept (record {
          list = list_of (contents.contents, captured.octets);
          mode = captured.mode;
        }) }
        requires name { contents.name_mode ≡ captured.mode }
        ensures list { result.list ≡ list_of (contents.contents, captured.octets) }
        ensures mode { result.mode ≡ captured.mode }
    {
        Crl { contents, captured }
    }
}

// Reads a revocation list.
fn take_crl(alloc: Global, cons: &mut Constructed<'_>) -> Result<Crl, DecodeError>
    ensures reads { Reads (λ c. c.list) crl_at cons.old result cons.new }
    ensures mode { IfOk result (λ c. c.mode ≡ cons.old.mode) }
    ensures stays { Stays result cons.new }
{
    // The proof needs that each octet is below 256.
    cons.holds_octets();
    match read::take_kept(alloc, cons) {
        Err(e) => Err(e),
        Ok((contents, captured)) => Ok(Crl::of(contents, captured)),
    }
}

// Reads a revocation list, if a SEQUENCE is next.
fn take_opt_crl(alloc: Global, cons: &mut Constructed<'_>) -> Result<Option<Crl>, DecodeError>
    ensures reads { Reads (option_map (λ c. c.list)) (optional SEQUENCE crl_at)
        cons.old result cons.new }
    ensures mode { IfOk result (λ c. IfSome c (λ c. c.mode ≡ cons.old.mode)) }
    ensures stays { Stays result cons.new }
    ensures shorter { IfOk result
        (λ c. IfSome c (λ _. length cons.new.rest < length cons.old.rest)) }
{
    cons.holds_octets();
    match read::take_opt_kept(alloc, cons) {
        Err(e) => Err(e),
        Ok((contents, captured)) => match contents {
            None => Ok(None),
            Some(contents) => Ok(Some(Crl::of(contents, captured))),
        },
    }
}

// Reads the revocation list at the front.
fn read_front(alloc: Global, source: Bytes) -> Result<Crl, DecodeError>
    ensures found { Found (λ c. c.list) (crl_at Der source) result }
    ensures mode { IfOk result (λ c. c.mode ≡ Der) }
{
    Constructed::decode(source, Mode::Der, |cons| take_crl(alloc, cons))
}

impl Crl {
    /// Reads the revocation list at the front of the source, by the rules of DER (RFC 5280, section
    /// 5.1; RFC 6487, section 5). Octets after it are left. Refuses as `take_from` does.
    pub fn decode(alloc: Global, source: Bytes) -> Result<Crl, DecodeError>
        ensures decodes { Decodes (CrlForm Der) (λ c. c.list) source result }
        ensures mode { IfOk result (λ c. c.mode ≡ Der) }
    {
        slices_hold_octets(source.as_slice());
        read_front(alloc, source)
    }

    /// Reads a revocation list, a SEQUENCE of what is signed, the algorithm, and the signature (RFC
    /// 5280, section 5.1; RFC 6487, section 5). The values of extensions are read in DER, whatever
    /// the mode of the reader is. The two times are not compared.
    ///
    /// Refuses by `UNKNOWN_ALGORITHM`, by what times and extensions are refused by, by `Malformed`
    /// for all else, or by `Memory`.
    pub fn take_from(alloc: Global, cons: &mut Constructed<'_>) -> Result<Crl, DecodeError>
        ensures reads { Reads (λ c. c.list) crl_at cons.old result cons.new }
        ensures decodes { DecodesNext CrlForm (λ c. c.list) cons.old result cons.new }
        ensures mode { IfOk result (λ c. c.mode ≡ cons.old.mode) }
        ensures stays { Stays result cons.new }
    {
        cons.holds_octets();
        take_crl(alloc, cons)
    }

    /// Reads a revocation list, if a SEQUENCE is next, and answers `None` if not. Reads and refuses
    /// as `take_from` does. A list that is read takes an octet at least.
    pub fn take_opt_from(
        alloc: Global,
        cons: &mut Constructed<'_>,
    ) -> Result<Option<Crl>, DecodeError>
        ensures reads { Reads (option_map (λ c. c.list)) (optional SEQUENCE crl_at)
            cons.old result cons.new }
        ensures decodes { DecodesIfNext SEQUENCE CrlForm (option_map (λ c. c.list))
            cons.old result cons.new }
        ensures mode { IfOk result (λ c. IfSome c (λ c. c.mode ≡ cons.old.mode)) }
        ensures stays { Stays result cons.new }
        ensures shorter { IfOk result
            (λ c. IfSome c (λ _. length cons.new.rest < length cons.old.rest)) }
    {
        cons.holds_octets();
        take_opt_crl(alloc, cons)
    }

    /// The mode that it was read in.
    pub fn mode(&self) -> Mode
        ensures { result ≡ self.now.mode }
    {
        self.captured.mode()
    }

    /// What writes the octets of the revocation list as they were read, where they are DER, and
    /// answers `NotDer` where they were read in BER.
    pub fn encode_ref(&self) -> CapturedEncoder<'_>
        ensures octets { result.0.now.octets ≡ self.now.list.octets }
        ensures mode { result.0.now.mode ≡ self.now.mode }
        ensures written { CrlForm self.now.mode self.now.list.octets self.now.list }
    {
        self.captured.encode_ref()
    }
}

/// The list is written as it was read, as `encode_ref` says.
impl Encode for Crl {
    ghost use Rattle.rpki_der.specs.declared.mode.Mode.TheVariants.{Der};

    ghost octets = { λ c. c.list.octets };

    ghost is_der = { λ c. c.mode ≡ Der };

    ghost is_short = { λ _. Unit {0} };

    ghost small = { λ _ _. tt };

    fn encoded_len(&self) -> Result<u64, EncodeError> {
        self.encode_ref().encoded_len()
    }

    fn put<W: Sink>(&self, len: u64, out: &mut W) -> Result<(), SinkFailed> {
        self.encode_ref().put(len, out)
    }
}

impl Clone for Crl {
    ghost is_clone = { λ c copy. copy ≡ c };

    fn clone(&self) -> Result<Crl, AllocError> {
        let captured = self.captured.clone()?;
        let contents = self.contents.clone()?;
        Ok(Crl { contents, captured })
    }
}
