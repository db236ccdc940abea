//! Certificates.

mod fields;
mod read;

ghost use Rattle.std.specs.Prelude.{◌≡◌, ◌<◌, IfOk, IfSome, length, option_map};
ghost use Rattle.rpki_der.specs.declared.mode.Mode.TheVariants.{Der};
ghost use Rattle.rpki_der.specs.Form.Decodes.{Decodes, DecodesNext, DecodesIfNext};
ghost use Rattle.rpki_der.specs.Read.Parse.{optional};
ghost use Rattle.rpki_der.specs.Read.Reads.{Reads, Stays, Found};
ghost use Rattle.rpki_der.specs.Tags.{SEQUENCE};
ghost use Rattle.rpki_certs.specs.Cert.{CertForm, cert_at, certificate_of, IsKept, both_in};

use bytes::Bytes;
pub use fields::are_same;
use read::Contents;
use rpki_der::encode::CapturedEncoder;
use rpki_der::laws::slices_hold_octets;
use rpki_der::{Captured, Constructed, DecodeError, Encode, EncodeError, Mode, Sink, SinkFailed};
use std::alloc::{AllocError, Global};
use std::marker::Model;

/// A certificate of resources (RFC 5280, section 4.1; RFC 6487, section 4), with its octets as they
/// were read.
#[derive(Debug, Drop)]
pub struct Cert {
    contents: Contents,
    captured: Captured,
}

impl Model for Cert {
    ghost use Rattle.std.specs.Prelude.{◌≡◌};
    ghost use Rattle.rpki_certs.specs.Cert.{KeptCertificate, IsKept, certificate_of, both_in};

    ghost Value = { KeptCertificate };

    ghost view = { λ c. record {
      certificate = certificate_of (c.contents.contents, c.captured.octets);
      mode = c.captured.mode;
    } };

    ghost invariant = { λ c. IsKept (record {
      certificate = certificate_of (c.contents.contents, c.captured.octets);
      mode = c.captured.mode;
    }) × (c.contents.names ≡ both_in c.captured.mode) };
}

impl Cert {
    // The certificate of these contents and octets.
    fn of(contents: Contents, captured: Captured) -> Cert
        requires form { IsKept (record {
          certificate = certificate_of (contents.contents, captured.octets);
          mode = captured.mode;
        }) }
        requires names { contents.names ≡ both_in captured.mode }
        ensures certificate { result.certificate
            ≡ certificate_of (contents.contents, captured.octets) }
        ensures mode { result.mode ≡ captured.mode }
    {
        Cert { contents, captured }
    }
}

// Reads a certificate.
fn take_cert(cons: &mut Constructed<'_>, alloc: Global) -> Result<Cert, DecodeError>
    ensures reads { Reads (λ c. c.certificate) cert_at cons.old result cons.new }
    ensures mode { IfOk result (λ c. c.mode ≡ cons.old.mode) }
    ensures stays { Stays result cons.new }
{
    // The proof needs that each octet is below 256.
    cons.holds_octets();
    match read::take_kept(cons, alloc) {
        Err(e) => Err(e),
        Ok((contents, captured)) => Ok(Cert::of(contents, captured)),
    }
}

// Reads a certificate, if a SEQUENCE is next.
fn take_opt_cert(cons: &mut Constructed<'_>, alloc: Global) -> Result<Option<Cert>, DecodeError>
    ensures reads { Reads (option_map (λ c. c.certificate)) (optional SEQUENCE cert_at)
        cons.old result cons.new }
    ensures mode { IfOk result (λ c. IfSome c (λ c. c.mode ≡ cons.old.mode)) }
    ensures stays { Stays result cons.new }
    ensures shorter { IfOk result
        (λ c. IfSome c (λ _. length cons.new.rest < length cons.old.rest)) }
{
    cons.holds_octets();
    match read::take_opt_kept(cons, alloc) {
        Err(e) => Err(e),
        Ok((contents, captured)) => match contents {
            None => Ok(None),
            Some(contents) => Ok(Some(Cert::of(contents, captured))),
        },
    }
}

// Reads the certificate at the front.
fn read_front(alloc: Global, source: Bytes) -> Result<Cert, DecodeError>
    ensures found { Found (λ c. c.certificate) (cert_at Der source) result }
    ensures mode { IfOk result (λ c. c.mode ≡ Der) }
{
    Constructed::decode(source, Mode::Der, |cons| take_cert(cons, alloc))
}

impl Cert {
    /// Reads the certificate at the front of the source, by the rules of DER (RFC 5280, section
    /// 4.1; RFC 6487, section 4). Octets after it are left. Refuses as `take_from` does.
    pub fn decode(alloc: Global, source: Bytes) -> Result<Cert, DecodeError>
        ensures decodes { Decodes (CertForm Der) (λ c. c.certificate) source result }
        ensures mode { IfOk result (λ c. c.mode ≡ Der) }
    {
        slices_hold_octets(source.as_slice());
        read_front(alloc, source)
    }

    /// Reads a certificate, a SEQUENCE of what is signed, the algorithm, and the signature (RFC
    /// 5280, section 4.1; RFC 6487, section 4). The values of extensions are read in DER, whatever
    /// the mode of the reader is.
    ///
    /// Refuses by `UNKNOWN_ALGORITHM`, by what times and extensions are refused by, by `Malformed`
    /// for all else, or by `Memory`.
    pub fn take_from(alloc: Global, cons: &mut Constructed<'_>) -> Result<Cert, DecodeError>
        ensures reads { Reads (λ c. c.certificate) cert_at cons.old result cons.new }
        ensures decodes { DecodesNext CertForm (λ c. c.certificate) cons.old result cons.new }
        ensures mode { IfOk result (λ c. c.mode ≡ cons.old.mode) }
        ensures stays { Stays result cons.new }
    {
        cons.holds_octets();
        take_cert(cons, alloc)
    }

    /// Reads a certificate, if a SEQUENCE is next, and answers `None` if not. Reads and refuses as
    /// `take_from` does. A certificate that is read takes an octet at least.
    pub fn take_opt_from(
        alloc: Global,
        cons: &mut Constructed<'_>,
    ) -> Result<Option<Cert>, DecodeError>
        ensures reads { Reads (option_map (λ c. c.certificate)) (optional SEQUENCE cert_at)
            cons.old result cons.new }
        ensures decodes { DecodesIfNext SEQUENCE CertForm (option_map (λ c. c.certificate))
            cons.old result cons.new }
        ensures mode { IfOk result (λ c. IfSome c (λ c. c.mode ≡ cons.old.mode)) }
        ensures stays { Stays result cons.new }
        ensures shorter { IfOk result
            (λ c. IfSome c (λ _. length cons.new.rest < length cons.old.rest)) }
    {
        cons.holds_octets();
        take_opt_cert(cons, alloc)
    }

    /// The mode that it was read in.
    pub fn mode(&self) -> Mode
        ensures { result ≡ self.now.mode }
    {
        self.captured.mode()
    }

    /// What writes the octets of the certificate as they were read, where they are DER, and answers
    /// `NotDer` where they were read in BER.
    pub fn encode_ref(&self) -> CapturedEncoder<'_>
        ensures octets { result.0.now.octets ≡ self.now.certificate.octets }
        ensures mode { result.0.now.mode ≡ self.now.mode }
        ensures written { CertForm self.now.mode self.now.certificate.octets self.now.certificate }
    {
        self.captured.encode_ref()
    }
}

/// The certificate is written as it was read, as `encode_ref` says.
impl Encode for Cert {
    ghost use Rattle.rpki_der.specs.declared.mode.Mode.TheVariants.{Der};

    ghost octets = { λ c. c.certificate.octets };

    ghost is_der = { λ c. c.mode ≡ Der };

    ghost is_short = { λ _. Unit {0} };

    ghost small = { λ _ _. tt };

    fn encoded_len(&self) -> Result<u64, EncodeError> {
        self.encode_ref().encoded_len()
    }

    fn put<W: Sink>(&self, len: u64, out: &mut W) -> Result<(), SinkFailed> {
        self.encode_ref().put(len, out)
    }
}

impl Clone for Cert {
    ghost is_clone = { λ c copy. copy ≡ c };

    fn clone(&self) -> Result<Cert, AllocError> {
        let captured = self.captured.clone()?;
        let contents = self.contents.clone()?;
        Ok(Cert { contents, captured })
    }
}
