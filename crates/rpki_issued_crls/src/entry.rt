//! The entries of a revocation list that is made (RFC 5280, section 5.1.2.6).

ghost use Rattle.std.specs.Prelude.{◌≡◌, ◌<◌, ◌^◌, length};
ghost use Rattle.std.specs.List.{flat_map};
ghost use Rattle.rpki_der.specs.Tags.{SEQUENCE};
ghost use Rattle.rpki_der.specs.Write.Parts.{contents_small};
ghost use Rattle.rpki_basics.specs.Time.Form.{time_octets};
ghost use Rattle.rpki_issued_crls.specs.Lists.{entry_contents, entry_octets, revoked_octets};
ghost use Rattle.rpki_issued_crls.specs.Lists.{short_revoked};

use rpki_basics::{Serial, SerialEncoder, Time, TimeEncoder};
use rpki_der::encode::{each, sequence};
use rpki_der::{Encode, EncodeError, Sink, SinkFailed};

/// A certificate that is revoked: its serial number, and when it was revoked (RFC 5280, section
/// 5.1.2.6).
#[derive(Clone, Copy, Debug)]
pub struct RevokedCert {
    /// The serial number.
    pub serial: Serial,
    /// When it was revoked.
    pub time: Time,
}

impl RevokedCert {
    // The serial number and the time.
    fn fields(&self) -> (SerialEncoder<'_>, TimeEncoder)
        ensures serial { result.0.0.now ≡ self.now.serial }
        ensures time { result.1 ≡ time_octets self.now.time }
    {
        (self.serial.encode_ref(), self.time.encode_ref())
    }
}

impl Encode for RevokedCert {
    ghost octets = { entry_octets };

    ghost is_short = { λ r. length (entry_contents r) < 2 ^ 32 };

    ghost small = { λ r h. contents_small SEQUENCE (entry_contents r) h };

    fn encoded_len(&self) -> Result<u64, EncodeError> {
        sequence(self.fields()).encoded_len()
    }

    fn put<W: Sink>(&self, len: u64, out: &mut W) -> Result<(), SinkFailed> {
        sequence(self.fields()).put(len, out)
    }
}

/// What writes the entries in their order, and nothing where there are none.
#[derive(Drop)]
pub struct RevokedEncoder<'a>(pub &'a [RevokedCert]);

impl Encode for RevokedEncoder<'_> {
    ghost octets = { λ e. revoked_octets e.0.now };

    ghost is_short = { λ e. length (flat_map entry_octets e.0.now) < 2 ^ 32 };

    ghost small = { λ e h. short_revoked e.0.now h };

    fn encoded_len(&self) -> Result<u64, EncodeError> {
        if self.0.is_empty() {
            Ok(0)
        } else {
            sequence(each(self.0)).encoded_len()
        }
    }

    fn put<W: Sink>(&self, len: u64, out: &mut W) -> Result<(), SinkFailed> {
        if self.0.is_empty() {
            Ok(())
        } else {
            sequence(each(self.0)).put(len, out)
        }
    }
}
