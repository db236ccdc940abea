//! Serial numbers.

ghost use Rattle.std.proofs.Common.{rules};
ghost use Rattle.std.specs.Cmp.Rules.{comparing};
ghost use Rattle.std.specs.Ordering.{nat_cmp, as_partial_cmp};
ghost use Rattle.std.specs.Prelude.{◌≡◌, ◌==◌, ◌<◌, ◌^◌, length, Some};
ghost use Rattle.rpki_der.specs.Numbers.{number};
ghost use Rattle.rpki_der.specs.Read.Parse.{u160_at};
ghost use Rattle.rpki_der.specs.Read.Reads.{Reads, Stays, OnlyMalformed};
ghost use Rattle.rpki_der.specs.Form.Decodes.{DecodesNext};
ghost use Rattle.rpki_der.specs.Write.Written.{significant};
ghost use Rattle.rpki_der.specs.declared.mode.Mode.TheVariants.{Der};
ghost use Rattle.rpki_basics.specs.Serial.{digits, SerialForm, serial_octets, serial_text};
ghost use Rattle.rpki_basics.specs.Serial.{hex_text};

use rpki_der::encode::integer_of;
use rpki_der::laws::slices_hold_octets;
use rpki_der::{Constructed, DecodeError, Encode, EncodeError, LowerHex, Sink, SinkFailed};
use std::cmp::Ordering;
use std::fmt;
use std::fmt::Write;
use std::marker::Model;

/// A number below 2^160, zero included, which is wider than RFC 5280, section 4.1.2.2: this
/// project's own rule.
#[derive(Clone, Copy, Debug)]
pub struct Serial {
    octets: [u8; 20],
}

impl Model for Serial {
    ghost use Rattle.std.specs.Prelude.{ℕ};
    ghost use Rattle.rpki_der.specs.Numbers.{number};
    ghost use Rattle.rpki_basics.specs.Serial.{digits, IsDigits};
    ghost use Rattle.rpki_basics.specs.Digits.{digits_again};

    ghost Value = { ℕ };

    ghost view = { λ s. number 0 s.octets };

    ghost invariant = { λ s. IsDigits s.octets };

    ghost inverse = { λ n. record { octets = digits 20 n } };

    ghost inverse_ok = { λ s h. λ i. record { octets = digits_again s.octets h i } };
}

impl PartialEq for Serial {
    ghost eq = { λ a b. a == b };

    ghost laws = { Prim.search (comparing, rules) };

    fn eq(&self, other: &Serial) -> bool {
        self.octets == other.octets
    }
}

impl Eq for Serial {
    ghost laws = { Prim.search (comparing, rules) };
}

impl PartialOrd for Serial {
    ghost partial_cmp = { as_partial_cmp nat_cmp };

    ghost laws = { Prim.search (comparing, rules) };

    fn partial_cmp(&self, other: &Serial) -> Option<Ordering> {
        Some(self.cmp(other))
    }
}

/// The order of the numbers.
impl Ord for Serial {
    ghost cmp = { nat_cmp };

    ghost total = { Prim.search (comparing, rules) };

    ghost matches_partial_cmp = { Prim.search (comparing, rules) };

    ghost matches_eq = { Prim.search (comparing, rules) };

    fn cmp(&self, other: &Serial) -> Ordering {
        self.octets.cmp(&other.octets)
    }
}

impl From<u64> for Serial {
    ghost from_gives = { λ n serial. serial ≡ n };

    #[tactic(auto, using(crate::proofs::BigEndian::number_u64))]
    fn from(n: u64) -> Serial {
        let [a, b, c, d, e, f, g, h] = n.to_be_bytes();
        let octets = [0, 0, 0, 0, 0, 0, 0, 0, 0, 0, 0, 0, a, b, c, d, e, f, g, h];
        slices_hold_octets(&octets);
        Serial { octets }
    }
}

// Reads a serial number.
fn take_serial(cons: &mut Constructed<'_>) -> Result<Serial, DecodeError>
    ensures reads { Reads (λ s. s) u160_at cons.old result cons.new }
    ensures stays { Stays result cons.new }
    ensures refused { OnlyMalformed cons.old result }
{
    let octets = cons.take_unsigned()?;
    slices_hold_octets(&octets);
    Ok(Serial { octets })
}

/// What writes a serial number, as an INTEGER in its shortest form.
#[derive(Drop)]
pub struct SerialEncoder<'a>(pub &'a Serial);

impl Encode for SerialEncoder<'_> {
    ghost use Rattle.rpki_der.specs.Tags.{INTEGER};
    ghost use Rattle.rpki_der.specs.Write.Parts.{contents_small};
    ghost use Rattle.rpki_der.specs.Write.Written.{integer_contents};
    ghost use Rattle.rpki_basics.specs.Serial.{digits, serial_octets};

    ghost octets = { λ e. serial_octets e.0.now };

    ghost is_short = { λ e. length (integer_contents (digits 20 e.0.now)) < 2 ^ 32 };

    ghost small = { λ e h. contents_small INTEGER (integer_contents (digits 20 e.0.now)) h };

    fn encoded_len(&self) -> Result<u64, EncodeError> {
        integer_of(self.0.digits()).encoded_len()
    }

    fn put<W: Sink>(&self, len: u64, out: &mut W) -> Result<(), SinkFailed> {
        integer_of(self.0.digits()).put(len, out)
    }
}

impl Serial {
    /// Reads a serial number: an INTEGER that is not negative and below 2^160, in DER and in BER
    /// alike. Zero, and a number whose contents have 21 octets, are read too, which is wider than
    /// RFC 5280, section 4.1.2.2: this project's own rule. All else is refused by `Malformed`.
    pub fn take_from(cons: &mut Constructed<'_>) -> Result<Serial, DecodeError>
        ensures reads { Reads (λ s. s) u160_at cons.old result cons.new }
        ensures decodes { DecodesNext SerialForm (λ s. s) cons.old result cons.new }
        ensures stays { Stays result cons.new }
        ensures refused { OnlyMalformed cons.old result }
    {
        cons.holds_octets();
        take_serial(cons)
    }

    /// What writes the number as an INTEGER in its shortest form (RFC 5280, section 4.1.2.2).
    pub fn encode_ref(&self) -> SerialEncoder<'_>
        ensures serial { result.0.now ≡ self.now }
        ensures written { SerialForm Der (serial_octets self.now) self.now }
    {
        // What a value's type promises is known to the proof only where one of its fields is read.
        let _ = &self.octets;
        SerialEncoder(self)
    }

    // Its twenty digits to base 256, the highest one first.
    fn digits(&self) -> &[u8]
        ensures { result.now ≡ digits 20 self.now }
    {
        &self.octets
    }

    // The octets without zeros in front.
    fn significant(&self) -> &[u8]
        ensures { result.now ≡ significant (digits 20 self.now) }
    {
        without_zeros(self.digits())
    }
}

// The digits without zeros in front.
fn without_zeros(digits: &[u8]) -> &[u8]
    ensures { result.now ≡ significant digits.now }
{
    let mut rest = digits;
    'rest: while !rest.is_empty() {
        if rest[0] != 0 {
            return rest;
        }
        rest = &rest[1..];
    }
    rest
}

/// The number in lower hexadecimal digits, without zeros in front; `0` for zero.
impl fmt::Display for Serial {
    ghost use Rattle.rpki_basics.specs.Serial.{serial_text};

    ghost output = { λ s. Some (serial_text s) };

    fn fmt<W: fmt::Write>(&self, f: &mut fmt::Formatter<W>) -> fmt::Result {
        let number = ShortHex(self.significant());
        write!(f, "{number}")
    }
}

/// Octets in lower hexadecimal digits, the first without a zero in front; `0` for no octets.
#[derive(Clone, Copy)]
struct ShortHex<'a>(&'a [u8]);

impl fmt::Display for ShortHex<'_> {
    ghost use Rattle.rpki_basics.specs.Serial.{hex_text};

    ghost output = { λ h. Some (hex_text h.0.now) };

    fn fmt<W: fmt::Write>(&self, f: &mut fmt::Formatter<W>) -> fmt::Result {
        if self.0.is_empty() {
            return f.write_str("0");
        }
        let first = self.0[0];
        let others = LowerHex(&self.0[1..]);
        write!(f, "{first:x}{others}")
    }
}
