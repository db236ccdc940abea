//! Octets in hexadecimal digits.

ghost use Rattle.std.specs.Prelude.{◌≡◌, ◌<◌, Some};
ghost use Rattle.rpki_der.specs.Text.Hex.{digit, hex_octet, digits_of, hex, upper_hex};
ghost use Rattle.rpki_der.specs.declared.hex.Case.TheVariants.{Upper};

use std::fmt;
use std::fmt::Write;

/// Octets whose Display is their hexadecimal digits, two for each, in lower case.
#[derive(Clone, Copy)]
pub struct LowerHex<'a>(pub &'a [u8]);

/// Octets whose Display is their hexadecimal digits, two for each, in upper case.
#[derive(Clone, Copy)]
pub struct UpperHex<'a>(pub &'a [u8]);

impl fmt::Display for LowerHex<'_> {
    ghost output = { λ h. Some (hex h.0.now) };

    fn fmt<W: fmt::Write>(&self, f: &mut fmt::Formatter<W>) -> fmt::Result {
        let digits = Digits {
            octets: self.0,
            case: Case::Lower,
        };
        digits.fmt(f)
    }
}

impl fmt::Display for UpperHex<'_> {
    ghost output = { λ h. Some (upper_hex h.0.now) };

    fn fmt<W: fmt::Write>(&self, f: &mut fmt::Formatter<W>) -> fmt::Result {
        let digits = Digits {
            octets: self.0,
            case: Case::Upper,
        };
        digits.fmt(f)
    }
}

/// The case of the digits from ten on.
#[derive(Clone, Copy)]
pub enum Case {
    Lower,
    Upper,
}

// The digits of octets.
#[derive(Clone, Copy)]
struct Digits<'a> {
    octets: &'a [u8],
    case: Case,
}

impl fmt::Display for Digits<'_> {
    ghost output = { λ d. Some (digits_of d.case d.octets.now) };

    fn fmt<W: fmt::Write>(&self, f: &mut fmt::Formatter<W>) -> fmt::Result {
        for octet in self.octets {
            let pair = Pair {
                octet: *octet,
                case: self.case,
            };
            write!(f, "{pair}")?;
        }
        Ok(())
    }
}

// The two digits of an octet.
#[derive(Clone, Copy)]
struct Pair {
    octet: u8,
    case: Case,
}

impl fmt::Display for Pair {
    ghost output = { λ p. Some (hex_octet p.case p.octet) };

    fn fmt<W: fmt::Write>(&self, f: &mut fmt::Formatter<W>) -> fmt::Result {
        let high = digit(self.case, self.octet / 16);
        let low = digit(self.case, self.octet % 16);
        write!(f, "{high}{low}")
    }
}

// The digit of a number below 16.
fn digit(case: Case, n: u8) -> char
    requires { n < 16 }
    ensures value { result ≡ digit case n }
    ensures ascii { result < 128 }
{
    match case {
        _ if n < 10 => (b'0' + n) as char,
        Case::Lower => (b'a' - 10 + n) as char,
        Case::Upper => (b'A' - 10 + n) as char,
    }
}

/// The hexadecimal digit, in upper case, of a number below 16.
pub fn upper_digit(n: u8) -> u8
    requires { n < 16 }
    ensures { result ≡ digit Upper n }
{
    digit(Case::Upper, n) as u8
}
