//! Numbers in hexadecimal: serial numbers as `openssl x509 -serial` prints them, or plain digits.

ghost use Rattle.std.specs.Prelude.{◌≡◌, IfOk, string_bytes};
ghost use Rattle.rpki_show.specs.Grows.{Grows};
ghost use Rattle.rpki_show.specs.Texts.Serial.{serial_hex, paired, hexadecimal};

use rpki_basics::Serial;
use std::alloc::{AllocError, Global};
use std::fmt::Write;

/// How a number is written in hexadecimal.
#[derive(Clone, Copy, Debug, PartialEq, Eq)]
pub enum Hexadecimal {
    /// In lower case, without a zero in front; 0 for zero.
    Plain,
    /// In upper case, with two digits for each octet, as `serial_hex` has it.
    Octets,
}

/// Appends a number, written so. Refuses where memory runs out.
pub fn push_hexadecimal(
    alloc: Global,
    text: &mut String,
    way: Hexadecimal,
    number: Serial,
) -> Result<(), AllocError>
    ensures { Grows result text.old text.new (hexadecimal way number) }
{
    match way {
        Hexadecimal::Plain => write!(text, "{number}"),
        Hexadecimal::Octets => {
            let number = serial_hex(alloc, number)?;
            write!(text, "{number}")
        }
    }
}

/// A serial number in upper hexadecimal digits, two for each octet, without octets of zeros in
/// front; `00` for zero.
#[tactic(auto, unfolding(crate::specs::Texts::Serial::serial_hex))]
pub fn serial_hex(alloc: Global, serial: Serial) -> Result<String, AllocError>
    ensures { IfOk result (λ text. string_bytes text ≡ serial_hex serial) }
{
    let mut digits = String::new(alloc);
    write!(digits, "{serial}")?;
    let digits = paired(alloc, &digits)?;
    digits.to_ascii_uppercase(alloc)
}

/// Digits, with a 0 in front where their number is odd.
fn paired(alloc: Global, digits: &str) -> Result<String, AllocError>
    ensures { IfOk result (λ text. string_bytes text ≡ paired digits.now) }
{
    let mut text = String::new(alloc);
    if digits.len() % 2 == 0 {
        write!(text, "{digits}")?;
    } else {
        write!(text, "0{digits}")?;
    }
    Ok(text)
}
