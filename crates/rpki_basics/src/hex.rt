//! Hexadecimal digits at the end of octets.

ghost use Rattle.std.specs.Prelude.{◌≡◌, ◌++◌, OnOk};
ghost use Rattle.rpki_der.specs.Text.Hex.{upper_hex};

use rpki_der::upper_digit;
use std::alloc::AllocError;

/// Puts the two digits of each of these octets at the end of others. Refuses where memory runs out.
pub fn push_hex(text: &mut Vec<u8>, octets: &[u8]) -> Result<(), AllocError>
    ensures { OnOk result (text.new.items ≡ text.old.items ++ upper_hex octets.now) }
{
    for octet in octets {
        text.push(upper_digit(*octet / 16))?;
        text.push(upper_digit(*octet % 16))?;
    }
    Ok(())
}
