//! What the key of a certificate is for.

ghost use Rattle.std.specs.Prelude.{◌≡◌};
ghost use Rattle.rpki_der.specs.Form.Decodes.{DecodesNext};
ghost use Rattle.rpki_der.specs.Read.Reads.{Reads, Stays};
ghost use Rattle.rpki_extensions.specs.Usage.{KeyUsageForm, is_bit_set, usage_of, key_usage_at};

use crate::faults;
use rpki_der::{BitString, Constructed, DecodeError};
use rpki_faults::KeyUsage;

// digitalSignature (RFC 5280, section 4.2.1.3).
const DIGITAL_SIGNATURE: usize = 0;

// keyCertSign (RFC 5280, section 4.2.1.3).
const KEY_CERT_SIGN: usize = 5;

// cRLSign (RFC 5280, section 4.2.1.3).
const CRL_SIGN: usize = 6;

// Whether the bit of this number is set (X.690, section 8.6.2). Those that are not used are no
// bits.
fn is_bit_set(bits: &BitString, number: usize) -> bool
    ensures { result ≡ is_bit_set number (bits.now.octets, bits.now.unused) }
{
    let octets = bits.octets.as_slice();
    let count = (8 * octets.len() as u128).saturating_sub(u128::from(bits.unused));
    (number as u128) < count && (octets[number / 8] >> (7 - number % 8)) % 2 == 1
}

// The usage that the bits are, if it is allowed.
fn usage_of(bits: &BitString) -> Option<KeyUsage>
    ensures { result ≡ usage_of (bits.now.octets, bits.now.unused) }
{
    if is_bit_set(bits, KEY_CERT_SIGN) && is_bit_set(bits, CRL_SIGN) {
        Some(KeyUsage::Ca)
    } else if is_bit_set(bits, DIGITAL_SIGNATURE) {
        Some(KeyUsage::Ee)
    } else {
        None
    }
}

// Reads the usage.
fn take_usage(cons: &mut Constructed<'_>) -> Result<KeyUsage, DecodeError>
    ensures reads { Reads (λ usage. usage) key_usage_at cons.old result cons.new }
    ensures stays { Stays result cons.new }
{
    let bits = cons.take_bits()?;
    match usage_of(&bits) {
        Some(usage) => Ok(usage),
        None => Err(cons.refuse_for(faults::WRONG_KEY_USAGE)),
    }
}

/// Reads the usage of a key: of a CA where the bits keyCertSign and cRLSign are set, and else of an
/// end entity where digitalSignature is set (RFC 5280, section 4.2.1.3; RFC 6487, section 4.8.4).
/// That further bits may be set, and that bits that are zero may end them in DER too, are this
/// project's own rules. Refuses by `WRONG_KEY_USAGE` where the bits are those of neither, by
/// `Malformed`, or by `Memory`.
pub fn take_key_usage(cons: &mut Constructed<'_>) -> Result<KeyUsage, DecodeError>
    ensures reads { Reads (λ usage. usage) key_usage_at cons.old result cons.new }
    ensures decodes { DecodesNext KeyUsageForm (λ usage. usage) cons.old result cons.new }
    ensures stays { Stays result cons.new }
{
    cons.holds_octets();
    take_usage(cons)
}
