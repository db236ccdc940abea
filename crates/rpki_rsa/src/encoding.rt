//! Encoded messages.

ghost use Rattle.std.specs.Prelude.{◌≡◌, ◌-◌, ◌*◌, ◌≤◌, ◌++◌, length, replicate};
ghost use Rattle.rpki_der.specs.Numbers.{number};
ghost use Rattle.rpki_rsa.specs.Limbs.{value, limb_octets};
ghost use Rattle.rpki_rsa.specs.Signature.{encoded_message, least_octets, most_octets};
ghost use Rattle.rpki_rsa.specs.Signature.{padding_front, padding_octet};

use crate::octets::set_octets;
use sha2::{Digest, Sha256};

// How many octets the longest encoded message has.
const MOST_OCTETS: usize = 512;

// What the padding is made of (RFC 8017, section 9.2, step 4).
const PADDING: u8 = 0xFF;

// What stands between the padding and the digest: 00, and a DigestInfo of SHA-256 up to its digest
// (RFC 8017, section 9.2, step 5 and note 1).
const DIGEST_INFO: [u8; 20] = [
    0x00, 0x30, 0x31, 0x30, 0x0D, 0x06, 0x09, 0x60, 0x86, 0x48, 0x01, 0x65, 0x03, 0x04, 0x02, 0x01,
    0x05, 0x00, 0x04, 0x20,
];

// Writes 00, 01 and the padding.
fn pad(octets: &mut [u8])
    requires { 2 ≤ length octets.old }
    ensures { octets.new ≡ padding_front ++ replicate (length octets.new - 2) padding_octet }
{
    octets.fill(PADDING);
    octets[0] = 0x00;
    octets[1] = 0x01;
}

// Writes the encoded message.
fn lay_out(octets: &mut [u8], message: &[u8])
    requires { least_octets ≤ length octets.old }
    ensures { octets.new ≡ encoded_message (length octets.old) message.now }
{
    let digest = Sha256::digest(message);
    let (front, end) = octets.split_at_mut(octets.len() - digest.len());
    end.copy_from_slice(&digest);
    let (padded, info) = front.split_at_mut(front.len() - DIGEST_INFO.len());
    info.copy_from_slice(&DIGEST_INFO);
    pad(padded);
}

// Sets limbs to the number of the encoded message of k octets.
pub fn set_encoded(t: &mut [u64], k: usize, message: &[u8])
    requires room { k ≤ limb_octets * length t.old }
    requires long { least_octets ≤ k }
    requires most { k ≤ most_octets }
    ensures { value t.new ≡ number 0 (encoded_message k message.now) }
{
    let mut octets = [0u8; MOST_OCTETS];
    let octets = &mut octets[..k];
    lay_out(octets, message);
    set_octets(t, octets);
}
