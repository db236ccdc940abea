//! Contents of an INTEGER.

ghost use Rattle.std.specs.Prelude.{◌<◌, None, Some, Option};
ghost use Rattle.rpki_der.specs.Read.Parse.{digits_of, number_of, unsigned_of, Finds};
ghost use Rattle.rpki_der.specs.Numbers.{number};

/// The number with these digits to base 256, the highest one first. There are at most four, and no
/// digits are zero.
#[tactic(auto, unfolding(crate::specs::Read::Parse::number_of))]
#[inline(always)]
pub fn number_in(digits: &[u8]) -> Option<u32>
    ensures { Finds (λ n. n) result (number_of 4 digits.now) }
{
    match digits {
        [] => Some(0),
        [a] => Some(*a as u32),
        [a, b] => Some(*a as u32 * 256 + *b as u32),
        [a, b, c] => Some((*a as u32 * 256 + *b as u32) * 256 + *c as u32),
        [a, b, c, d] => Some(((*a as u32 * 256 + *b as u32) * 256 + *c as u32) * 256 + *d as u32),
        _ => None,
    }
}

// The digits to base 256 of a number that is not negative, from its shortest contents: without the
// 0 that says so.
#[tactic(auto, unfolding(crate::specs::Read::Parse::digits_of))]
#[inline(always)]
fn digits_of(contents: &[u8]) -> Option<&[u8]>
    ensures { Finds (λ digits. digits.now) result (digits_of contents.now) }
{
    match contents {
        [] => None,
        [0, rest @ ..] if !rest.is_empty() => { if rest[0] < 128 { None } else { Some(rest) } }
        [a, ..] => { if *a < 128 { Some(contents) } else { None } }
    }
}

/// A number of at most 32 bits, from its shortest contents (X.690, section 8.3).
#[tactic(auto, unfolding(crate::specs::Read::Parse::unsigned_of))]
#[inline(always)]
pub fn u32_of(contents: &[u8]) -> Option<u32>
    ensures { Finds (λ n. n) result (unsigned_of 4 contents.now) }
{
    number_in(digits_of(contents)?)
}

/// A number of at most 8 bits, from its shortest contents: one octet, or two of which the first is
/// 0 (X.690, section 8.3).
#[tactic(auto, unfolding(crate::specs::Read::Parse::unsigned_of, crate::specs::Read::Parse::digits_of, crate::specs::Read::Parse::number_of))]
#[inline(always)]
pub fn u8_of(contents: &[u8]) -> Option<u8>
    ensures { Finds (λ n. n) result (unsigned_of 1 contents.now) }
{
    match contents {
        [a] if *a < 128 => Some(*a),
        [0, a] if *a >= 128 => Some(*a),
        _ => None,
    }
}

// Twenty digits to base 256, the highest one first: these, after zeros.
#[tactic(auto, unfolding(crate::specs::Read::Parse::number_of))]
fn padded(digits: &[u8]) -> Option<[u8; 20]>
    ensures { Finds (λ octets. number 0 octets) result (number_of 20 digits.now) }
{
    if digits.len() > 20 {
        return None;
    }
    let mut octets = [0u8; 20];
    let start = 20 - digits.len();
    'digits: for i in 0..digits.len() {
        octets[start + i] = digits[i];
    }
    Some(octets)
}

/// A number of at most 160 bits, from its shortest contents.
#[tactic(auto, unfolding(crate::specs::Read::Parse::unsigned_of))]
pub fn u160_of(contents: &[u8]) -> Option<[u8; 20]>
    ensures { Finds (λ octets. number 0 octets) result (unsigned_of 20 contents.now) }
{
    padded(digits_of(contents)?)
}
