//! Contents that are understood.

ghost use Rattle.std.specs.Prelude.{◌≡◌, nat_lt};
ghost use Rattle.std.specs.List.{list_all};
ghost use Rattle.rpki_der.specs.Read.Parse.{Finds, boolean_of};

use crate::mode::Mode;

/// What the contents of a BOOLEAN say.
#[tactic(auto, unfolding(crate::specs::Read::Parse::boolean_of))]
pub fn boolean_of(mode: Mode, contents: &[u8]) -> Option<bool>
    ensures { Finds (λ b. b) result (boolean_of mode contents.now) }
{
    match (mode, contents) {
        (_, [0]) => Some(false),
        (Mode::Der, [255]) => Some(true),
        (Mode::Ber, [_]) => Some(true),
        _ => None,
    }
}

/// Whether octets are characters of an IA5String (X.690, section 8.23).
#[inline(always)]
pub fn is_ia5(contents: &[u8]) -> bool
    ensures { result ≡ list_all (λ b. nat_lt b 128) contents.now }
{
    contents.iter().all(|b| *b < 128)
}
