//! Texts, cut at an octet.

ghost use Rattle.std.specs.Prelude.{◌≡◌, ◌∷◌, [], MatchOption, IfSome, ◌<◌, length};
ghost use Rattle.rpki_basics.specs.Segments.{segments};

// The octets up to the first slash, and what follows it, if there is one.
pub fn split_segment(text: &[u8]) -> (&[u8], Option<&[u8]>)
    ensures segments { MatchOption result.1 (segments text.now ≡ result.0.now ∷ [])
        (λ rest. segments text.now ≡ result.0.now ∷ segments rest.now) }
    ensures shorter { IfSome result.1 (λ rest. length rest.now < length text.now) }
{
    'octets: for i in 0..text.len() {
        if text[i] == b'/' {
            return (&text[..i], Some(&text[i + 1..]));
        }
    }
    (text, None)
}
