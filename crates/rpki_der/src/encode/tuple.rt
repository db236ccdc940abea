//! Values that are written one after another.

ghost use Rattle.std.specs.Prelude.{◌++◌};
ghost use Rattle.rpki_der.specs.Write.Parts.{pair_small};

use crate::encode::{Encode, EncodeError, len_of};
use crate::stream::{Sink, SinkFailed};

/// One after another.
impl<A: Encode, B: Encode> Encode for (A, B) {
    ghost octets = { λ s. A.octets s.0 ++ B.octets s.1 };

    ghost is_der = { λ s. A.is_der s.0 × B.is_der s.1 };

    ghost is_short = { λ s. A.is_short s.0 × B.is_short s.1 };

    ghost small = { λ x. pair_small _ _ (A.small x.0) (B.small x.1) };

    #[inline(always)]
    fn encoded_len(&self) -> Result<u64, EncodeError> {
        let a = self.0.encoded_len()?;
        let b = self.1.encoded_len()?;
        match a.checked_add(b) {
            Some(n) => Ok(n),
            None => Err(EncodeError::TooLong),
        }
    }

    #[inline(always)]
    fn put<W: Sink>(&self, len: u64, out: &mut W) -> Result<(), SinkFailed> {
        let first = len_of(&self.0);
        self.0.put(first, out)?;
        self.1.put(len - first, out)
    }
}

impl<A: Encode, B: Encode, C: Encode> Encode for (A, B, C) {
    ghost octets = { λ s. A.octets s.0 ++ (B.octets s.1 ++ C.octets s.2) };

    ghost is_der = { λ s. A.is_der s.0 × (B.is_der s.1 × C.is_der s.2) };

    ghost is_short = { λ s. A.is_short s.0 × (B.is_short s.1 × C.is_short s.2) };

    ghost small = { λ x. pair_small _ _ (A.small x.0)
        (pair_small _ _ (B.small x.1) (C.small x.2)) };

    #[inline(always)]
    fn encoded_len(&self) -> Result<u64, EncodeError> {
        (&self.0, (&self.1, &self.2)).encoded_len()
    }

    #[inline(always)]
    fn put<W: Sink>(&self, len: u64, out: &mut W) -> Result<(), SinkFailed> {
        (&self.0, (&self.1, &self.2)).put(len, out)
    }
}

impl<A: Encode, B: Encode, C: Encode, D: Encode> Encode for (A, B, C, D) {
    ghost octets = { λ s. A.octets s.0 ++ (B.octets s.1 ++ (C.octets s.2 ++ D.octets s.3)) };

    ghost is_der = { λ s. A.is_der s.0 × (B.is_der s.1 × (C.is_der s.2 × D.is_der s.3)) };

    ghost is_short = { λ s. A.is_short s.0 × (B.is_short s.1 × (C.is_short s.2 × D.is_short s.3)) };

    ghost small = { λ x. pair_small _ _ (A.small x.0)
        (pair_small _ _ (B.small x.1) (pair_small _ _ (C.small x.2) (D.small x.3))) };

    #[inline(always)]
    fn encoded_len(&self) -> Result<u64, EncodeError> {
        (&self.0, (&self.1, &self.2, &self.3)).encoded_len()
    }

    #[inline(always)]
    fn put<W: Sink>(&self, len: u64, out: &mut W) -> Result<(), SinkFailed> {
        (&self.0, (&self.1, &self.2, &self.3)).put(len, out)
    }
}

impl<A: Encode, B: Encode, C: Encode, D: Encode, E: Encode> Encode for (A, B, C, D, E) {
    ghost octets = { λ s. A.octets s.0
        ++ (B.octets s.1 ++ (C.octets s.2 ++ (D.octets s.3 ++ E.octets s.4))) };

    ghost is_der = { λ s. A.is_der s.0
        × (B.is_der s.1 × (C.is_der s.2 × (D.is_der s.3 × E.is_der s.4))) };

    ghost is_short = { λ s. A.is_short s.0
        × (B.is_short s.1 × (C.is_short s.2 × (D.is_short s.3 × E.is_short s.4))) };

    ghost small = { λ x. pair_small _ _ (A.small x.0)
        (pair_small _ _ (B.small x.1)
        (pair_small _ _ (C.small x.2) (pair_small _ _ (D.small x.3) (E.small x.4)))) };

    #[inline(always)]
    fn encoded_len(&self) -> Result<u64, EncodeError> {
        (&self.0, (&self.1, &self.2, &self.3, &self.4)).encoded_len()
    }

    #[inline(always)]
    fn put<W: Sink>(&self, len: u64, out: &mut W) -> Result<(), SinkFailed> {
        (&self.0, (&self.1, &self.2, &self.3, &self.4)).put(len, out)
    }
}

impl<A: Encode, B: Encode, C: Encode, D: Encode, E: Encode, F: Encode> Encode
    for (A, B, C, D, E, F) {
    ghost octets = { λ s. A.octets s.0
        ++ (B.octets s.1 ++ (C.octets s.2 ++ (D.octets s.3 ++ (E.octets s.4 ++ F.octets s.5)))) };

    ghost is_der = { λ s. A.is_der s.0
        × (B.is_der s.1 × (C.is_der s.2 × (D.is_der s.3 × (E.is_der s.4 × F.is_der s.5)))) };

    ghost is_short = { λ s. A.is_short s.0
        × (B.is_short s.1 × (C.is_short s.2
        × (D.is_short s.3 × (E.is_short s.4 × F.is_short s.5)))) };

    ghost small = { λ x. pair_small _ _ (A.small x.0)
        (pair_small _ _ (B.small x.1)
        (pair_small _ _ (C.small x.2)
        (pair_small _ _ (D.small x.3) (pair_small _ _ (E.small x.4) (F.small x.5))))) };

    #[inline(always)]
    fn encoded_len(&self) -> Result<u64, EncodeError> {
        (&self.0, (&self.1, &self.2, &self.3, &self.4, &self.5)).encoded_len()
    }

    #[inline(always)]
    fn put<W: Sink>(&self, len: u64, out: &mut W) -> Result<(), SinkFailed> {
        (&self.0, (&self.1, &self.2, &self.3, &self.4, &self.5)).put(len, out)
    }
}

impl<A: Encode, B: Encode, C: Encode, D: Encode, E: Encode, F: Encode, G: Encode> Encode
    for (A, B, C, D, E, F, G) {
    ghost octets = { λ s. A.octets s.0
        ++ (B.octets s.1 ++ (C.octets s.2
        ++ (D.octets s.3 ++ (E.octets s.4 ++ (F.octets s.5 ++ G.octets s.6))))) };

    ghost is_der = { λ s. A.is_der s.0
        × (B.is_der s.1 × (C.is_der s.2
        × (D.is_der s.3 × (E.is_der s.4 × (F.is_der s.5 × G.is_der s.6))))) };

    ghost is_short = { λ s. A.is_short s.0
        × (B.is_short s.1 × (C.is_short s.2
        × (D.is_short s.3 × (E.is_short s.4 × (F.is_short s.5 × G.is_short s.6))))) };

    ghost small = { λ x. pair_small _ _ (A.small x.0)
        (pair_small _ _ (B.small x.1)
        (pair_small _ _ (C.small x.2)
        (pair_small _ _ (D.small x.3)
        (pair_small _ _ (E.small x.4) (pair_small _ _ (F.small x.5) (G.small x.6)))))) };

    #[inline(always)]
    fn encoded_len(&self) -> Result<u64, EncodeError> {
        let six = (&self.1, &self.2, &self.3, &self.4, &self.5, &self.6);
        (&self.0, six).encoded_len()
    }

    #[inline(always)]
    fn put<W: Sink>(&self, len: u64, out: &mut W) -> Result<(), SinkFailed> {
        let six = (&self.1, &self.2, &self.3, &self.4, &self.5, &self.6);
        (&self.0, six).put(len, out)
    }
}

impl<A: Encode, B: Encode, C: Encode, D: Encode, E: Encode, F: Encode, G: Encode, H: Encode> Encode
    for (A, B, C, D, E, F, G, H) {
    ghost octets = { λ s. A.octets s.0
        ++ (B.octets s.1 ++ (C.octets s.2
        ++ (D.octets s.3 ++ (E.octets s.4
        ++ (F.octets s.5 ++ (G.octets s.6 ++ H.octets s.7)))))) };

    ghost is_der = { λ s. A.is_der s.0
        × (B.is_der s.1 × (C.is_der s.2
        × (D.is_der s.3 × (E.is_der s.4 × (F.is_der s.5 × (G.is_der s.6 × H.is_der s.7)))))) };

    ghost is_short = { λ s. A.is_short s.0
        × (B.is_short s.1 × (C.is_short s.2
        × (D.is_short s.3 × (E.is_short s.4
        × (F.is_short s.5 × (G.is_short s.6 × H.is_short s.7)))))) };

    ghost small = { λ x. pair_small _ _ (A.small x.0)
        (pair_small _ _ (B.small x.1)
        (pair_small _ _ (C.small x.2)
        (pair_small _ _ (D.small x.3)
        (pair_small _ _ (E.small x.4)
        (pair_small _ _ (F.small x.5)
        (pair_small _ _ (G.small x.6) (H.small x.7))))))) };

    #[inline(always)]
    fn encoded_len(&self) -> Result<u64, EncodeError> {
        let seven = (
            &self.1, &self.2, &self.3, &self.4, &self.5, &self.6, &self.7,
        );
        (&self.0, seven).encoded_len()
    }

    #[inline(always)]
    fn put<W: Sink>(&self, len: u64, out: &mut W) -> Result<(), SinkFailed> {
        let seven = (
            &self.1, &self.2, &self.3, &self.4, &self.5, &self.6, &self.7,
        );
        (&self.0, seven).put(len, out)
    }
}
