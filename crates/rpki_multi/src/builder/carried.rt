//! What is carried with a content, and the mode that it was read in.

ghost use Rattle.std.specs.Prelude.{◌≡◌, All, IsTrue, false};
ghost use Rattle.rpki_der.specs.declared.mode.Mode.{Mode};
ghost use Rattle.rpki_der.specs.declared.mode.Mode.TheVariants.{Der};

use crate::signer::SignerInfo;
use rpki_certs::Cert;
use rpki_crls::Crl;
use rpki_der::Mode;

/// A certificate, a revocation list, or what a signer says.
pub trait Carried {
    // What its type promises.
    ghost is_kept: { Self → Type 0 };

    // The mode that it was read in.
    ghost mode_of: { Self → Mode };

    /// The mode that it was read in. What was made is DER.
    fn its_mode(&self) -> Mode
        ensures mode { result ≡ mode_of self.now }
        ensures kept { is_kept self.now };
}

impl Carried for Cert {
    ghost use Rattle.rpki_certs.specs.Cert.{IsKept};

    ghost is_kept = { IsKept };

    ghost mode_of = { λ c. c.mode };

    fn its_mode(&self) -> Mode {
        // What a value's type promises is known to the proof by this call alone.
        let _ = self.encode_ref();
        self.mode()
    }
}

impl Carried for Crl {
    ghost use Rattle.rpki_crls.specs.Crl.{IsKept};

    ghost is_kept = { IsKept };

    ghost mode_of = { λ l. l.mode };

    fn its_mode(&self) -> Mode {
        let _ = self.encode_ref();
        self.mode()
    }
}

impl Carried for SignerInfo {
    ghost use Rattle.rpki_multi.specs.Signer.{IsAttested};

    ghost is_kept = { IsAttested };

    ghost mode_of = { λ s. s.mode };

    fn its_mode(&self) -> Mode {
        let _ = self.encode_ref();
        self.mode()
    }
}

/// Whether all of them were read in DER.
pub fn are_in_der<T: Carried>(items: &[T]) -> bool
    ensures kept { IsTrue result → All T.is_kept items.now }
    ensures der { IsTrue result → All (λ x. T.mode_of x ≡ Der) items.now }
    ensures ber { result ≡ false → ¬ (All (λ x. T.mode_of x ≡ Der) items.now) }
{
    for item in items {
        match item.its_mode() {
            Mode::Der => (),
            Mode::Ber => return false,
        }
    }
    true
}
