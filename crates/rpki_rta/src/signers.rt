//! Signers of an attestation, as handles.

ghost use Rattle.std.specs.Prelude.{◌≡◌, IfOk};
ghost use Rattle.rpki_attributes.specs.Attrs.Made.{message_of};

use crate::carried::Carried;
use crate::verdict::verdict;
use rpki_basics::{Crypto, Digest};
use rpki_multi::SignerInfo;
use rpki_paths::{Accepts, CarriedSigner, KeyId, Seeks, VerdictCount};
use std::alloc::{AllocError, Global};
use std::sync::ledger::Ledger;

/// A signer of an attestation, the message that it signed, and the digest of the content.
#[derive(Drop)]
pub(crate) struct Signer<'a, C> {
    info: &'a SignerInfo,
    message: Vec<u8>,
    digest: Digest,
    crypto: &'a C,
    ghost made: { message.items ≡ message_of info.now.signer.attributes },
}

impl<'a, C> Signer<'a, C> {
    // A signer, with the message of its attributes, of a content with this digest.
    pub fn new(
        alloc: Global,
        info: &'a SignerInfo,
        digest: Digest,
        crypto: &'a C,
    ) -> Result<Signer<'a, C>, AllocError>
        ensures info { IfOk result (λ s. s.info.now ≡ info.now) }
        ensures digest { IfOk result (λ s. s.digest ≡ digest) }
        ensures crypto { IfOk result (λ s. s.crypto.now ≡ crypto.now) }
    {
        let message = info.attributes().encode_verify(alloc)?;
        Ok(Signer {
            info,
            message,
            digest,
            crypto,
        })
    }
}

impl<'a, C: Crypto> Seeks<Carried<'a, C>> for Signer<'a, C> {
    ghost sought = { λ s. s.info.now.signer.sid };

    ghost held = { λ c. c.cert.now.certificate.tbs.extensions.key.subject_key };

    ghost verdict = { λ s c. C.is_signed s.crypto.now c.cert.now.certificate.tbs.key
        (message_of s.info.now.signer.attributes) s.info.now.signer.signature };

    ghost price = { 1 };

    fn seeks(&self) -> KeyId {
        self.info.sid().octets()
    }

    fn identifier(other: &Carried<'a, C>) -> KeyId {
        other.cert.subject_key_identifier().octets()
    }

    ghost free_is_yes = { λ x y e. absurd cc };
}

impl<'a, C: Crypto, L: Ledger> Accepts<Carried<'a, C>, L> for Signer<'a, C> {
    fn accepts(&self, other: &Carried<'a, C>, asked: &mut VerdictCount<L>) -> bool {
        let key = other.cert.subject_public_key_info();
        let message = self.message.as_slice();
        verdict(self.crypto, key, message, self.info.signature(), asked)
    }
}

impl<'a, C: Crypto> CarriedSigner<Carried<'a, C>> for Signer<'a, C> {
    ghost use Rattle.std.specs.Prelude.{refl};
    ghost use Rattle.rpki_rta.specs.Carried.{seen_signer};

    ghost signer = { λ s. seen_signer (C.is_signed s.crypto.now) s.digest s.info.now.signer };

    fn has_digest(&self) -> bool {
        self.info.message_digest().as_slice() == self.digest.as_slice()
    }

    ghost seeks_sid = { λ s. refl };

    ghost holds_ski = { λ c. refl };

    ghost verdict_is_own = { λ s c. refl };

    ghost one_verdict = { refl };
}
