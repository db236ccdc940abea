//! What multi-signed objects are made of.

ghost use Rattle.std.specs.Prelude.{◌≡◌};

use crate::signer::SignerInfo;
use bytes::Bytes;
use rpki_certs::Cert;
use rpki_crls::Crl;
use rpki_der::Mode;
use std::alloc::AllocError;
use std::marker::Model;

/// The mode that an object was read in, the content, the certificates and the revocation lists that
/// are carried with it, and what the signers say (RFC 5652, section 5.1).
#[derive(Debug, Drop)]
pub struct Parts {
    pub mode: Mode,
    pub content: Bytes,
    pub certs: Vec<Cert>,
    pub crls: Vec<Crl>,
    pub signers: Vec<SignerInfo>,
}

impl Model for Parts {
    ghost use Rattle.rpki_multi.specs.Multi.{KeptMulti};

    ghost Value = { KeptMulti };

    ghost view = { λ m. record {
      mode = m.mode;
      content = m.content;
      certs = m.certs.items;
      crls = m.crls.items;
      signers = m.signers.items;
    } };
}

impl Clone for Parts {
    ghost is_clone = { λ m copy. copy ≡ m };

    fn clone(&self) -> Result<Parts, AllocError> {
        Ok(Parts {
            mode: self.mode,
            content: self.content.clone()?,
            certs: self.certs.clone()?,
            crls: self.crls.clone()?,
            signers: self.signers.clone()?,
        })
    }
}
