//! Revocation lists that are not signed yet.

ghost use Rattle.std.specs.Prelude.{◌≡◌, ◌++◌, ◌∷◌, [], OnOk, OnErr};

use crate::entry::RevokedCert;
use rpki_basics::{KeyIdentifier, Serial, Time};
use rpki_crls::CrlExtensions;
use std::alloc::{AllocError, Global};
use std::marker::Model;

/// A revocation list that is not signed yet: a TBSCertList (RFC 5280, section 5.1; RFC 6487,
/// section 5) without the name of its issuer.
#[derive(Debug, Drop)]
pub struct CrlBuilder {
    pub(crate) this_update: Time,
    pub(crate) next_update: Time,
    pub(crate) revoked: Vec<RevokedCert>,
    pub(crate) extensions: CrlExtensions,
}

impl Model for CrlBuilder {
    ghost use Rattle.rpki_issued_crls.specs.Lists.{UnsignedList, IsToWrite};

    ghost Value = { UnsignedList };

    ghost view = { λ b. record {
      this_update = b.this_update;
      next_update = b.next_update;
      revoked = b.revoked.items;
      extensions = b.extensions;
    } };

    ghost invariant = { λ b. IsToWrite (record {
      this_update = b.this_update;
      next_update = b.next_update;
      revoked = b.revoked.items;
      extensions = b.extensions;
    }) };
}

impl CrlBuilder {
    /// A list without entries: the identifier of its issuer's key (RFC 5280, section 5.2.1), when
    /// it is made and until when the next one is (sections 5.1.2.4 and 5.1.2.5), and its number
    /// (section 5.2.3). The two times are not compared.
    pub fn new(
        alloc: Global,
        authority_key: KeyIdentifier,
        this_update: Time,
        next_update: Time,
        number: Serial,
    ) -> CrlBuilder
        ensures { result ≡ record {
          this_update = this_update;
          next_update = next_update;
          revoked = [];
          extensions = record { authority_key = authority_key; number = number };
        } }
    {
        // What the types promise of these values is known to the proof by these calls alone.
        let _ = authority_key.as_slice();
        let _ = this_update.stamp();
        let _ = next_update.stamp();
        let _ = number.encode_ref();
        CrlBuilder {
            this_update,
            next_update,
            revoked: Vec::new(alloc),
            extensions: CrlExtensions {
                authority_key,
                number,
            },
        }
    }

    /// Adds an entry after the others: the certificate with this serial number was revoked at this
    /// time (RFC 5280, section 5.1.2.6). A number may come twice. Where there is no memory for it,
    /// the list stays as it was.
    #[tactic(auto, using(crate::proofs::Revoked::one_more))]
    pub fn push(&mut self, serial: Serial, time: Time) -> Result<(), AllocError>
        ensures pushed { OnOk result (self.new ≡ record self.old {
          revoked = self.old.revoked ++ record { serial = serial; time = time } ∷ [];
        }) }
        ensures unchanged { OnErr result (self.new ≡ self.old) }
    {
        let _ = serial.encode_ref();
        let _ = time.stamp();
        self.revoked.push(RevokedCert { serial, time })?;
        Ok(())
    }
}
