//! Attestations with the dates of the entries of their revocation lists, as they are shown.

ghost use Rattle.std.specs.Prelude.{◌≡◌, IfOk, map};
ghost use Rattle.rpki_crls.specs.Crl.{CrlForm};
ghost use Rattle.rpki_der.specs.declared.mode.Mode.TheVariants.{Der};
ghost use Rattle.rpki_der.specs.Form.Decodes.{Decodes};
ghost use Rattle.rpki_multi.specs.Multi.{multi_of};
ghost use Rattle.rpki_show.specs.Dated.{DatedForm};
ghost use Rattle.rpki_show.specs.DatedRta.{AreDated, DatedRtaForm, dated_of};

use crate::dated::DatedCrl;
use bytes::Bytes;
use rpki_crls::Crl;
use rpki_der::{DecodeError, Encode};
use rpki_multi::{MultiSignedObject, Rta};
use std::alloc::{AllocError, Global};
use std::marker::Model;

/// An attestation, and the revocation lists that it carries with the dates of their entries, in
/// their order.
#[derive(Debug, Drop)]
pub struct DatedRta {
    rta: Rta,
    lists: Vec<DatedCrl>,
}

impl Model for DatedRta {
    ghost use Rattle.rpki_show.specs.DatedRta.{KeptDated};

    ghost Value = { KeptDated };

    ghost view = { λ d. record { rta = d.rta; lists = d.lists.items } };
}

impl DatedRta {
    /// Reads the attestation at the front of the source, by the rules of DER. Octets after it are
    /// left. What `Rta::decode` reads as an attestation is read as one here
    /// (`laws::attestations_have_dates`), and nothing else is, by the definition of `DatedRtaForm`.
    /// Refuses as `Rta::decode` does, or for want of memory.
    pub fn decode(alloc: Global, source: Bytes) -> Result<DatedRta, DecodeError>
        ensures { Decodes (DatedRtaForm Der) dated_of source result }
    {
        match Rta::decode(alloc, source) {
            Err(e) => Err(e),
            Ok(rta) => match read_lists(alloc, rta.signed()) {
                Err(_) => {
                    drop(rta);
                    Err(DecodeError::Memory)
                }
                Ok(lists) => Ok(DatedRta { rta, lists }),
            },
        }
    }

    /// The attestation.
    pub fn rta(&self) -> &Rta
        ensures { result.now ≡ self.now.rta }
    {
        &self.rta
    }

    /// The revocation lists that it carries, in their order.
    pub fn lists(&self) -> &[DatedCrl]
        ensures { result.now ≡ self.now.lists }
    {
        &self.lists
    }
}

/// Reads the revocation lists that an object in DER carries, with the dates of their entries.
fn read_lists(alloc: Global, object: &MultiSignedObject) -> Result<Vec<DatedCrl>, AllocError>
    ensures { IfOk result (λ lists. AreDated Der (multi_of object.now).crls lists.items) }
{
    read_each(alloc, object.crls())
}

/// Reads these revocation lists in DER, with the dates of their entries.
fn read_each(alloc: Global, crls: &[Crl]) -> Result<Vec<DatedCrl>, AllocError>
    ensures { IfOk result (λ lists. AreDated Der (map (λ l. l.list) crls.now) lists.items) }
{
    let mut lists = Vec::new(alloc);
    for crl in crls {
        let list = read_one(alloc, crl)?;
        lists.push(list)?;
    }
    Ok(lists)
}

/// Reads a revocation list in DER with the dates of its entries. Since it is one, no cause but that
/// memory runs out is left (`laws::lists_have_dates`).
fn read_one(alloc: Global, crl: &Crl) -> Result<DatedCrl, AllocError>
    ensures { IfOk result (λ list. DatedForm Der crl.now.list.octets list) }
{
    let octets = octets_of(alloc, crl)?;
    match DatedCrl::decode(alloc, octets) {
        Ok(list) => Ok(list),
        Err(_) => Err(AllocError),
    }
}

/// The octets of a revocation list in DER.
fn octets_of(alloc: Global, crl: &Crl) -> Result<Bytes, AllocError>
    ensures octets { IfOk result (λ octets. octets ≡ crl.now.list.octets) }
    ensures form { IfOk result (λ _. CrlForm Der crl.now.list.octets crl.now.list) }
{
    match crl.encode_ref().to_bytes(alloc) {
        Err(_) => Err(AllocError),
        Ok(octets) => Ok(Bytes::from_vec(octets)?),
    }
}
