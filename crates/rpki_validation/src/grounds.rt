//! What a question is answered on.

ghost use Rattle.std.specs.Prelude.{◌≡◌, IfOk};
ghost use Rattle.rpki_der.specs.declared.mode.Mode.TheVariants.{Der};
ghost use Rattle.rpki_der.specs.Form.Decodes.{Decodes};
ghost use Rattle.rpki_crls.specs.Crl.{CrlForm};
ghost use Rattle.rpki_validation.specs.Grounds.{IsGrounded, IsListing};

use crate::issuer::issuer_of;
use crate::locator::locator_in;
use crate::question::Question;
use crate::refusal::Refusal;
use bytes::Bytes;
use rpki_basics::Time;
use rpki_certs::ResourceCert;
use rpki_crls::Crl;
use rpki_der::DecodeError;
use rpki_tal::Tal;
use std::alloc::Global;

/// The issuer that certificates make at a moment, the locator of their trust anchor, if there is
/// one, and the revocation lists.
#[derive(Drop)]
pub struct Grounds {
    pub issuer: ResourceCert,
    pub locator: Option<Tal>,
    pub lists: Vec<Crl>,
    pub moment: Time,
}

/// The grounds of a question, or why it has none.
pub fn grounds_of(alloc: Global, question: &Question<'_>) -> Result<Grounds, Refusal>
    ensures { IsGrounded question.now result }
{
    match locator_in(alloc, question.locator) {
        Err(refusal) => Err(refusal),
        Ok(locator) => match lists_of(alloc, question.lists) {
            Err(refusal) => {
                drop(locator);
                Err(refusal)
            }
            Ok(lists) => {
                let now = question.moment;
                match issuer_of(
                    alloc,
                    question.anchor,
                    &locator,
                    question.chain,
                    &lists,
                    now,
                ) {
                    Err(fault) => {
                        drop(locator);
                        drop(lists);
                        Err(Refusal::Issuer(fault))
                    }
                    Ok(issuer) => Ok(Grounds {
                        issuer,
                        locator,
                        lists,
                        moment: now,
                    }),
                }
            }
        },
    }
}

/// The lists that the octets begin with, one each.
fn lists_of(alloc: Global, octets: &[Bytes]) -> Result<Vec<Crl>, Refusal>
    ensures { IsListing octets.now result }
{
    let mut lists = Vec::new(alloc);
    for i in 0..octets.len() {
        match list_in(alloc, &octets[i]) {
            Err(DecodeError::Memory) => return Err(Refusal::Memory),
            Err(DecodeError::Malformed) => return Err(Refusal::NoList(i)),
            Err(DecodeError::Content(_)) => return Err(Refusal::NoList(i)),
            Ok(list) => {
                if lists.push(list).is_err() {
                    return Err(Refusal::Memory);
                }
            }
        }
    }
    Ok(lists)
}

/// The list that the octets begin with.
pub fn list_in(alloc: Global, octets: &Bytes) -> Result<Crl, DecodeError>
    ensures decodes { Decodes (CrlForm Der) (λ c. c.list) octets.now result }
    ensures mode { IfOk result (λ c. c.mode ≡ Der) }
{
    match octets.clone() {
        Err(_) => Err(DecodeError::Memory),
        Ok(source) => Crl::decode(alloc, source),
    }
}
