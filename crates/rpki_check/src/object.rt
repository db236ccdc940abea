//! What is found of octets that may begin with an object.

ghost use Rattle.rpki_sigobj.specs.Object.{mode_of};
ghost use Rattle.rpki_check.specs.Grounds.{manner_in};
ghost use Rattle.rpki_check.specs.Object.{ChecksByLists, IsFound, IsFoundOn, ListsSay};
ghost use Rattle.rpki_check.specs.Report.{IsObjectRead};

use crate::grounds::grounds_of;
use crate::question::{Question, manner_of};
use crate::refusal::Refusal;
use bytes::Bytes;
use rpki_certs::{Cert, ResourceCert};
use rpki_faults::{ValidationError, VerificationError};
use rpki_signed::check::CheckError;
use rpki_sigobj::Signed;
use rpki_validation::grounds::Grounds;
use rpki_validation::kinds::Lines;
use rpki_validation::object::check_asking;
use rpki_validation::question::Manner;
use rpki_validation::revoked::revoking;
use std::alloc::Global;

/// What the lists of these grounds say of a certificate.
fn ask_on(grounds: &Grounds, cert: &Cert) -> Result<(), ValidationError>
    ensures { ListsSay grounds.now cert.now result }
{
    match revoking(&grounds.lists, grounds.issuer.cert(), cert) {
        None => Ok(()),
        Some(_) => Err(ValidationError::Verification(VerificationError::Caller)),
    }
}

/// Whether octets begin with a good object on these grounds, whose certificate no list revokes.
fn check_on<T: Lines>(
    alloc: Global,
    octets: Bytes,
    manner: Manner,
    grounds: &Grounds,
) -> Result<(ResourceCert, T), CheckError>
    ensures { ChecksByLists T.kind (T.form (T.rule_in manner)) (mode_of manner.strict) grounds.now
        octets result }
{
    check_asking::<T, _>(alloc, octets, manner, grounds, |cert| ask_on(grounds, cert))
}

/// What is found of octets on these grounds.
pub fn found_on<T: Lines>(
    alloc: Global,
    octets: &[u8],
    manner: Manner,
    grounds: &Grounds,
) -> Result<T, Refusal>
    ensures { IsFoundOn T.kind (T.form (T.rule_in manner)) (mode_of manner.strict) grounds.now
        octets.now result }
{
    let Ok(source) = Bytes::copy_from_slice(alloc, octets) else {
        return Err(Refusal::Memory);
    };
    match check_on::<T>(alloc, source, manner, grounds) {
        Ok((cert, content)) => {
            drop(cert);
            Ok(content)
        }
        Err(fault) => Err(Refusal::Check(fault)),
    }
}

/// What is found of octets in answer to a question.
pub fn found_in<T: Lines>(
    alloc: Global,
    question: &Question<'_>,
    octets: &[u8],
) -> Result<T, Refusal>
    ensures { IsFound T.kind (T.form (T.rule_in (manner_in question.now))) question.now octets.now
        result }
{
    let manner = manner_of(question);
    match grounds_of(alloc, question) {
        Err(refusal) => Err(refusal),
        Ok(grounds) => {
            let found = found_on(alloc, octets, manner, &grounds);
            drop(grounds);
            found
        }
    }
}

/// What is read of octets, without a check.
pub fn read_object<T: Lines>(alloc: Global, octets: &[u8], manner: Manner) -> Result<T, Refusal>
    ensures { IsObjectRead T.kind (T.form (T.rule_in manner)) (mode_of manner.strict) octets.now
        result }
{
    let rule = T::rule(manner);
    let Ok(source) = Bytes::copy_from_slice(alloc, octets) else {
        return Err(Refusal::Memory);
    };
    match Signed::<T>::decode(alloc, source, manner.strict, rule) {
        Ok(object) => Ok(object.into_content()),
        Err(fault) => Err(Refusal::Check(CheckError::Decode(fault))),
    }
}
