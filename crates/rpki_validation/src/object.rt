//! What is found of octets that may begin with an object.

ghost use Rattle.std.specs.Prelude.{◌≡◌, MatchOption};
ghost use Rattle.std.specs.Fn.{FnOnceTakesAt, FnOnceReturnsAt};
ghost use Rattle.rpki_certs.specs.Cert.{KeptCertificate};
ghost use Rattle.rpki_sigobj.specs.Object.{mode_of};
ghost use Rattle.rpki_validation.specs.Object.{ChecksAsking, ChecksOn, IsFound, IsFoundOn};
ghost use Rattle.rpki_validation.specs.Revoked.{IsRevokedAt, IsUnrevoked};

use crate::grounds::{Grounds, grounds_of};
use crate::kinds::Lines;
use crate::question::{Manner, Question};
use crate::refusal::Refusal;
use crate::revoked::revoking_under;
use bytes::Bytes;
use rpki_certs::{Cert, ResourceCert};
use rpki_faults::ValidationError;
use rpki_rsa::Rsa;
use rpki_signed::check;
use rpki_signed::check::CheckError;
use std::alloc::Global;

/// What a check of octets answers on these grounds, with what `ask` says of the certificate, which
/// is asked where each check before it holds.
pub fn check_asking<T: Lines, F: FnOnce(&Cert) -> Result<(), ValidationError>>(
    alloc: Global,
    octets: Bytes,
    manner: Manner,
    grounds: &Grounds,
    ask: F,
) -> Result<(ResourceCert, T), CheckError>
    requires { (k : KeptCertificate) → FnOnceTakesAt F.FnOnce ask k }
    ensures { ChecksAsking T.kind (T.form (T.rule_in manner)) (mode_of manner.strict) grounds.now
        (FnOnceReturnsAt F.FnOnce ask) octets result }
{
    let rule = T::rule(manner);
    check::object(
        alloc,
        octets,
        manner.strict,
        &grounds.issuer,
        &Rsa,
        grounds.moment,
        ask,
        rule,
    )
}

/// What is said of a certificate before the lists are asked.
fn pass(_cert: &Cert) -> Result<(), ValidationError>
    ensures { result ≡ Ok tt }
{
    Ok(())
}

/// What a check of octets answers on these grounds, before the lists are asked.
fn check_on<T: Lines>(
    alloc: Global,
    octets: Bytes,
    manner: Manner,
    grounds: &Grounds,
) -> Result<(ResourceCert, T), CheckError>
    ensures { ChecksOn T.kind (T.form (T.rule_in manner)) (mode_of manner.strict) grounds.now
        octets result }
{
    check_asking::<T, _>(alloc, octets, manner, grounds, pass)
}

/// The place of the first list of these grounds that revokes a certificate of their issuer.
pub fn revoking_on(grounds: &Grounds, cert: &ResourceCert) -> Option<usize>
    ensures { MatchOption result
        (IsUnrevoked grounds.now.lists.items grounds.now.issuer.cert.certificate
        cert.now.cert.certificate)
        (λ place. IsRevokedAt grounds.now.lists.items grounds.now.issuer.cert.certificate
        cert.now.cert.certificate place) }
{
    revoking_under(&grounds.lists, &grounds.issuer, cert)
}

/// What is found of octets on these grounds.
pub fn found_on<T: Lines>(
    alloc: Global,
    octets: &Bytes,
    manner: Manner,
    grounds: &Grounds,
) -> Result<T, Refusal>
    ensures { IsFoundOn T.kind (T.form (T.rule_in manner)) (mode_of manner.strict) grounds.now
        octets.now result }
{
    let Ok(source) = octets.clone() else {
        return Err(Refusal::Memory);
    };
    match check_on::<T>(alloc, source, manner, grounds) {
        Err(fault) => Err(Refusal::Check(fault)),
        Ok((cert, content)) => {
            let place = revoking_on(grounds, &cert);
            drop(cert);
            match place {
                None => Ok(content),
                Some(place) => {
                    drop(content);
                    Err(Refusal::Revoked(place))
                }
            }
        }
    }
}

/// What is found of octets in answer to a question.
pub fn found_in<T: Lines>(
    alloc: Global,
    question: &Question<'_>,
    octets: &Bytes,
) -> Result<T, Refusal>
    ensures { IsFound T.kind (T.form (T.rule_in question.now.manner)) question.now octets.now
        result }
{
    match grounds_of(alloc, question) {
        Err(refusal) => Err(refusal),
        Ok(grounds) => {
            let found = found_on(alloc, octets, question.manner, &grounds);
            drop(grounds);
            found
        }
    }
}
