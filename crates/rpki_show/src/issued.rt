//! What the program with signatures shows of certificates and of revocation lists.

ghost use Rattle.rpki_cli.specs.Answer.{said};
ghost use Rattle.rpki_cli.specs.Shown.{IsShown, IsLinesOf};
ghost use Rattle.rpki_show.specs.Issued.{CertificateLines, CrlLines};
ghost use Rattle.rpki_show.specs.Texts.Certificate.{certificate_text};
ghost use Rattle.rpki_show.specs.Texts.Crl.{crl_text};

use crate::dated::DatedCrl;
use crate::texts::certificate::push_certificate;
use crate::texts::crl::push_crl;
use bytes::Bytes;
use rpki_certs::Cert;
use rpki_cli::answer::Answer;
use rpki_cli::{Causes, refusal};
use std::alloc::Global;

/// Answers with the lines of the certificate at the front of the octets, if there is one.
pub fn show_certificate<'a>(alloc: Global, causes: Causes, octets: Bytes) -> Answer<'a>
    ensures { IsShown causes CertificateLines octets (said result) }
{
    match Cert::decode(alloc, octets) {
        Err(error) => refusal(alloc, causes, error),
        Ok(cert) => {
            let answer = show_cert_lines(alloc, &cert);
            drop(cert);
            answer
        }
    }
}

/// The lines of a certificate.
fn show_cert_lines<'a>(alloc: Global, cert: &Cert) -> Answer<'a>
    ensures { IsLinesOf (certificate_text cert.now.certificate) (said result) }
{
    let mut text = String::new(alloc);
    match push_certificate(alloc, &mut text, cert) {
        Ok(()) => Answer::Shown(text),
        Err(_) => Answer::OutOfMemory,
    }
}

/// Answers with the lines of the revocation list at the front of the octets, if there is one.
pub fn show_crl<'a>(alloc: Global, causes: Causes, octets: Bytes) -> Answer<'a>
    ensures { IsShown causes CrlLines octets (said result) }
{
    match DatedCrl::decode(alloc, octets) {
        Err(error) => refusal(alloc, causes, error),
        Ok(list) => {
            let answer = show_list_lines(alloc, &list);
            drop(list);
            answer
        }
    }
}

/// The lines of a revocation list.
fn show_list_lines<'a>(alloc: Global, list: &DatedCrl) -> Answer<'a>
    ensures { IsLinesOf (crl_text list.now) (said result) }
{
    let mut text = String::new(alloc);
    match push_crl(alloc, &mut text, list) {
        Ok(()) => Answer::Shown(text),
        Err(_) => Answer::OutOfMemory,
    }
}
