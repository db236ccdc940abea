//! The lines of an attestation.

ghost use Rattle.std.specs.List.{flat_map};
ghost use Rattle.rpki_multi.specs.Attestation.{whole_of};
ghost use Rattle.rpki_multi.specs.Multi.{multi_of};
ghost use Rattle.rpki_show.specs.DatedRta.{dated_of};
ghost use Rattle.rpki_show.specs.Grows.{Grows};
ghost use Rattle.rpki_show.specs.Texts.Certificate.{certificate_text};
ghost use Rattle.rpki_show.specs.Texts.Crl.{crl_text};
ghost use Rattle.rpki_show.specs.Texts.Rta.{attestation_text, subject_line, digest_line};
ghost use Rattle.rpki_show.specs.Texts.Rta.{carried_text, rta_text, whole_rta_text};

use crate::dated::DatedCrl;
use crate::dated_rta::DatedRta;
use crate::texts::blocks::{push_numbers, push_v4, push_v6};
use crate::texts::certificate::push_certificate;
use crate::texts::crl::push_crl;
use crate::texts::lines::push_each;
use rpki_basics::KeyIdentifier;
use rpki_certs::Cert;
use rpki_der::LowerHex;
use rpki_multi::{MultiSignedObject, Rta};
use rpki_tagged::ResourceTaggedAttestation;
use std::alloc::{AllocError, Global};
use std::fmt::Write;

/// Appends the lines of the content of an attestation. Refuses where memory runs out.
pub fn push_attestation(
    text: &mut String,
    content: &ResourceTaggedAttestation,
) -> Result<(), AllocError>
    ensures { Grows result text.old text.new (attestation_text content.now) }
{
    write!(text, "rta\n")?;
    push_keys(text, content.subject_keys())?;
    push_numbers(text, content.as_resources())?;
    push_v4(text, content.v4_resources())?;
    push_v6(text, content.v6_resources())?;
    push_digest(text, content.message_digest().as_slice())
}

/// Appends a line for each key that is to sign.
fn push_keys(text: &mut String, keys: &[KeyIdentifier]) -> Result<(), AllocError>
    ensures { Grows result text.old text.new (flat_map subject_line keys.now) }
{
    push_each(text, keys.iter(), |text, key| write!(text, "key {key}\n"))
}

/// Appends the line of the digest of the document.
fn push_digest(text: &mut String, digest: &[u8]) -> Result<(), AllocError>
    ensures { Grows result text.old text.new (digest_line digest.now) }
{
    let digest = LowerHex(digest);
    write!(text, "digest {digest}\n")
}

/// Appends the lines of an attestation. Refuses where memory runs out.
pub fn push_rta(text: &mut String, rta: &Rta) -> Result<(), AllocError>
    ensures { Grows result text.old text.new (rta_text (whole_of rta.now)) }
{
    push_attestation(text, rta.content())?;
    push_carried(text, rta.signed())
}

/// Appends the lines that say how many certificates and revocation lists are carried, and how many
/// have signed.
fn push_carried(text: &mut String, object: &MultiSignedObject) -> Result<(), AllocError>
    ensures { Grows result text.old text.new (carried_text (multi_of object.now)) }
{
    let certificates = object.certificates().len();
    let crls = object.crls().len();
    let signers = object.signer_infos().len();
    write!(
        text,
        "certificates {certificates}\ncrls {crls}\nsigners {signers}\n"
    )
}

/// Appends the lines of an attestation, then those of each certificate that it carries, and those
/// of each revocation list, in their order. Refuses where memory runs out.
pub fn push_whole_rta(alloc: Global, text: &mut String, rta: &DatedRta) -> Result<(), AllocError>
    ensures { Grows result text.old text.new (whole_rta_text (dated_of rta.now)) }
{
    let plain = rta.rta();
    push_rta(text, plain)?;
    push_certificates(alloc, text, plain.signed())?;
    push_lists(alloc, text, rta.lists())
}

/// Appends the lines of each certificate that an object carries.
fn push_certificates(
    alloc: Global,
    text: &mut String,
    object: &MultiSignedObject,
) -> Result<(), AllocError>
    ensures { Grows result text.old text.new
        (flat_map certificate_text (multi_of object.now).certs) }
{
    push_certs(alloc, text, object.certificates())
}

/// Appends the lines of each of these certificates.
fn push_certs(alloc: Global, text: &mut String, certs: &[Cert]) -> Result<(), AllocError>
    ensures { Grows result text.old text.new
        (flat_map (λ c. certificate_text c.certificate) certs.now) }
{
    push_each(text, certs.iter(), |text, cert| {
        push_certificate(alloc, text, cert)
    })
}

/// Appends the lines of each of these revocation lists.
fn push_lists(alloc: Global, text: &mut String, lists: &[DatedCrl]) -> Result<(), AllocError>
    ensures { Grows result text.old text.new (flat_map crl_text lists.now) }
{
    push_each(text, lists.iter(), |text, list| push_crl(alloc, text, list))
}
