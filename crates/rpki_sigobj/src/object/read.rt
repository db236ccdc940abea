//! Reading signed objects.

ghost use Rattle.std.specs.Prelude.{◌≡◌, IfOk};
ghost use Rattle.rpki_der.specs.Form.Made.{with_octets};
ghost use Rattle.rpki_der.specs.Form.Parts.{set_at, context_at};
ghost use Rattle.rpki_der.specs.Numbers.{MAX_DEPTH};
ghost use Rattle.rpki_der.specs.Read.Parse.{octets_at};
ghost use Rattle.rpki_der.specs.Read.Reads.{Reads, Stays};
ghost use Rattle.rpki_basics.specs.Algorithm.{digest_algorithm_at};
ghost use Rattle.rpki_certs.specs.Cert.{cert_at};
ghost use Rattle.rpki_sigobj.specs.SignerInfo.{signer_info_at};
ghost use Rattle.rpki_sigobj.specs.Object.{content_fields_at, content_at, after_content_at};
ghost use Rattle.rpki_sigobj.specs.Object.{signed_fields_at, signed_at, info_fields_at, info_at};

use crate::signer_info::{SignerInfo, skip_version, take_signer_info};
use bytes::Bytes;
use rpki_basics::DigestAlgorithm;
use rpki_certs::Cert;
use rpki_der::{Captured, Constructed, DecodeError, Oid, Tag};
use std::alloc::{AllocError, Global};
use std::marker::Model;

/// What is signed (RFC 5652, section 5.1).
#[derive(Debug, Drop)]
pub struct SignedData {
    pub content_type: Oid,
    pub content: Bytes,
    pub cert: Cert,
    pub signer: SignerInfo,
}

impl Model for SignedData {
    ghost use Rattle.std.specs.Prelude.{◌≡◌};
    ghost use Rattle.rpki_sigobj.specs.Object.{KeptData};

    ghost Value = { KeptData };

    ghost view = { λ d. record {
      signed = record {
        content_type = d.content_type;
        content = d.content;
        cert = d.cert.certificate;
        signer = d.signer.signer;
      };
      cert_mode = d.cert.mode;
    } };

    ghost invariant = { λ d. d.signer.mode ≡ d.cert.mode };
}

/// The contents of the identifier of signed data (RFC 5652, section 5.1).
pub const ID_SIGNED_DATA: [u8; 9] = [0x2A, 0x86, 0x48, 0x86, 0xF7, 0x0D, 0x01, 0x07, 0x02];

/// Reads the algorithms of digests, a SET with one algorithm alone, SHA-256.
pub fn skip_digests(cons: &mut Constructed<'_>) -> Result<(), DecodeError>
    ensures { Reads (λ u. u) (set_at digest_algorithm_at) cons.old result cons.new }
{
    cons.take_set(skip_digest)
}

// Reads the algorithm of the digest.
fn skip_digest(cons: &mut Constructed<'_>) -> Result<(), DecodeError>
    ensures { Reads (λ u. u) digest_algorithm_at cons.old result cons.new }
{
    DigestAlgorithm::take_from(cons)?;
    Ok(())
}

/// Reads the octets of the content, an OCTET STRING under [0] (RFC 5652, section 5.2).
pub fn take_octets(cons: &mut Constructed<'_>, alloc: Global) -> Result<Bytes, DecodeError>
    ensures { Reads (λ s. s) (context_at 0 (octets_at MAX_DEPTH)) cons.old result cons.new }
{
    cons.take_constructed_if(Tag::CTX_0, |cons| cons.take_octets(alloc))
}

// Reads the type of the content, and its octets.
#[tactic(auto, unfolding(crate::specs::Object::content_fields_at))]
fn take_content_fields(
    cons: &mut Constructed<'_>,
    alloc: Global,
) -> Result<(Oid, Bytes), DecodeError>
    ensures { Reads (λ c. c) content_fields_at cons.old result cons.new }
{
    let content_type = cons.take_oid()?;
    let content = take_octets(cons, alloc)?;
    Ok((content_type, content))
}

// Reads the content and its type.
fn take_content(cons: &mut Constructed<'_>, alloc: Global) -> Result<(Oid, Bytes), DecodeError>
    ensures { Reads (λ c. c) content_at cons.old result cons.new }
{
    cons.take_sequence(|cons| take_content_fields(cons, alloc))
}

// Reads the certificate, the only one that is there.
fn take_cert(cons: &mut Constructed<'_>, alloc: Global) -> Result<Cert, DecodeError>
    ensures reads { Reads (λ c. c.certificate) (context_at 0 cert_at) cons.old result cons.new }
    ensures mode { IfOk result (λ c. c.mode ≡ cons.old.mode) }
{
    cons.take_constructed_if(Tag::CTX_0, |cons| Cert::take_from(alloc, cons))
}

// Reads what the signer says, the only one.
fn take_signer(
    cons: &mut Constructed<'_>,
    alloc: Global,
    content_type: &Oid,
) -> Result<SignerInfo, DecodeError>
    ensures reads { Reads (λ s. s.signer) (set_at (signer_info_at content_type.now))
        cons.old result cons.new }
    ensures mode { IfOk result (λ s. s.mode ≡ cons.old.mode) }
{
    cons.take_set(|cons| take_signer_info(cons, alloc, content_type))
}

// Reads the certificate and what the signer says, after this content.
#[tactic(auto, unfolding(crate::specs::Object::after_content_at))]
fn take_after_content(
    cons: &mut Constructed<'_>,
    alloc: Global,
    content: (Oid, Bytes),
) -> Result<SignedData, DecodeError>
    ensures reads { Reads (λ d. d.signed) (after_content_at content) cons.old result cons.new }
    ensures mode { IfOk result (λ d. d.cert_mode ≡ cons.old.mode) }
{
    let cert = take_cert(cons, alloc)?;
    match take_signer(cons, alloc, &content.0) {
        Err(e) => {
            drop(content);
            drop(cert);
            Err(e)
        }
        Ok(signer) => {
            let (content_type, content) = content;
            Ok(SignedData {
                content_type,
                content,
                cert,
                signer,
            })
        }
    }
}

// Reads what stands in the SEQUENCE of what is signed.
#[tactic(auto, unfolding(crate::specs::Object::signed_fields_at))]
fn take_signed_fields(cons: &mut Constructed<'_>, alloc: Global) -> Result<SignedData, DecodeError>
    ensures reads { Reads (λ d. d.signed) signed_fields_at cons.old result cons.new }
    ensures mode { IfOk result (λ d. d.cert_mode ≡ cons.old.mode) }
{
    skip_version(cons)?;
    skip_digests(cons)?;
    let content = take_content(cons, alloc)?;
    take_after_content(cons, alloc, content)
}

// Reads what is signed.
fn take_signed(cons: &mut Constructed<'_>, alloc: Global) -> Result<SignedData, DecodeError>
    ensures reads { Reads (λ d. d.signed) signed_at cons.old result cons.new }
    ensures mode { IfOk result (λ d. d.cert_mode ≡ cons.old.mode) }
{
    cons.take_sequence(|cons| take_signed_fields(cons, alloc))
}

// Reads what is signed, under [0].
fn take_tagged(cons: &mut Constructed<'_>, alloc: Global) -> Result<SignedData, DecodeError>
    ensures reads { Reads (λ d. d.signed) (context_at 0 signed_at) cons.old result cons.new }
    ensures mode { IfOk result (λ d. d.cert_mode ≡ cons.old.mode) }
{
    cons.take_constructed_if(Tag::CTX_0, |cons| take_signed(cons, alloc))
}

// Reads what stands in the SEQUENCE of the signed object.
#[tactic(auto, unfolding(crate::specs::Object::info_fields_at))]
fn take_info_fields(cons: &mut Constructed<'_>, alloc: Global) -> Result<SignedData, DecodeError>
    ensures reads { Reads (λ d. d.signed) info_fields_at cons.old result cons.new }
    ensures mode { IfOk result (λ d. d.cert_mode ≡ cons.old.mode) }
{
    cons.skip_oid_if(&ID_SIGNED_DATA)?;
    take_tagged(cons, alloc)
}

// Reads a signed object, without keeping its octets.
fn take_info(cons: &mut Constructed<'_>, alloc: Global) -> Result<SignedData, DecodeError>
    ensures reads { Reads (λ d. d.signed) info_at cons.old result cons.new }
    ensures mode { IfOk result (λ d. d.cert_mode ≡ cons.old.mode) }
{
    cons.take_sequence(|cons| take_info_fields(cons, alloc))
}

/// Reads a signed object, and keeps its octets. Refuses as `SignedObject::take_from` does.
pub fn take_kept(
    cons: &mut Constructed<'_>,
    alloc: Global,
) -> Result<(SignedData, Captured), DecodeError>
    ensures reads { Reads (λ k. (k.0.signed, k.1.octets)) (with_octets info_at)
        cons.old result cons.new }
    ensures cert_mode { IfOk result (λ k. k.0.cert_mode ≡ cons.old.mode) }
    ensures mode { IfOk result (λ k. k.1.mode ≡ cons.old.mode) }
    ensures stays { Stays result cons.new }
{
    cons.capture_with(|cons| take_info(cons, alloc))
}

impl Clone for SignedData {
    ghost is_clone = { λ d copy. copy ≡ d };

    fn clone(&self) -> Result<SignedData, AllocError> {
        let content_type = self.content_type.clone()?;
        let content = self.content.clone()?;
        let cert = self.cert.clone()?;
        match self.signer.clone() {
            Err(e) => {
                drop(cert);
                Err(e)
            }
            Ok(signer) => Ok(SignedData {
                content_type,
                content,
                cert,
                signer,
            }),
        }
    }
}
