//! Reading certificates.

ghost use Rattle.std.specs.Prelude.{◌≡◌, ◌<◌, IfOk, IfSome, length, option_map};
ghost use Rattle.rpki_der.specs.Form.Made.{with_octets};
ghost use Rattle.rpki_der.specs.Form.Parts.{sequence_at, context_at};
ghost use Rattle.rpki_der.specs.Read.Parse.{optional, primitive, this};
ghost use Rattle.rpki_der.specs.Read.Reads.{Reads, Stays};
ghost use Rattle.rpki_der.specs.Tags.{INTEGER, SEQUENCE};
ghost use Rattle.rpki_extensions.specs.Extensions.{extensions_at};
ghost use Rattle.rpki_certs.specs.Cert.{v3, validity_fields_at, validity_at, tbs_fields_at, tbs_at};
ghost use Rattle.rpki_certs.specs.Cert.{contents_at, both_in};

use bytes::Bytes;
use rpki_basics::{Name, PublicKey, RpkiSignature, RpkiSignatureAlgorithm, Serial, Time, Validity};
use rpki_der::{Captured, Constructed, DecodeError, Tag};
use rpki_extensions::Extensions;
use std::alloc::{AllocError, Global};
use std::marker::Model;

/// What is signed of a certificate (RFC 5280, section 4.1.2).
#[derive(Debug, Drop)]
pub struct Tbs {
    pub serial_number: Serial,
    pub issuer: Name,
    pub validity: Validity,
    pub subject: Name,
    pub key: PublicKey,
    pub extensions: Extensions,
}

impl Model for Tbs {
    ghost use Rattle.rpki_certs.specs.Cert.{KeptTbs};

    ghost Value = { KeptTbs };

    ghost view = { λ t. record {
      tbs = record {
        serial_number = t.serial_number;
        issuer = t.issuer.octets;
        validity = t.validity;
        subject = t.subject.octets;
        key = t.key;
        extensions = t.extensions;
      };
      names = record { issuer = t.issuer.mode; subject = t.subject.mode };
    } };
}

/// What stands in a certificate (RFC 5280, section 4.1.1).
#[derive(Debug, Drop)]
pub struct Contents {
    // (on the heap, so that it is not moved at each step on the way up)
    pub tbs: Box<Tbs>,
    pub signed: Bytes,
    pub signature: RpkiSignature,
}

impl Model for Contents {
    ghost use Rattle.rpki_certs.specs.Cert.{KeptContents};

    ghost Value = { KeptContents };

    ghost view = { λ c. record {
      contents = record { tbs = c.tbs.value.tbs; signed = c.signed; signature = c.signature };
      names = c.tbs.value.names;
    } };
}

impl Clone for Tbs {
    ghost is_clone = { λ t copy. copy ≡ t };

    fn clone(&self) -> Result<Tbs, AllocError> {
        Ok(Tbs {
            serial_number: self.serial_number,
            issuer: self.issuer.clone()?,
            validity: self.validity,
            subject: self.subject.clone()?,
            key: self.key.clone()?,
            extensions: self.extensions.clone()?,
        })
    }
}

impl Clone for Contents {
    ghost is_clone = { λ c copy. copy ≡ c };

    fn clone(&self) -> Result<Contents, AllocError> {
        // The largest last: what is alive at a `?` is let go there.
        let signed = self.signed.clone()?;
        let signature = self.signature.clone()?;
        let tbs = self.tbs.clone()?;
        Ok(Contents {
            tbs,
            signed,
            signature,
        })
    }
}

// The number of the version v3 (RFC 5280, section 4.1.2.1).
const V3: u8 = 2;

// Reads the version, which is v3.
fn skip_version(cons: &mut Constructed<'_>) -> Result<(), DecodeError>
    ensures { Reads (λ u. u) (context_at 0 (primitive INTEGER (this v3)))
        cons.old result cons.new }
{
    cons.take_constructed_if(Tag::CTX_0, |cons| cons.skip_u8_if(V3))
}

// Reads the two ends of the validity.
#[tactic(auto, unfolding(crate::specs::Cert::validity_fields_at))]
fn take_ends(cons: &mut Constructed<'_>) -> Result<Validity, DecodeError>
    ensures { Reads (λ v. v) validity_fields_at cons.old result cons.new }
{
    let not_before = Time::take_from(cons)?;
    let not_after = Time::take_from(cons)?;
    Ok(Validity::new(not_before, not_after))
}

// Reads the validity.
fn take_validity(cons: &mut Constructed<'_>) -> Result<Validity, DecodeError>
    ensures { Reads (λ v. v) validity_at cons.old result cons.new }
{
    cons.take_sequence(take_ends)
}

// Reads the extensions.
fn take_extensions(cons: &mut Constructed<'_>, alloc: Global) -> Result<Extensions, DecodeError>
    ensures { Reads (λ x. x) (context_at 3 extensions_at) cons.old result cons.new }
{
    cons.take_constructed_if(Tag::CTX_3, |cons| Extensions::take_from(alloc, cons))
}

// Reads the fields that are signed.
#[tactic(auto, unfolding(crate::specs::Cert::tbs_fields_at))]
fn take_tbs_fields(cons: &mut Constructed<'_>, alloc: Global) -> Result<Tbs, DecodeError>
    ensures reads { Reads (λ t. t.tbs) tbs_fields_at cons.old result cons.new }
    ensures names { IfOk result (λ t. t.names ≡ both_in cons.old.mode) }
{
    skip_version(cons)?;
    let serial_number = Serial::take_from(cons)?;
    RpkiSignatureAlgorithm::take_cert_from(cons)?;
    let issuer = Name::take_from(cons)?;
    let validity = take_validity(cons)?;
    let subject = Name::take_from(cons)?;
    let key = match PublicKey::take_from(cons) {
        Ok(key) => key,
        Err(error) => {
            drop(issuer);
            drop(subject);
            return Err(error);
        }
    };
    match take_extensions(cons, alloc) {
        Ok(extensions) => Ok(Tbs {
            serial_number,
            issuer,
            validity,
            subject,
            key,
            extensions,
        }),
        Err(error) => {
            drop(issuer);
            drop(subject);
            drop(key);
            Err(error)
        }
    }
}

// Reads the fields that are signed, and puts them on the heap.
fn take_boxed(cons: &mut Constructed<'_>, alloc: Global) -> Result<Box<Tbs>, DecodeError>
    ensures reads { Reads (λ t. t.value.tbs) tbs_fields_at cons.old result cons.new }
    ensures names { IfOk result (λ t. t.value.names ≡ both_in cons.old.mode) }
{
    let tbs = take_tbs_fields(cons, alloc)?;
    Ok(Box::new(alloc, tbs)?)
}

// Reads what is signed.
fn take_tbs(cons: &mut Constructed<'_>, alloc: Global) -> Result<Box<Tbs>, DecodeError>
    ensures reads { Reads (λ t. t.value.tbs) tbs_at cons.old result cons.new }
    ensures names { IfOk result (λ t. t.value.names ≡ both_in cons.old.mode) }
{
    cons.take_sequence(|cons| take_boxed(cons, alloc))
}

// Reads what is signed, and keeps its octets.
fn keep_tbs(cons: &mut Constructed<'_>, alloc: Global) -> Result<(Box<Tbs>, Captured), DecodeError>
    ensures reads { Reads (λ k. (k.0.value.tbs, k.1.octets)) (with_octets tbs_at)
        cons.old result cons.new }
    ensures names { IfOk result (λ k. k.0.value.names ≡ both_in cons.old.mode) }
{
    cons.capture_with(|cons| take_tbs(cons, alloc))
}

// Reads what stands in a certificate.
#[tactic(auto, unfolding(crate::specs::Cert::contents_at))]
fn take_contents(cons: &mut Constructed<'_>, alloc: Global) -> Result<Contents, DecodeError>
    ensures reads { Reads (λ c. c.contents) contents_at cons.old result cons.new }
    ensures names { IfOk result (λ c. c.names ≡ both_in cons.old.mode) }
{
    let (tbs, signed) = keep_tbs(cons, alloc)?;
    let algorithm = match RpkiSignatureAlgorithm::take_cert_from(cons) {
        Ok(algorithm) => algorithm,
        Err(error) => {
            drop(tbs);
            return Err(error);
        }
    };
    let signature = match cons.take_octets_in_bits() {
        Ok(signature) => signature,
        Err(error) => {
            drop(tbs);
            return Err(error);
        }
    };
    Ok(Contents {
        tbs,
        signed: signed.into_bytes(),
        signature: RpkiSignature::new(algorithm, signature),
    })
}

// Reads a certificate, without keeping its octets.
fn take_whole(cons: &mut Constructed<'_>, alloc: Global) -> Result<Contents, DecodeError>
    ensures reads { Reads (λ c. c.contents) (sequence_at contents_at) cons.old result cons.new }
    ensures names { IfOk result (λ c. c.names ≡ both_in cons.old.mode) }
{
    cons.take_sequence(|cons| take_contents(cons, alloc))
}

/// Reads a certificate, and keeps its octets. Refuses as `Cert::take_from` does.
pub fn take_kept(
    cons: &mut Constructed<'_>,
    alloc: Global,
) -> Result<(Contents, Captured), DecodeError>
    ensures reads { Reads (λ k. (k.0.contents, k.1.octets))
        (with_octets (sequence_at contents_at)) cons.old result cons.new }
    ensures names { IfOk result (λ k. k.0.names ≡ both_in cons.old.mode) }
    ensures mode { IfOk result (λ k. k.1.mode ≡ cons.old.mode) }
    ensures stays { Stays result cons.new }
{
    cons.capture_with(|cons| take_whole(cons, alloc))
}

// Reads a certificate, if a SEQUENCE is next, without keeping its octets.
fn take_opt_whole(
    cons: &mut Constructed<'_>,
    alloc: Global,
) -> Result<Option<Contents>, DecodeError>
    ensures reads { Reads (option_map (λ c. c.contents))
        (optional SEQUENCE (sequence_at contents_at)) cons.old result cons.new }
    ensures names { IfOk result (λ c. IfSome c (λ c. c.names ≡ both_in cons.old.mode)) }
    ensures shorter { IfOk result
        (λ c. IfSome c (λ _. length cons.new.rest < length cons.old.rest)) }
{
    cons.take_opt_sequence(|cons| take_contents(cons, alloc))
}

/// Reads a certificate, if a SEQUENCE is next, and keeps its octets, of which there are none where
/// there is no certificate. Refuses as `Cert::take_from` does.
pub fn take_opt_kept(
    cons: &mut Constructed<'_>,
    alloc: Global,
) -> Result<(Option<Contents>, Captured), DecodeError>
    ensures reads { Reads (λ k. (option_map (λ c. c.contents) k.0, k.1.octets))
        (with_octets (optional SEQUENCE (sequence_at contents_at))) cons.old result cons.new }
    ensures names { IfOk result (λ k. IfSome k.0 (λ c. c.names ≡ both_in cons.old.mode)) }
    ensures mode { IfOk result (λ k. k.1.mode ≡ cons.old.mode) }
    ensures stays { Stays result cons.new }
    ensures shorter { IfOk result
        (λ k. IfSome k.0 (λ _. length cons.new.rest < length cons.old.rest)) }
{
    cons.capture_with(|cons| take_opt_whole(cons, alloc))
}
