//! Reading revocation lists.

ghost use Rattle.std.specs.Prelude.{◌≡◌, ◌<◌, IfOk, IfSome, length, option_map};
ghost use Rattle.rpki_der.specs.Form.Made.{with_octets};
ghost use Rattle.rpki_der.specs.Form.Parts.{sequence_at, sequence_of_at, context_at};
ghost use Rattle.rpki_der.specs.Read.Parse.{optional};
ghost use Rattle.rpki_der.specs.Read.Reads.{Reads, Stays};
ghost use Rattle.rpki_der.specs.Tags.{SEQUENCE};
ghost use Rattle.rpki_crls.specs.Crl.{tbs_fields_at, tbs_at, contents_at};
ghost use Rattle.rpki_crls.specs.Entry.{crl_entry_at, revoked_at};
ghost use Rattle.rpki_crls.specs.Extensions.{crl_extensions_at};

use crate::entry::CrlEntry;
use crate::extensions::CrlExtensions;
use bytes::Bytes;
use rpki_basics::{Name, RpkiSignature, RpkiSignatureAlgorithm, Time};
use rpki_der::{Captured, Constructed, DecodeError, Tag};
use std::alloc::{AllocError, Global};
use std::marker::Model;

// The number of the version v2 (RFC 5280, section 5.1.2.1).
const V2: u8 = 1;

/// What is signed of a revocation list (RFC 5280, section 5.1.2).
#[derive(Debug, Drop)]
pub struct Tbs {
    pub issuer: Name,
    pub this_update: Time,
    pub next_update: Time,
    pub revoked: Vec<CrlEntry>,
    pub extensions: CrlExtensions,
}

impl Model for Tbs {
    ghost use Rattle.rpki_crls.specs.Crl.{KeptTbs};

    ghost Value = { KeptTbs };

    ghost view = { λ t. record {
      tbs = record {
        issuer = t.issuer.octets;
        this_update = t.this_update;
        next_update = t.next_update;
        revoked = t.revoked.items;
        extensions = t.extensions;
      };
      name_mode = t.issuer.mode;
    } };
}

/// What stands in a revocation list (RFC 5280, section 5.1.1).
#[derive(Debug, Drop)]
pub struct Contents {
    pub tbs: Tbs,
    pub signed: Bytes,
    pub signature: RpkiSignature,
}

impl Model for Contents {
    ghost use Rattle.rpki_crls.specs.Crl.{KeptContents};

    ghost Value = { KeptContents };

    ghost view = { λ c. record {
      contents = record { tbs = c.tbs.tbs; signed = c.signed; signature = c.signature };
      name_mode = c.tbs.name_mode;
    } };
}

impl Clone for Tbs {
    ghost is_clone = { λ t copy. copy ≡ t };

    fn clone(&self) -> Result<Tbs, AllocError> {
        Ok(Tbs {
            issuer: self.issuer.clone()?,
            this_update: self.this_update,
            next_update: self.next_update,
            revoked: self.revoked.clone()?,
            extensions: self.extensions,
        })
    }
}

impl Clone for Contents {
    ghost is_clone = { λ c copy. copy ≡ c };

    fn clone(&self) -> Result<Contents, AllocError> {
        // The largest last: what is alive at a `?` is let go there.
        let signed = self.signed.clone()?;
        let signature = self.signature.clone()?;
        let tbs = self.tbs.clone()?;
        Ok(Contents {
            tbs,
            signed,
            signature,
        })
    }
}

// Reads the entries, if there is a list of them.
fn take_opt_entries(
    alloc: Global,
    cons: &mut Constructed<'_>,
) -> Result<Option<Vec<CrlEntry>>, DecodeError>
    ensures { Reads (option_map (λ list. list.items))
        (optional SEQUENCE (sequence_of_at SEQUENCE crl_entry_at)) cons.old result cons.new }
{
    cons.take_opt_sequence(|cons| cons.take_items(alloc))
}

// Reads the entries, of which there are none where the list of them is missing.
fn take_revoked(alloc: Global, cons: &mut Constructed<'_>) -> Result<Vec<CrlEntry>, DecodeError>
    ensures { Reads (λ list. list.items) revoked_at cons.old result cons.new }
{
    match take_opt_entries(alloc, cons)? {
        Some(list) => Ok(list),
        None => Ok(Vec::new(alloc)),
    }
}

// Reads the extensions.
fn take_extensions(alloc: Global, cons: &mut Constructed<'_>) -> Result<CrlExtensions, DecodeError>
    ensures { Reads (λ x. x) (context_at 0 crl_extensions_at) cons.old result cons.new }
{
    cons.take_constructed_if(Tag::CTX_0, |cons| CrlExtensions::take_from(alloc, cons))
}

// Reads the fields that are signed.
#[tactic(auto, unfolding(crate::specs::Crl::tbs_fields_at))]
fn take_tbs_fields(alloc: Global, cons: &mut Constructed<'_>) -> Result<Tbs, DecodeError>
    ensures reads { Reads (λ t. t.tbs) tbs_fields_at cons.old result cons.new }
    ensures name { IfOk result (λ t. t.name_mode ≡ cons.old.mode) }
{
    cons.skip_u8_if(V2)?;
    RpkiSignatureAlgorithm::take_cert_from(cons)?;
    let issuer = Name::take_from(cons)?;
    let this_update = Time::take_from(cons)?;
    let next_update = Time::take_from(cons)?;
    let revoked = take_revoked(alloc, cons)?;
    let extensions = take_extensions(alloc, cons)?;
    Ok(Tbs {
        issuer,
        this_update,
        next_update,
        revoked,
        extensions,
    })
}

// Reads what is signed.
fn take_tbs(alloc: Global, cons: &mut Constructed<'_>) -> Result<Tbs, DecodeError>
    ensures reads { Reads (λ t. t.tbs) tbs_at cons.old result cons.new }
    ensures name { IfOk result (λ t. t.name_mode ≡ cons.old.mode) }
{
    cons.take_sequence(|cons| take_tbs_fields(alloc, cons))
}

// Reads what is signed, and keeps its octets.
fn keep_tbs(alloc: Global, cons: &mut Constructed<'_>) -> Result<(Tbs, Captured), DecodeError>
    ensures reads { Reads (λ k. (k.0.tbs, k.1.octets)) (with_octets tbs_at)
        cons.old result cons.new }
    ensures name { IfOk result (λ k. k.0.name_mode ≡ cons.old.mode) }
{
    cons.capture_with(|cons| take_tbs(alloc, cons))
}

// Reads what stands in a revocation list.
#[tactic(auto, unfolding(crate::specs::Crl::contents_at))]
fn take_contents(alloc: Global, cons: &mut Constructed<'_>) -> Result<Contents, DecodeError>
    ensures reads { Reads (λ c. c.contents) contents_at cons.old result cons.new }
    ensures name { IfOk result (λ c. c.name_mode ≡ cons.old.mode) }
{
    let (tbs, signed) = keep_tbs(alloc, cons)?;
    let algorithm = match RpkiSignatureAlgorithm::take_cert_from(cons) {
        Ok(algorithm) => algorithm,
        Err(error) => {
            drop(tbs);
            return Err(error);
        }
    };
    let signature = match cons.take_octets_in_bits() {
        Ok(signature) => signature,
        Err(error) => {
            drop(tbs);
            return Err(error);
        }
    };
    Ok(Contents {
        tbs,
        signed: signed.into_bytes(),
        signature: RpkiSignature::new(algorithm, signature),
    })
}

// Reads a revocation list, without keeping its octets.
fn take_whole(alloc: Global, cons: &mut Constructed<'_>) -> Result<Contents, DecodeError>
    ensures reads { Reads (λ c. c.contents) (sequence_at contents_at) cons.old result cons.new }
    ensures name { IfOk result (λ c. c.name_mode ≡ cons.old.mode) }
{
    cons.take_sequence(|cons| take_contents(alloc, cons))
}

/// Reads a revocation list, and keeps its octets. Refuses as `Crl::take_from` does.
pub fn take_kept(
    alloc: Global,
    cons: &mut Constructed<'_>,
) -> Result<(Contents, Captured), DecodeError>
    ensures reads { Reads (λ k. (k.0.contents, k.1.octets)) (with_octets (sequence_at contents_at))
        cons.old result cons.new }
    ensures name { IfOk result (λ k. k.0.name_mode ≡ cons.old.mode) }
    ensures mode { IfOk result (λ k. k.1.mode ≡ cons.old.mode) }
    ensures stays { Stays result cons.new }
{
    cons.capture_with(|cons| take_whole(alloc, cons))
}

// Reads a revocation list, if a SEQUENCE is next, without keeping its octets.
fn take_opt_whole(
    alloc: Global,
    cons: &mut Constructed<'_>,
) -> Result<Option<Contents>, DecodeError>
    ensures reads { Reads (option_map (λ c. c.contents))
        (optional SEQUENCE (sequence_at contents_at)) cons.old result cons.new }
    ensures name { IfOk result (λ c. IfSome c (λ c. c.name_mode ≡ cons.old.mode)) }
    ensures shorter { IfOk result
        (λ c. IfSome c (λ _. length cons.new.rest < length cons.old.rest)) }
{
    cons.take_opt_sequence(|cons| take_contents(alloc, cons))
}

/// Reads a revocation list, if a SEQUENCE is next, and keeps its octets, of which there are none
/// where there is no list. Refuses as `Crl::take_from` does.
pub fn take_opt_kept(
    alloc: Global,
    cons: &mut Constructed<'_>,
) -> Result<(Option<Contents>, Captured), DecodeError>
    ensures reads { Reads (λ k. (option_map (λ c. c.contents) k.0, k.1.octets))
        (with_octets (optional SEQUENCE (sequence_at contents_at))) cons.old result cons.new }
    ensures name { IfOk result (λ k. IfSome k.0 (λ c. c.name_mode ≡ cons.old.mode)) }
    ensures mode { IfOk result (λ k. k.1.mode ≡ cons.old.mode) }
    ensures stays { Stays result cons.new }
    ensures shorter { IfOk result
        (λ k. IfSome k.0 (λ _. length cons.new.rest < length cons.old.rest)) }
{
    cons.capture_with(|cons| take_opt_whole(alloc, cons))
}
