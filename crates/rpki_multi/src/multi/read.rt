//! Reading multi-signed objects.

ghost use Rattle.std.specs.Prelude.{◌≡◌, IfOk, IfSome, All, map, option_map};
ghost use Rattle.rpki_der.specs.Form.Parts.{items_at, context_at};
ghost use Rattle.rpki_der.specs.Read.Parse.{optional};
ghost use Rattle.rpki_der.specs.Read.Reads.{Reads, Stays};
ghost use Rattle.rpki_der.specs.Tags.{SEQUENCE, context};
ghost use Rattle.rpki_certs.specs.Cert.{cert_at};
ghost use Rattle.rpki_crls.specs.Crl.{crl_at};
ghost use Rattle.rpki_sigobj.specs.SignerInfo.{signer_info_at};
ghost use Rattle.rpki_multi.specs.Signer.{id_rta};
ghost use Rattle.rpki_multi.specs.Multi.{multi_of, AreIn, content_fields_at, content_at};
ghost use Rattle.rpki_multi.specs.Multi.{certs_at, crls_at, signers_at, data_fields_at, data_at};
ghost use Rattle.rpki_multi.specs.Multi.{info_fields_at, multi_at};

use crate::multi::parts::Parts;
use crate::signer::{ID_RTA, SignerInfo};
use bytes::Bytes;
use rpki_certs::Cert;
use rpki_crls::Crl;
use rpki_der::{Constructed, DecodeError, Tag};
use rpki_sigobj::cms::{ID_SIGNED_DATA, skip_digests, skip_version, take_octets};
use std::alloc::Global;

// Reads the type of the content, and its octets.
#[tactic(auto, unfolding(crate::specs::Multi::content_fields_at))]
fn take_content_fields(cons: &mut Constructed<'_>, alloc: Global) -> Result<Bytes, DecodeError>
    ensures { Reads (λ c. c) content_fields_at cons.old result cons.new }
{
    cons.skip_oid_if(&ID_RTA)?;
    take_octets(cons, alloc)
}

// Reads the content.
fn take_content(cons: &mut Constructed<'_>, alloc: Global) -> Result<Bytes, DecodeError>
    ensures { Reads (λ c. c) content_at cons.old result cons.new }
{
    cons.take_sequence(|cons| take_content_fields(cons, alloc))
}

// Reads as many certificates as there are.
fn take_cert_items(cons: &mut Constructed<'_>, alloc: Global) -> Result<Vec<Cert>, DecodeError>
    ensures reads { Reads (λ certs. map (λ c. c.certificate) certs.items)
        (items_at SEQUENCE cert_at) cons.old result cons.new }
    ensures mode { IfOk result (λ certs. All (λ c. c.mode ≡ cons.old.mode) certs.items) }
{
    let mut certs = Vec::new(alloc);
    while let Some(cert) = Cert::take_opt_from(alloc, cons)? {
        certs.push(cert)?;
    }
    Ok(certs)
}

// Reads the certificates.
fn take_certs(cons: &mut Constructed<'_>, alloc: Global) -> Result<Vec<Cert>, DecodeError>
    ensures reads { Reads (λ certs. map (λ c. c.certificate) certs.items) certs_at
        cons.old result cons.new }
    ensures mode { IfOk result (λ certs. All (λ c. c.mode ≡ cons.old.mode) certs.items) }
{
    cons.take_constructed_if(Tag::CTX_0, |cons| take_cert_items(cons, alloc))
}

// Reads as many revocation lists as there are.
fn take_crl_items(cons: &mut Constructed<'_>, alloc: Global) -> Result<Vec<Crl>, DecodeError>
    ensures reads { Reads (λ crls. map (λ l. l.list) crls.items) (items_at SEQUENCE crl_at)
        cons.old result cons.new }
    ensures mode { IfOk result (λ crls. All (λ l. l.mode ≡ cons.old.mode) crls.items) }
{
    let mut crls = Vec::new(alloc);
    while let Some(crl) = Crl::take_opt_from(alloc, cons)? {
        crls.push(crl)?;
    }
    Ok(crls)
}

// Reads the revocation lists, if the SET of them is there.
fn take_opt_crls(cons: &mut Constructed<'_>, alloc: Global) -> Result<Option<Vec<Crl>>, DecodeError>
    ensures reads { Reads (option_map (λ crls. map (λ l. l.list) crls.items))
        (optional (context 1) (context_at 1 (items_at SEQUENCE crl_at))) cons.old result cons.new }
    ensures mode { IfOk result
        (λ crls. IfSome crls (λ crls. All (λ l. l.mode ≡ cons.old.mode) crls.items)) }
{
    cons.take_opt_constructed_if(Tag::CTX_1, |cons| take_crl_items(cons, alloc))
}

// Reads the revocation lists, of which there are none where the SET of them is missing.
fn take_crls(cons: &mut Constructed<'_>, alloc: Global) -> Result<Vec<Crl>, DecodeError>
    ensures reads { Reads (λ crls. map (λ l. l.list) crls.items) crls_at
        cons.old result cons.new }
    ensures mode { IfOk result (λ crls. All (λ l. l.mode ≡ cons.old.mode) crls.items) }
{
    match take_opt_crls(cons, alloc)? {
        Some(crls) => Ok(crls),
        None => Ok(Vec::new(alloc)),
    }
}

// Reads as many signers as there are.
fn take_signer_items(
    cons: &mut Constructed<'_>,
    alloc: Global,
) -> Result<Vec<SignerInfo>, DecodeError>
    ensures reads { Reads (λ signers. map (λ s. s.signer) signers.items)
        (items_at SEQUENCE (signer_info_at id_rta)) cons.old result cons.new }
    ensures mode { IfOk result (λ signers. All (λ s. s.mode ≡ cons.old.mode) signers.items) }
{
    let mut signers = Vec::new(alloc);
    while let Some(signer) = SignerInfo::take_opt_from(alloc, cons)? {
        signers.push(signer)?;
    }
    Ok(signers)
}

// Reads the signers.
fn take_signer_set(
    cons: &mut Constructed<'_>,
    alloc: Global,
) -> Result<Vec<SignerInfo>, DecodeError>
    ensures reads { Reads (λ signers. map (λ s. s.signer) signers.items) signers_at
        cons.old result cons.new }
    ensures mode { IfOk result (λ signers. All (λ s. s.mode ≡ cons.old.mode) signers.items) }
{
    cons.take_set(|cons| take_signer_items(cons, alloc))
}

// Reads what stands in the SEQUENCE of what is signed.
#[tactic(auto, unfolding(crate::specs::Multi::data_fields_at))]
fn take_data_fields(cons: &mut Constructed<'_>, alloc: Global) -> Result<Parts, DecodeError>
    ensures reads { Reads multi_of data_fields_at cons.old result cons.new }
    ensures mode { IfOk result (AreIn cons.old.mode) }
{
    let mode = cons.mode();
    skip_version(cons)?;
    skip_digests(cons)?;
    let content = take_content(cons, alloc)?;
    let certs = take_certs(cons, alloc)?;
    let crls = take_crls(cons, alloc)?;
    let signers = take_signer_set(cons, alloc)?;
    Ok(Parts {
        mode,
        content,
        certs,
        crls,
        signers,
    })
}

// Reads what is signed.
fn take_data(cons: &mut Constructed<'_>, alloc: Global) -> Result<Parts, DecodeError>
    ensures reads { Reads multi_of data_at cons.old result cons.new }
    ensures mode { IfOk result (AreIn cons.old.mode) }
{
    cons.take_sequence(|cons| take_data_fields(cons, alloc))
}

// Reads what is signed, under [0].
fn take_tagged(cons: &mut Constructed<'_>, alloc: Global) -> Result<Parts, DecodeError>
    ensures reads { Reads multi_of (context_at 0 data_at) cons.old result cons.new }
    ensures mode { IfOk result (AreIn cons.old.mode) }
{
    cons.take_constructed_if(Tag::CTX_0, |cons| take_data(cons, alloc))
}

// Reads what stands in the SEQUENCE of the object.
#[tactic(auto, unfolding(crate::specs::Multi::info_fields_at))]
fn take_info_fields(cons: &mut Constructed<'_>, alloc: Global) -> Result<Parts, DecodeError>
    ensures reads { Reads multi_of info_fields_at cons.old result cons.new }
    ensures mode { IfOk result (AreIn cons.old.mode) }
{
    cons.skip_oid_if(&ID_SIGNED_DATA)?;
    take_tagged(cons, alloc)
}

/// Reads a multi-signed object.
pub fn take_multi(cons: &mut Constructed<'_>, alloc: Global) -> Result<Parts, DecodeError>
    ensures reads { Reads multi_of multi_at cons.old result cons.new }
    ensures mode { IfOk result (AreIn cons.old.mode) }
    ensures stays { Stays result cons.new }
{
    cons.take_sequence(|cons| take_info_fields(cons, alloc))
}
