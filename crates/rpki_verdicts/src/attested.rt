//! The list of the good signatures that a check of an attestation may ask about.

ghost use Rattle.std.specs.Prelude.{◌++◌, map, string_bytes};
ghost use Rattle.std.specs.List.{flat_map};
ghost use Rattle.rpki_der.specs.declared.mode.Mode.TheVariants.{Der};
ghost use Rattle.rpki_der.specs.Form.Decodes.{Decodes};
ghost use Rattle.rpki_multi.specs.Attestation.{RtaForm, whole_of};
ghost use Rattle.rpki_multi.specs.Multi.{multi_of};
ghost use Rattle.rpki_verdicts.specs.Attested.{ListsRta, PushesSupplied, PushesChains, PushesRta};
ghost use Rattle.rpki_verdicts.specs.Attested.{octets_of_chains, certificates, object_questions};
ghost use Rattle.rpki_verdicts.specs.Attested.{carried_questions, list_questions, info_questions};
ghost use Rattle.rpki_verdicts.specs.Grows.{Grows};
ghost use Rattle.rpki_verdicts.specs.Listing.{listing};

use crate::lines::{push_cert, push_named};
use crate::list::{ListingError, push_certs};
use bytes::Bytes;
use rpki_basics::Crypto;
use rpki_certs::Cert;
use rpki_crls::Crl;
use rpki_der::DecodeError;
use rpki_multi::{MultiSignedObject, Rta, SignerInfo};
use std::alloc::{AllocError, Global};

/// The list of verdicts that a check of an attestation needs (draft-michaelson-rpki-rta, section
/// 5), as `listing` makes it for a check of an object: a line for each of the signatures that it
/// may ask about which is good, and whose key can be written. They are, in this order, those of the
/// certificates of each chain that is supplied, the first by its own key and each other one by the
/// key of the one before; those of the certificates that are carried, each by its own key where it
/// states no identifier of its issuer's key, and else by the key of each carried one that has this
/// identifier, and then of each chain's last; and those of the revocation lists and of the signers
/// that are carried, each by the key of each carried certificate that has the identifier. A chain
/// of no certificate supplies none.
///
/// Everything is read in DER, the certificates before the attestation. Refuses by `Certificate`
/// where one of the certificates is not read, and else by `Object` where the attestation is not.
/// Nothing is validated. Memory may run out at any of them.
pub fn rta_listing<C: Crypto>(
    alloc: Global,
    object: &Bytes,
    chains: &[&[Bytes]],
    crypto: &C,
) -> Result<String, ListingError>
    ensures { ListsRta (C.is_signed crypto.now) object.now (octets_of_chains chains.now) result }
{
    let mut text = String::new(alloc);
    match push_chains(alloc, &mut text, chains, crypto) {
        Err(error) => Err(ListingError::Certificate(error)),
        Ok(supplied) => {
            let pushed = push_rta(alloc, &mut text, &supplied, object, crypto);
            drop(supplied);
            match pushed {
                Err(error) => Err(ListingError::Object(error)),
                Ok(()) => Ok(text),
            }
        }
    }
}

/// Appends the lines of the certificates of these chains, and gives what they supply.
fn push_chains<C: Crypto>(
    alloc: Global,
    text: &mut String,
    chains: &[&[Bytes]],
    crypto: &C,
) -> Result<Vec<Cert>, DecodeError>
    ensures { PushesChains (C.is_signed crypto.now) (octets_of_chains chains.now)
        (string_bytes text.old) result (string_bytes text.new) }
{
    let mut supplied = Vec::new(alloc);
    for chain in chains {
        match push_supplied(alloc, text, &mut supplied, chain, crypto) {
            Err(error) => {
                drop(supplied);
                return Err(error);
            }
            Ok(()) => {}
        }
    }
    Ok(supplied)
}

/// Appends the lines of the certificates of a chain, and adds the last one to those that are
/// supplied.
fn push_supplied<C: Crypto>(
    alloc: Global,
    text: &mut String,
    supplied: &mut Vec<Cert>,
    chain: &[Bytes],
    crypto: &C,
) -> Result<(), DecodeError>
    ensures { PushesSupplied (C.is_signed crypto.now) chain.now
        (string_bytes text.old) supplied.old.items result
        (string_bytes text.new) supplied.new.items }
{
    match chain {
        [] => Ok(()),
        [anchor, others @ ..] => match push_certs(alloc, text, anchor, others, crypto) {
            Err(error) => Err(error),
            Ok(last) => match supplied.push(last) {
                Ok(()) => Ok(()),
                Err(refused) => {
                    drop(refused);
                    Err(DecodeError::Memory)
                }
            },
        },
    }
}

/// Appends the lines of the attestation at the front of the octets, under these certificates that
/// are supplied.
fn push_rta<C: Crypto>(
    alloc: Global,
    text: &mut String,
    supplied: &[Cert],
    octets: &Bytes,
    crypto: &C,
) -> Result<(), DecodeError>
    ensures { PushesRta (C.is_signed crypto.now) (certificates supplied.now) octets.now
        (string_bytes text.old) result (string_bytes text.new) }
{
    match read_rta(alloc, octets) {
        Err(error) => Err(error),
        Ok(rta) => {
            let pushed = push_object(alloc, text, supplied, rta.signed(), crypto);
            drop(rta);
            match pushed {
                Ok(()) => Ok(()),
                Err(_) => Err(DecodeError::Memory),
            }
        }
    }
}

/// Appends the lines of what is carried, under these certificates that are supplied.
fn push_object<C: Crypto>(
    alloc: Global,
    text: &mut String,
    supplied: &[Cert],
    signed: &MultiSignedObject,
    crypto: &C,
) -> Result<(), AllocError>
    ensures { Grows result text.old text.new (listing (C.is_signed crypto.now)
        (object_questions (certificates supplied.now) (multi_of signed.now))) }
{
    let carried = signed.certificates();
    push_carried(alloc, text, carried, supplied, crypto)?;
    push_lists(alloc, text, carried, signed.crls(), crypto)?;
    push_infos(alloc, text, carried, signed.signer_infos(), crypto)
}

/// Appends the lines of the certificates that are carried, beside these that are supplied.
fn push_carried<C: Crypto>(
    alloc: Global,
    text: &mut String,
    carried: &[Cert],
    supplied: &[Cert],
    crypto: &C,
) -> Result<(), AllocError>
    ensures { Grows result text.old text.new (listing (C.is_signed crypto.now) (flat_map
        (carried_questions (certificates carried.now ++ certificates supplied.now))
        (certificates carried.now))) }
{
    for cert in carried {
        push_issued(alloc, text, carried, supplied, cert, crypto)?;
    }
    Ok(())
}

/// Appends the lines of a certificate that is carried.
fn push_issued<C: Crypto>(
    alloc: Global,
    text: &mut String,
    carried: &[Cert],
    supplied: &[Cert],
    cert: &Cert,
    crypto: &C,
) -> Result<(), AllocError>
    ensures { Grows result text.old text.new (listing (C.is_signed crypto.now)
        (carried_questions (certificates carried.now ++ certificates supplied.now)
        cert.now.certificate)) }
{
    let (message, signature) = (cert.signed(), cert.signature());
    match cert.authority_key_identifier() {
        None => push_cert(alloc, text, cert.subject_public_key_info(), cert, crypto),
        Some(id) => {
            push_named(alloc, text, carried, id, message, signature, crypto)?;
            push_named(alloc, text, supplied, id, message, signature, crypto)
        }
    }
}

/// Appends the lines of the revocation lists that are carried beside these certificates.
fn push_lists<C: Crypto>(
    alloc: Global,
    text: &mut String,
    carried: &[Cert],
    crls: &[Crl],
    crypto: &C,
) -> Result<(), AllocError>
    ensures { Grows result text.old text.new (listing (C.is_signed crypto.now) (flat_map
        (list_questions (certificates carried.now)) (map (λ l. l.list) crls.now))) }
{
    for crl in crls {
        push_list(alloc, text, carried, crl, crypto)?;
    }
    Ok(())
}

/// Appends the lines of a revocation list that is carried beside these certificates.
fn push_list<C: Crypto>(
    alloc: Global,
    text: &mut String,
    carried: &[Cert],
    crl: &Crl,
    crypto: &C,
) -> Result<(), AllocError>
    ensures { Grows result text.old text.new (listing (C.is_signed crypto.now)
        (list_questions (certificates carried.now) crl.now.list)) }
{
    let id = crl.authority_key_identifier();
    push_named(
        alloc,
        text,
        carried,
        id,
        crl.signed(),
        crl.signature(),
        crypto,
    )
}

/// Appends the lines of the signers beside these certificates.
fn push_infos<C: Crypto>(
    alloc: Global,
    text: &mut String,
    carried: &[Cert],
    infos: &[SignerInfo],
    crypto: &C,
) -> Result<(), AllocError>
    ensures { Grows result text.old text.new (listing (C.is_signed crypto.now) (flat_map
        (info_questions (certificates carried.now)) (map (λ s. s.signer) infos.now))) }
{
    for info in infos {
        push_info(alloc, text, carried, info, crypto)?;
    }
    Ok(())
}

/// Appends the lines of a signer beside these certificates.
fn push_info<C: Crypto>(
    alloc: Global,
    text: &mut String,
    carried: &[Cert],
    info: &SignerInfo,
    crypto: &C,
) -> Result<(), AllocError>
    ensures { Grows result text.old text.new (listing (C.is_signed crypto.now)
        (info_questions (certificates carried.now) info.now.signer)) }
{
    let message = info.attributes().encode_verify(alloc)?;
    let signature = info.signature();
    push_named(
        alloc,
        text,
        carried,
        *info.sid(),
        message.as_slice(),
        signature,
        crypto,
    )
}

/// The attestation at the front of the octets.
fn read_rta(alloc: Global, octets: &Bytes) -> Result<Rta, DecodeError>
    ensures { Decodes (RtaForm Der) whole_of octets.now result }
{
    match octets.clone() {
        Err(_) => Err(DecodeError::Memory),
        Ok(source) => Rta::decode(alloc, source),
    }
}
