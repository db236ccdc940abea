//! The list of the good signatures that a check asks about.

ghost use Rattle.std.specs.Prelude.{Some, string_bytes};
ghost use Rattle.rpki_der.specs.Form.Decodes.{Decodes};
ghost use Rattle.rpki_sigobj.specs.Object.{SignedForm, mode_of};
ghost use Rattle.rpki_verdicts.specs.Lists.{Lists, PushesCert, PushesChain, PushesCerts};
ghost use Rattle.rpki_verdicts.specs.Lists.{PushesObject, IsKept, listing_error_text};

use crate::lines::{push_cert, push_signed};
use bytes::Bytes;
use rpki_basics::Crypto;
use rpki_certs::{Cert, read_cert};
use rpki_der::DecodeError;
use rpki_sigobj::SignedObject;
use std::alloc::{AllocError, Global};
use std::error::Error;
use std::fmt;

/// Why no list is made.
#[derive(Debug, Drop)]
pub enum ListingError {
    /// The certificates were not read: one of their files does not begin with one, or memory ran
    /// out.
    Certificate(DecodeError),
    /// The object was not read: its file does not begin with one, or memory ran out.
    Object(DecodeError),
}

impl fmt::Display for ListingError {
    ghost output = { λ error. Some (listing_error_text error) };

    fn fmt<W: fmt::Write>(&self, f: &mut fmt::Formatter<W>) -> fmt::Result {
        match self {
            ListingError::Certificate(error) => error.fmt(f),
            ListingError::Object(error) => error.fmt(f),
        }
    }
}

impl Error for ListingError {}

/// The list of verdicts that a check of an object needs, as `Verdicts::read` of `rpki_verdicts`
/// reads it: a line for each of the signatures that it asks about which is good, and whose key can
/// be written. These are, in this order, that of the certificate of a trust anchor by its own key,
/// that of each certificate of the chain by the key of the one before, that of the certificate in
/// the object by the key of the last one, and that of the object by the key of its certificate. A
/// signature that is not good has no line, nor has one whose key would take 2^32 octets or more.
///
/// Certificates are read in DER, before the object, which is read in DER where it is read strictly,
/// and else in BER. Refuses by `Certificate` where one of the certificates is not read, and else by
/// `Object` where the object is not. Nothing is validated. Memory may run out at any of them.
pub fn listing<C: Crypto>(
    alloc: Global,
    object: &Bytes,
    strict: bool,
    anchor: &Bytes,
    chain: &[Bytes],
    crypto: &C,
) -> Result<String, ListingError>
    ensures { Lists (mode_of strict) (C.is_signed crypto.now) object.now anchor.now
        chain.now result }
{
    let mut text = String::new(alloc);
    match push_certs(alloc, &mut text, anchor, chain, crypto) {
        Err(error) => Err(ListingError::Certificate(error)),
        Ok(issuer) => {
            let pushed = push_object(alloc, &mut text, &issuer, object, strict, crypto);
            drop(issuer);
            match pushed {
                Err(error) => Err(ListingError::Object(error)),
                Ok(()) => Ok(text),
            }
        }
    }
}

/// Appends the lines of the certificate of a trust anchor and of a chain under it, and gives the
/// last one.
pub(crate) fn push_certs<C: Crypto>(
    alloc: Global,
    text: &mut String,
    anchor: &Bytes,
    chain: &[Bytes],
    crypto: &C,
) -> Result<Cert, DecodeError>
    ensures { PushesCerts (C.is_signed crypto.now) anchor.now chain.now
        (string_bytes text.old) result (string_bytes text.new) }
{
    match push_anchor(alloc, text, anchor, crypto) {
        Err(error) => Err(error),
        Ok(first) => push_chain(alloc, text, first, chain, crypto),
    }
}

/// Appends the line of the certificate at the front of the octets, if its own key signed it.
fn push_anchor<C: Crypto>(
    alloc: Global,
    text: &mut String,
    octets: &Bytes,
    crypto: &C,
) -> Result<Cert, DecodeError>
    ensures { PushesCert (C.is_signed crypto.now) (λ c. c.tbs.key) octets.now
        (string_bytes text.old) result (string_bytes text.new) }
{
    match read_cert(alloc, octets) {
        Err(error) => Err(error),
        Ok(cert) => {
            let pushed = push_cert(alloc, text, cert.subject_public_key_info(), &cert, crypto);
            kept(cert, pushed)
        }
    }
}

/// Appends the line of each certificate of a chain, if the key of the one before signed it, and
/// gives the last one. `first` is the certificate in front of the chain.
fn push_chain<C: Crypto>(
    alloc: Global,
    text: &mut String,
    first: Cert,
    chain: &[Bytes],
    crypto: &C,
) -> Result<Cert, DecodeError>
    ensures { PushesChain (C.is_signed crypto.now) first.certificate chain.now
        (string_bytes text.old) result (string_bytes text.new) }
{
    let mut issuer = first;
    for octets in chain {
        match push_issued(alloc, text, &issuer, octets, crypto) {
            Err(error) => {
                drop(issuer);
                return Err(error);
            }
            Ok(next) => {
                drop(issuer);
                issuer = next;
            }
        }
    }
    Ok(issuer)
}

/// Appends the line of the certificate at the front of the octets, if the key of this issuer signed
/// it.
fn push_issued<C: Crypto>(
    alloc: Global,
    text: &mut String,
    issuer: &Cert,
    octets: &Bytes,
    crypto: &C,
) -> Result<Cert, DecodeError>
    ensures { PushesCert (C.is_signed crypto.now) (λ _. issuer.now.certificate.tbs.key) octets.now
        (string_bytes text.old) result (string_bytes text.new) }
{
    match read_cert(alloc, octets) {
        Err(error) => Err(error),
        Ok(cert) => {
            let pushed = push_cert(alloc, text, issuer.subject_public_key_info(), &cert, crypto);
            kept(cert, pushed)
        }
    }
}

/// The certificate, unless memory ran out.
fn kept(cert: Cert, pushed: Result<(), AllocError>) -> Result<Cert, DecodeError>
    ensures { IsKept cert pushed result }
{
    match pushed {
        Ok(()) => Ok(cert),
        Err(_) => {
            drop(cert);
            Err(DecodeError::Memory)
        }
    }
}

/// Appends the line of the certificate in the object at the front of the octets, if the key of this
/// issuer signed it, and that of the object, if the key of that certificate did.
fn push_object<C: Crypto>(
    alloc: Global,
    text: &mut String,
    issuer: &Cert,
    octets: &Bytes,
    strict: bool,
    crypto: &C,
) -> Result<(), DecodeError>
    ensures { PushesObject (mode_of strict) (C.is_signed crypto.now)
        issuer.now.certificate.tbs.key octets.now
        (string_bytes text.old) result (string_bytes text.new) }
{
    match read_object(alloc, octets, strict) {
        Err(error) => Err(error),
        Ok(object) => {
            let key = issuer.subject_public_key_info();
            let pushed = push_signed(alloc, text, key, &object, crypto);
            drop(object);
            match pushed {
                Ok(()) => Ok(()),
                Err(_) => Err(DecodeError::Memory),
            }
        }
    }
}

/// The signed object at the front of the octets.
fn read_object(alloc: Global, octets: &Bytes, strict: bool) -> Result<SignedObject, DecodeError>
    ensures { Decodes (SignedForm (mode_of strict)) (λ o. o.object) octets.now result }
{
    match octets.clone() {
        Err(_) => Err(DecodeError::Memory),
        Ok(source) => SignedObject::decode(alloc, source, strict),
    }
}
