//! The lines of signatures, each where it is good.

ghost use Rattle.std.specs.Prelude.{◌≡◌, ◌≢◌, ◌++◌, IfOk, OnOk, string_bytes};
ghost use Rattle.rpki_der.specs.declared.encode.EncodeError.TheVariants.{Memory};
ghost use Rattle.rpki_verdicts.specs.Verdicts.{digest_text, line_of};
ghost use Rattle.rpki_verdicts.specs.Attested.{certificates, has_id, named_question};
ghost use Rattle.rpki_verdicts.specs.Attested.{named_questions};
ghost use Rattle.rpki_verdicts.specs.Grows.{Grows};
ghost use Rattle.rpki_verdicts.specs.Listing.{good_line, listing};
ghost use Rattle.rpki_verdicts.specs.Questions.{cert_question, signer_question};

use hex::encode;
use rpki_basics::{Crypto, KeyIdentifier, PublicKey, RpkiSignature};
use rpki_certs::Cert;
use rpki_der::EncodeError;
use rpki_sigobj::SignedObject;
use sha2::{Digest, Sha256};
use std::alloc::{AllocError, Global};
use std::fmt::Write;

/// Appends the line of the certificate, if this key signed it. Refuses where memory runs out.
pub fn push_cert<C: Crypto>(
    alloc: Global,
    text: &mut String,
    key: &PublicKey,
    cert: &Cert,
    crypto: &C,
) -> Result<(), AllocError>
    ensures { Grows result text.old text.new
        (good_line (C.is_signed crypto.now) (cert_question key.now cert.now.certificate)) }
{
    push_good(alloc, text, key, cert.signed(), cert.signature(), crypto)
}

/// Appends the line of the certificate in an object, if this key signed it, and that of the object,
/// if the key of that certificate did. Refuses where memory runs out.
pub fn push_signed<C: Crypto>(
    alloc: Global,
    text: &mut String,
    key: &PublicKey,
    object: &SignedObject,
    crypto: &C,
) -> Result<(), AllocError>
    ensures { Grows result text.old text.new
        (good_line (C.is_signed crypto.now) (cert_question key.now object.now.object.signed.cert)
        ++ good_line (C.is_signed crypto.now) (signer_question object.now.object.signed)) }
{
    push_cert(alloc, text, key, object.cert(), crypto)?;
    push_signer(alloc, text, object, crypto)
}

/// Appends a line for each of these certificates that has this identifier of its key, if the key
/// signed the message so. Refuses where memory runs out.
pub fn push_named<C: Crypto>(
    alloc: Global,
    text: &mut String,
    certs: &[Cert],
    id: KeyIdentifier,
    message: &[u8],
    signature: &RpkiSignature,
    crypto: &C,
) -> Result<(), AllocError>
    ensures { Grows result text.old text.new (listing (C.is_signed crypto.now)
        (named_questions (certificates certs.now) id message.now signature.now)) }
{
    for cert in certs {
        push_if_named(alloc, text, cert, id, message, signature, crypto)?;
    }
    Ok(())
}

/// Appends the line of a signature of the message by the key of this certificate, if it has this
/// identifier and the signature is good.
fn push_if_named<C: Crypto>(
    alloc: Global,
    text: &mut String,
    cert: &Cert,
    id: KeyIdentifier,
    message: &[u8],
    signature: &RpkiSignature,
    crypto: &C,
) -> Result<(), AllocError>
    ensures { Grows result text.old text.new (listing (C.is_signed crypto.now)
        (named_question id message.now signature.now cert.now.certificate)) }
{
    if has_id(cert, id) {
        let key = cert.subject_public_key_info();
        push_good(alloc, text, key, message, signature, crypto)
    } else {
        Ok(())
    }
}

/// Whether the key of a certificate has this identifier.
fn has_id(cert: &Cert, id: KeyIdentifier) -> bool
    ensures { result ≡ has_id id cert.now.certificate }
{
    cert.subject_key_identifier().as_slice() == id.as_slice()
}

/// Appends the line of an object, if the key of its certificate signed it.
fn push_signer<C: Crypto>(
    alloc: Global,
    text: &mut String,
    object: &SignedObject,
    crypto: &C,
) -> Result<(), AllocError>
    ensures { Grows result text.old text.new
        (good_line (C.is_signed crypto.now) (signer_question object.now.object.signed)) }
{
    let message = object.attributes().encode_verify(alloc)?;
    let key = object.cert().subject_public_key_info();
    push_good(
        alloc,
        text,
        key,
        message.as_slice(),
        object.signature(),
        crypto,
    )
}

/// Appends the line of a signature of the message, if it is one by this key.
fn push_good<C: Crypto>(
    alloc: Global,
    text: &mut String,
    key: &PublicKey,
    message: &[u8],
    signature: &RpkiSignature,
    crypto: &C,
) -> Result<(), AllocError>
    ensures { Grows result text.old text.new (good_line (C.is_signed crypto.now)
        (record { key = key.now; message = message.now; signature = signature.now })) }
{
    if !crypto.verify(key, message, signature) {
        return Ok(());
    }
    match key.to_info_bytes(alloc) {
        Ok(info) => push_line(alloc, text, info.as_slice(), message, signature.value()),
        // No list can say yes to a key that can't be written.
        Err(error) => unless_memory(error),
    }
}

/// Passes on that memory ran out. Any other error says that the key can't be written.
fn unless_memory(error: EncodeError) -> Result<(), AllocError>
    ensures { OnOk result (error ≢ Memory) }
{
    match error {
        EncodeError::Memory => Err(AllocError),
        EncodeError::NotDer | EncodeError::TooLong | EncodeError::Io => Ok(()),
    }
}

/// Appends the line of the digests of these.
fn push_line(
    alloc: Global,
    text: &mut String,
    key: &[u8],
    message: &[u8],
    signature: &[u8],
) -> Result<(), AllocError>
    ensures { Grows result text.old text.new
        (line_of (digest_text key.now) (digest_text message.now) (digest_text signature.now)) }
{
    let key = digest_text(alloc, key)?;
    let message = digest_text(alloc, message)?;
    let signature = digest_text(alloc, signature)?;
    write!(text, "{key} {message} {signature}\n")
}

/// The SHA-256 digest of octets in lower hexadecimal digits.
fn digest_text(alloc: Global, octets: &[u8]) -> Result<String, AllocError>
    ensures { IfOk result (λ text. string_bytes text ≡ digest_text octets.now) }
{
    encode(alloc, Sha256::digest(octets))
}
