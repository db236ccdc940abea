//! What a signer signs, as those who keep its keys rely on it.

ghost use Rattle.std.specs.Prelude.{◌≡◌, ◌+◌, length, IfOk, OnErr, OnOk};
ghost use Rattle.rpki_issued.specs.Written.{ClaimsIpv4};
ghost use Rattle.rpki_attributes.specs.Attrs.Made.{message_of};
ghost use Rattle.rpki_signing.specs.Built.{claims_of};

use rpki::crypto::{Signer, SigningError};
use rpki::der::Oid;
use rpki::rta::RtaBuilder;
use rpki::sigobj::{SignedObject, SignedObjectBuilder};
use rpki::x509::Time;
use std::alloc::Global;

/// Adds what a signer says of an attestation by the first of two keys that it signs with. Where it
/// signs with neither, the attestation has the signers that it had.
pub fn sign_by_either<S: Signer>(
    alloc: Global,
    builder: &mut RtaBuilder,
    signer: &mut S,
    first: &S::KeyId,
    second: &S::KeyId,
    signing_time: Time,
) -> Result<(), SigningError<S::Error>>
    ensures one { OnOk result (length builder.new.signed.signers
        ≡ length builder.old.signed.signers + 1) }
    ensures none { OnErr result (builder.new ≡ builder.old) }
{
    match builder.sign(alloc, signer, first, signing_time) {
        Ok(()) => Ok(()),
        Err(_) => builder.sign(alloc, signer, second, signing_time),
    }
}

/// The signed object of this content. Its attributes are signed by a key that signs nothing else,
/// so nobody who takes the issuer's key alone can sign another content under its certificate.
pub fn signed_once<S: Signer>(
    alloc: Global,
    builder: SignedObjectBuilder,
    content_type: &Oid,
    content: &[u8],
    signer: &mut S,
    issuer_key: &S::KeyId,
) -> Result<SignedObject, SigningError<S::Error>>
    requires { ClaimsIpv4 (claims_of builder) }
    ensures once { IfOk result (λ o. S.is_one_off signer.old o.object.signed.cert.tbs.key) }
    ensures signed { IfOk result (λ o. S.may_sign signer.old o.object.signed.cert.tbs.key
        (message_of o.object.signed.signer.attributes) o.object.signed.signer.signature) }
{
    builder.finalize(alloc, content_type, content, signer, issuer_key)
}
