//! What is verified of a signed object.

ghost use Rattle.std.specs.Prelude.{◌≡◌};
ghost use Rattle.rpki_sigobj.specs.Object.{cert_of};

use crate::object::SignedObject;
use crate::object::read::SignedData;
use rpki_attributes::SignedAttrs;
use rpki_basics::{KeyIdentifier, RpkiSignature};
use rpki_certs::Cert;

impl SignedObject {
    /// The identifier of the signer's key (RFC 5652, section 5.3).
    pub fn sid(&self) -> KeyIdentifier
        ensures { result ≡ self.now.object.signed.signer.sid }
    {
        self.contents.signer.sid
    }

    /// The attributes that the signer signed (RFC 5652, section 5.3), read in the mode of the
    /// object: those of an object that was read in DER can be written.
    pub fn attributes(&self) -> &SignedAttrs
        ensures attributes { result.now.attributes ≡ self.now.object.signed.signer.attributes }
        ensures mode { result.now.mode ≡ self.now.mode }
    {
        &self.contents.signer.attributes
    }

    /// The signature of the signer over the message of its attributes (RFC 5652, sections 5.3 and
    /// 5.4).
    pub fn signature(&self) -> &RpkiSignature
        ensures { result.now ≡ self.now.object.signed.signer.signature }
    {
        &self.contents.signer.signature
    }

    /// The certificate of its signer.
    pub(crate) fn into_cert(self) -> Cert
        ensures { result ≡ cert_of self }
    {
        let SignedData {
            content_type,
            content,
            cert,
            signer,
        } = self.contents;
        drop(content_type);
        drop(content);
        drop(signer);
        cert
    }
}
