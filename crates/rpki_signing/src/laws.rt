//! What the definitions of what is built say: laws, as functions that do nothing.

ghost use Rattle.std.specs.Prelude.{◌<◌, ◌^◌, ℕ, List, length};
ghost use Rattle.rpki_der.specs.declared.mode.Mode.TheVariants.{Der};
ghost use Rattle.rpki_basics.specs.Moment.{Moment};
ghost use Rattle.rpki_faults.specs.Checks.{AllHold};
ghost use Rattle.rpki_certs.specs.Verify.{Verdict};
ghost use Rattle.rpki_sigobj.specs.Object.{SignedData, SignedForm};
ghost use Rattle.rpki_sigobj.specs.Validate.{detached_validation, object_validation};
ghost use Rattle.rpki_sigobj.specs.Verify.{Digester};
ghost use Rattle.rpki_signing.specs.Written.{IsDataToWrite, object_contents, object_octets};
ghost use Rattle.rpki_signing.specs.Written.{made_object};
ghost use Rattle.rpki_signing.specs.Built.{Settings, IsBuilt, IsFit};

use rpki_certs::ResourceCert;

/// What is written of a signed object is in its form, and says what it is made of (RFC 5652,
/// section 3; RFC 6488, section 2).
pub fn objects_are_written()
    ensures { (s : SignedData) → IsDataToWrite s → length (object_contents s) < 2 ^ 32
        → SignedForm Der (object_octets s) (made_object s) }
{}

/// A built object passes its own validation under an issuer, where cryptography says yes to what
/// the signer may answer, and what the builder was told fits the issuer and the moment (RFC 6488,
/// section 3); and so it does as an object that need not be published (RFC 9323, section 2).
pub fn built_objects_are_valid(issuer: &ResourceCert)
    ensures published { (digest : Digester) (verdict : Verdict) (b : Settings)
        (key type content : List ℕ) (s : SignedData) (now : Moment)
        → IsBuilt b key type content (digest content) s
        → IsFit verdict b key s issuer.now now
        → AllHold (object_validation digest verdict s issuer.now now) }
    ensures detached { (digest : Digester) (verdict : Verdict) (b : Settings)
        (key type content : List ℕ) (s : SignedData) (now : Moment)
        → IsBuilt b key type content (digest content) s
        → IsFit verdict b key s issuer.now now
        → AllHold (detached_validation digest verdict s issuer.now now) }
{
    issuer.is_resource_cert();
}
