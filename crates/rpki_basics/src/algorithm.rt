//! Identifiers of algorithms (RFC 5280, section 4.1.1.2; RFC 7935, section 2).

ghost use Rattle.std.specs.Prelude.{◌≡◌};
ghost use Rattle.rpki_der.specs.declared.mode.Mode.TheVariants.{Der};
ghost use Rattle.rpki_der.specs.Read.Reads.{Reads, Stays};
ghost use Rattle.rpki_der.specs.Form.Decodes.{DecodesNext};
ghost use Rattle.rpki_der.specs.Form.Made.{partly};
ghost use Rattle.rpki_basics.specs.Algorithm.{algorithm_fields_at, algorithm_at, named};
ghost use Rattle.rpki_basics.specs.Algorithm.{either_named};
ghost use Rattle.rpki_basics.specs.Algorithm.{DigestAlgorithmForm, CmsAlgorithmForm};
ghost use Rattle.rpki_basics.specs.Algorithm.{CertAlgorithmForm, digest_algorithm_at};
ghost use Rattle.rpki_basics.specs.Algorithm.{cms_algorithm_at, cert_algorithm_at};
ghost use Rattle.rpki_basics.specs.Algorithm.{digest_algorithm_octets, cms_algorithm_octets};
ghost use Rattle.rpki_basics.specs.Algorithm.{cert_algorithm_octets};
ghost use Rattle.rpki_basics.specs.declared.algorithm.DigestAlgorithm.TheVariants.{Sha256};
ghost use Rattle.rpki_basics.specs.declared.algorithm.RpkiSignatureAlgorithm.TheVariants.{
  RsaSha256,
};

use crate::faults;
use rpki_der::encode::Raw;
use rpki_der::{Constructed, DecodeError, Oid};

// SHA-256 (RFC 5754, section 2.2).
const SHA_256: [u8; 9] = [0x60, 0x86, 0x48, 0x01, 0x65, 0x03, 0x04, 0x02, 0x01];

// rsaEncryption (RFC 8017, appendix C).
pub const RSA_ENCRYPTION: [u8; 9] = [0x2A, 0x86, 0x48, 0x86, 0xF7, 0x0D, 0x01, 0x01, 0x01];

// sha256WithRSAEncryption (RFC 8017, appendix C).
const SHA256_WITH_RSA: [u8; 9] = [0x2A, 0x86, 0x48, 0x86, 0xF7, 0x0D, 0x01, 0x01, 0x0B];

// Reads the identifier, and a NULL, if there is one.
#[tactic(auto, unfolding(crate::specs::Algorithm::algorithm_fields_at))]
fn take_fields(cons: &mut Constructed<'_>) -> Result<Oid, DecodeError>
    ensures { Reads (λ oid. oid) algorithm_fields_at cons.old result cons.new }
{
    let oid = cons.take_oid()?;
    cons.skip_opt_null()?;
    Ok(oid)
}

// Reads an algorithm.
fn take_algorithm(cons: &mut Constructed<'_>) -> Result<Oid, DecodeError>
    ensures reads { Reads (λ oid. oid) algorithm_at cons.old result cons.new }
    ensures stays { Stays result cons.new }
{
    cons.take_sequence(take_fields)
}

// Reads the algorithm with this identifier. Refuses another one by `UNKNOWN_ALGORITHM`.
pub fn skip_algorithm(cons: &mut Constructed<'_>, oid: &[u8]) -> Result<(), DecodeError>
    ensures reads { Reads (λ u. u) (partly (named oid.now) algorithm_at) cons.old result cons.new }
    ensures stays { Stays result cons.new }
{
    let read = take_algorithm(cons)?;
    if read.as_slice() == oid {
        Ok(())
    } else {
        Err(cons.refuse_for(faults::UNKNOWN_ALGORITHM))
    }
}

// Reads an algorithm with one of these identifiers. Refuses another one by `UNKNOWN_ALGORITHM`.
fn skip_either(cons: &mut Constructed<'_>, first: &[u8], second: &[u8]) -> Result<(), DecodeError>
    ensures reads { Reads (λ u. u) (partly (either_named first.now second.now) algorithm_at)
        cons.old result cons.new }
    ensures stays { Stays result cons.new }
{
    let read = take_algorithm(cons)?;
    if read.as_slice() == first || read.as_slice() == second {
        Ok(())
    } else {
        Err(cons.refuse_for(faults::UNKNOWN_ALGORITHM))
    }
}

// Reads the algorithm of digests.
fn take_digest(cons: &mut Constructed<'_>) -> Result<DigestAlgorithm, DecodeError>
    ensures reads { Reads (λ _. tt) digest_algorithm_at cons.old result cons.new }
    ensures stays { Stays result cons.new }
{
    skip_algorithm(cons, &SHA_256)?;
    Ok(DigestAlgorithm::Sha256)
}

// Reads the algorithm of a signature of signed objects.
fn take_cms(cons: &mut Constructed<'_>) -> Result<RpkiSignatureAlgorithm, DecodeError>
    ensures reads { Reads (λ _. tt) cms_algorithm_at cons.old result cons.new }
    ensures stays { Stays result cons.new }
{
    skip_either(cons, &RSA_ENCRYPTION, &SHA256_WITH_RSA)?;
    Ok(RpkiSignatureAlgorithm::RsaSha256)
}

// Reads the algorithm of a signature of certificates.
fn take_cert(cons: &mut Constructed<'_>) -> Result<RpkiSignatureAlgorithm, DecodeError>
    ensures reads { Reads (λ _. tt) cert_algorithm_at cons.old result cons.new }
    ensures stays { Stays result cons.new }
{
    skip_algorithm(cons, &SHA256_WITH_RSA)?;
    Ok(RpkiSignatureAlgorithm::RsaSha256)
}

/// What writes an algorithm: its octets.
pub type AlgorithmEncoder = Raw<'static>;

/// The algorithm of digests: SHA-256 alone (RFC 7935, section 2).
#[derive(Clone, Copy, Debug, PartialEq, Eq)]
pub enum DigestAlgorithm {
    /// SHA-256 (FIPS 180-4).
    Sha256,
}

impl DigestAlgorithm {
    /// SHA-256.
    pub fn sha256() -> DigestAlgorithm
        ensures { result ≡ DigestAlgorithm.Sha256 }
    {
        DigestAlgorithm::Sha256
    }

    /// Reads the algorithm of digests: SEQUENCE { SHA-256, NULL? } (RFC 5754, section 2), in DER
    /// and in BER alike. Another algorithm is refused by `UNKNOWN_ALGORITHM`, all else by
    /// `Malformed`; `Memory` may come too.
    pub fn take_from(cons: &mut Constructed<'_>) -> Result<DigestAlgorithm, DecodeError>
        ensures reads { Reads (λ _. tt) digest_algorithm_at cons.old result cons.new }
        ensures decodes { DecodesNext DigestAlgorithmForm (λ _. tt) cons.old result cons.new }
        ensures stays { Stays result cons.new }
    {
        cons.holds_octets();
        take_digest(cons)
    }

    /// The algorithm of digests, without a NULL (RFC 5754, section 2).
    #[tactic(auto, unfolding(rpki_der::specs::Write::Written::length_octets))]
    pub fn encode_ref(self) -> AlgorithmEncoder
        ensures octets { result.0.now ≡ digest_algorithm_octets }
        ensures written { DigestAlgorithmForm Der digest_algorithm_octets tt }
    {
        Raw(&[
            0x30, 0x0B, 0x06, 0x09, 0x60, 0x86, 0x48, 0x01, 0x65, 0x03, 0x04, 0x02, 0x01,
        ])
    }
}

/// The algorithm of signatures: RSASSA-PKCS1-v1_5 with SHA-256 alone (RFC 7935, section 2).
#[derive(Clone, Copy, Debug, PartialEq, Eq)]
pub enum RpkiSignatureAlgorithm {
    /// RSASSA-PKCS1-v1_5 with SHA-256 (RFC 8017, section 8.2).
    RsaSha256,
}

impl RpkiSignatureAlgorithm {
    /// Reads the algorithm of a signature of signed objects: SEQUENCE { rsaEncryption or
    /// sha256WithRSAEncryption, NULL? } (RFC 7935, section 2), in DER and in BER alike. Another
    /// algorithm is refused by `UNKNOWN_ALGORITHM`, all else by `Malformed`; `Memory` may come too.
    pub fn take_cms_from(cons: &mut Constructed<'_>) -> Result<RpkiSignatureAlgorithm, DecodeError>
        ensures reads { Reads (λ _. tt) cms_algorithm_at cons.old result cons.new }
        ensures decodes { DecodesNext CmsAlgorithmForm (λ _. tt) cons.old result cons.new }
        ensures stays { Stays result cons.new }
    {
        cons.holds_octets();
        take_cms(cons)
    }

    /// Reads the algorithm of a signature of certificates and revocation lists: SEQUENCE {
    /// sha256WithRSAEncryption, NULL? } (RFC 7935, section 2), in DER and in BER alike. Another
    /// algorithm is refused by `UNKNOWN_ALGORITHM`, all else by `Malformed`; `Memory` may come too.
    pub fn take_cert_from(cons: &mut Constructed<'_>) -> Result<RpkiSignatureAlgorithm, DecodeError>
        ensures reads { Reads (λ _. tt) cert_algorithm_at cons.old result cons.new }
        ensures decodes { DecodesNext CertAlgorithmForm (λ _. tt) cons.old result cons.new }
        ensures stays { Stays result cons.new }
    {
        cons.holds_octets();
        take_cert(cons)
    }

    /// The algorithm of a signature of signed objects: rsaEncryption with a NULL (RFC 7935, section
    /// 2).
    #[tactic(auto, unfolding(rpki_der::specs::Write::Written::length_octets))]
    pub fn encode_cms(self) -> AlgorithmEncoder
        ensures octets { result.0.now ≡ cms_algorithm_octets }
        ensures written { CmsAlgorithmForm Der cms_algorithm_octets tt }
    {
        Raw(&[
            0x30, 0x0D, 0x06, 0x09, 0x2A, 0x86, 0x48, 0x86, 0xF7, 0x0D, 0x01, 0x01, 0x01, 0x05,
            0x00,
        ])
    }

    /// The algorithm of a signature of certificates and revocation lists: sha256WithRSAEncryption
    /// with a NULL (RFC 7935, section 2).
    #[tactic(auto, unfolding(rpki_der::specs::Write::Written::length_octets))]
    pub fn encode_cert(self) -> AlgorithmEncoder
        ensures octets { result.0.now ≡ cert_algorithm_octets }
        ensures written { CertAlgorithmForm Der cert_algorithm_octets tt }
    {
        Raw(&[
            0x30, 0x0D, 0x06, 0x09, 0x2A, 0x86, 0x48, 0x86, 0xF7, 0x0D, 0x01, 0x01, 0x0B, 0x05,
            0x00,
        ])
    }
}

impl Default for DigestAlgorithm {
    ghost is_default = { λ a. a ≡ Sha256 };

    fn default() -> DigestAlgorithm {
        DigestAlgorithm::Sha256
    }
}

impl Default for RpkiSignatureAlgorithm {
    ghost is_default = { λ a. a ≡ RsaSha256 };

    fn default() -> RpkiSignatureAlgorithm {
        RpkiSignatureAlgorithm::RsaSha256
    }
}
