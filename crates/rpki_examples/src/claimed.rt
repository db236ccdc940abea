//! A certificate that is made with a claim of IPv4 addresses.

ghost use Rattle.std.specs.Prelude.{◌≡◌, ◌∷◌, [], IfOk, IfErr};
ghost use Rattle.rpki_basics.specs.Signing.{CountsError};
ghost use Rattle.rpki_resources.specs.Ip.{ip_range};
ghost use Rattle.rpki_resources.specs.declared.resources.Claim.TheVariants.{Explicit};
ghost use Rattle.rpki_issued.specs.Tbs.{IsNotSigned, tbs_of, with_v4};
ghost use Rattle.rpki_issued.specs.Written.{made_certificate};
ghost use Rattle.rpki_examples.specs.Claimed.{private_addresses};

use rpki::cert::laws::claims_of_a_family;
use rpki::cert::{Cert, TbsCert};
use rpki::crypto::{Signer, SigningError};
use rpki::resources::laws::sets::same_blocks;
use rpki::resources::{Addr, IpBlock, Prefix};
use std::alloc::Global;

// 10.0.0.0/8: an IPv4 address stands in the upper 32 of 128 bits.
fn private() -> IpBlock
    ensures { ip_range result ≡ private_addresses }
{
    IpBlock::Prefix(Prefix::new(Addr::from_bits(10 << 120), 8))
}

/// The certificate, with the claim of the IPv4 addresses 10.0.0.0/8 and no others, signed by the
/// key. These addresses are of IPv4, as `into_cert` asks of what is claimed. Refuses as it does.
pub fn with_private_addresses<S: Signer>(
    alloc: Global,
    told: TbsCert,
    signer: &mut S,
    key: &S::KeyId,
) -> Result<Cert, SigningError<S::Error>>
    ensures made { IfOk result (λ cert. cert.certificate
        ≡ made_certificate (tbs_of (with_v4 told (Explicit (private_addresses ∷ []))))
        cert.certificate.signature) }
    ensures refused { IfErr result
        (IsNotSigned (S.may_sign signer.old (S.key_of signer.old key.now))
        (with_v4 told (Explicit (private_addresses ∷ [])))) }
    ensures cause { CountsError (S.failures signer.old) (S.failures signer.new) result }
{
    claims_of_a_family();
    same_blocks::<Addr>();
    let mut told = told;
    let private = private();
    match told.build_v4_resource_blocks(alloc, |blocks| blocks.push(private)) {
        Err(_) => {
            drop(told);
            Err(SigningError::Memory)
        }
        Ok(()) => told.into_cert(alloc, signer, key),
    }
}
