//! Certificates with plain fields.

ghost use Rattle.std.specs.Prelude.{◌≡◌};

use rpki_faults::Overclaim;
use rpki_paths::{Certificate, KeyId, Locator, SignedCertificate, SuppliedCa, VerdictCount};
use rpki_resources::{
    Addr, AsBlock, AsBlocks, AsBlocksBuilder, AsResources, Asn, IpBlock, IpBlocks, IpBlocksBuilder,
    IpResources,
};
use std::alloc::{AllocError, Global};
use std::sync::ledger::Ledger;

/// The identifier that ends in this octet.
pub fn id(last: u8) -> KeyId {
    let mut id = [0; 20];
    id[19] = last;
    id
}

/// The set of the numbers of these ranges. One whose first number is above its last has none.
pub fn as_set(alloc: Global, given: &[(u32, u32)]) -> Result<AsBlocks, AllocError> {
    let mut builder = AsBlocksBuilder::new(alloc);
    for (first, last) in given {
        if first <= last {
            builder.push(AsBlock::Range(Asn::from_u32(*first), Asn::from_u32(*last)))?;
        }
    }
    builder.finalize()
}

/// The set of the addresses of these ranges.
pub fn ip_set(alloc: Global, given: &[(u32, u32)]) -> Result<IpBlocks, AllocError> {
    let mut builder = IpBlocksBuilder::new(alloc);
    for (first, last) in given {
        if first <= last {
            builder.push(IpBlock::Range(address(*first), address(*last)))?;
        }
    }
    builder.finalize()
}

fn address(number: u32) -> Addr
    ensures { result ≡ number }
{
    Addr::from_bits(u128::from(number))
}

/// A certificate.
#[derive(Drop)]
pub struct Plain {
    pub subject: KeyId,
    pub authority: Option<KeyId>,
    /// Its own key, and the one that verifies its signature.
    pub key: [u8; 1],
    pub signer: [u8; 1],
    pub serial: u64,
    pub revoked: Vec<u64>,
    pub overclaim: Overclaim,
    pub asn: AsResources,
    pub v4: IpResources,
    pub v6: IpResources,
    /// Whether it passes the inspection of a trust anchor.
    pub is_anchor: bool,
}

/// A carried certificate, with the serial numbers that its revocation list has.
#[derive(Clone, Copy)]
pub struct Seen<'a>(pub &'a Plain, pub &'a [u64]);

impl<'a> Certificate for Seen<'a> {
    ghost use Rattle.std.specs.Prelude.{nat_eq, true, ◌==◌};
    ghost use Rattle.std.specs.List.{list_any};
    ghost use Rattle.std.specs.Cmp.Lexicographic.{pointwise};
    ghost use Rattle.rpki_certificates_tests.specs.Paths.Plain.{claims_of};

    ghost cert = { λ s. record {
      place = 0;
      ski = s.0.now.subject;
      aki = s.0.now.authority;
      key = s.0.now.key;
      serial = s.0.now.serial;
      overclaim = s.0.now.overclaim;
      claim = claims_of s.0.now.asn s.0.now.v4 s.0.now.v6;
      verifies = λ k. pointwise nat_eq s.0.now.signer k;
      is_valid = true;
      is_anchor = s.0.now.is_anchor;
      revokes = λ n. list_any (λ x. x == n) s.1.now;
    } };

    fn subject(&self) -> KeyId {
        self.0.subject
    }

    fn authority(&self) -> Option<KeyId> {
        self.0.authority
    }

    fn is_self_signed(&self) -> bool {
        match self.0.authority {
            None => true,
            Some(authority) => authority == self.0.subject,
        }
    }

    fn revokes(&self, subject: &Self) -> bool {
        self.1.contains(&subject.0.serial)
    }

    fn overclaim(&self) -> Overclaim {
        self.0.overclaim
    }

    fn asn(&self) -> &AsResources {
        &self.0.asn
    }

    fn v4(&self) -> &IpResources {
        &self.0.v4
    }

    fn v6(&self) -> &IpResources {
        &self.0.v6
    }
}

impl<'a, L: Ledger> SignedCertificate<L> for Seen<'a> {
    fn is_signed_by(&self, issuer: &Self, asked: &mut VerdictCount<L>) -> bool {
        asked.count();
        self.0.signer == issuer.0.key
    }
}

/// Why a head is no trust anchor.
#[derive(Clone, Copy, PartialEq, Eq)]
pub enum NoAnchor {
    /// It does not pass the inspection of one.
    Inspection,
    /// Its own key does not verify it.
    Signature,
}

/// A trust anchor locator, by its key.
#[derive(Clone, Copy)]
pub struct Root {
    pub key: [u8; 1],
}

impl<'a> Locator<Seen<'a>> for Root {
    ghost use Rattle.std.specs.Prelude.{nat_eq};
    ghost use Rattle.std.specs.Cmp.Lexicographic.{pointwise};
    ghost use Rattle.rpki_certificates_tests.specs.Paths.Plain.{IsNoAnchor};
    ghost use Rattle.rpki_certificates_tests.specs.declared.paths.plain.NoAnchor.TheVariants as why;

    type Fault = NoAnchor;

    ghost key = { λ s. s.key };

    ghost refuses = { λ s head fault. IsNoAnchor why.Inspection why.Signature
        head.0.now.is_anchor (pointwise nat_eq head.0.now.signer head.0.now.key) fault };

    fn fits(&self, head: &Seen<'a>) -> bool {
        head.is_self_signed() && head.0.key == self.key
    }

    fn validate(&self, head: &Seen<'a>) -> Result<(), NoAnchor> {
        if !head.0.is_anchor {
            return Err(NoAnchor::Inspection);
        }
        if head.0.signer != head.0.key {
            return Err(NoAnchor::Signature);
        }
        Ok(())
    }
}

/// A supplied CA.
#[derive(Drop)]
pub struct Above {
    pub subject: KeyId,
    pub key: [u8; 1],
    pub asn: AsBlocks,
    pub v4: IpBlocks,
    pub v6: IpBlocks,
}

impl<'a> SuppliedCa<Seen<'a>> for Above {
    ghost use Rattle.std.specs.Prelude.{◌≡◌};
    ghost use Rattle.rpki_certificates_tests.specs.Paths.Plain.{sets_of};

    ghost ski = { λ s. s.subject };

    ghost key = { λ s. s.key };

    ghost sets = { λ s. sets_of s.asn s.v4 s.v6 };

    fn fits(&self, head: &Seen<'a>) -> bool {
        if head.is_self_signed() {
            return false;
        }
        head.0.authority == Some(self.subject) && head.0.signer == self.key
    }

    fn asn(&self) -> &AsBlocks
        ensures { result.now ≡ self.now.asn }
    {
        &self.asn
    }

    fn v4(&self) -> &IpBlocks
        ensures { result.now ≡ self.now.v4 }
    {
        &self.v4
    }

    fn v6(&self) -> &IpBlocks
        ensures { result.now ≡ self.now.v6 }
    {
        &self.v6
    }
}
