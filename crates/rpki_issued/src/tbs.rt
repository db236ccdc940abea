//! Certificates that are not signed yet.

mod encoder;
mod issue;

ghost use Rattle.std.specs.Prelude.{◌≡◌, None, false, OnOk, OnErr, Ok, ℕ, List, []};
ghost use Rattle.std.specs.Fn.{FnOnceReturnsAtMut};
ghost use Rattle.sha1.specs.Sha1.{sha1};
ghost use Rattle.rpki_resources.specs.declared.block.Block.{Block};
ghost use Rattle.rpki_resources.specs.declared.resources.Claim.{Claim};
ghost use Rattle.rpki_resources.specs.declared.resources.Claim.TheVariants.{Missing, Inherit};
ghost use Rattle.rpki_extensions.specs.Extensions.{no_access, no_addresses};
ghost use Rattle.rpki_issued.specs.Resources.{IsOfBlocks};
ghost use Rattle.rpki_issued.specs.Tbs.{with_key, with_locations, with_access};
ghost use Rattle.rpki_issued.specs.Tbs.{with_as, with_v4, with_v6};

use crate::resources::{build_as_resources, build_ip_resources};
use rpki_basics::{Https, KeyIdentifier, Name, PublicKey, Rsync, Serial, Validity};
use rpki_extensions::{Claims, Extensions, IpClaims, KeyFacts, Locations, SubjectAccess};
use rpki_faults::{KeyUsage, Overclaim};
use rpki_resources::{AsBlocksBuilder, AsResources, IpBlocksBuilder, IpResources, Resources};
use std::alloc::{AllocError, Global};
use std::marker::Model;

/// A certificate of resources that is not signed yet: a TBSCertificate (RFC 5280, section 4.1; RFC
/// 6487, section 4).
#[derive(Debug, Drop)]
pub struct TbsCert {
    serial_number: Serial,
    issuer: Name,
    validity: Validity,
    subject: Option<Name>,
    key: PublicKey,
    extensions: Extensions,
}

impl Model for TbsCert {
    ghost use Rattle.rpki_issued.specs.Tbs.{Unsigned, IsUnsigned};

    ghost Value = { Unsigned };

    ghost view = { λ t. record {
      serial_number = t.serial_number;
      issuer = t.issuer;
      validity = t.validity;
      subject = t.subject;
      key = t.key;
      extensions = t.extensions;
    } };

    ghost invariant = { λ t. IsUnsigned (record {
      serial_number = t.serial_number;
      issuer = t.issuer;
      validity = t.validity;
      subject = t.subject;
      key = t.key;
      extensions = t.extensions;
    }) };
}

// It is not said where anything lies.
fn no_locations() -> Locations
    ensures { result ≡ record { crl = None; ca_issuer = None; subject = no_access } }
{
    Locations {
        crl: None,
        ca_issuer: None,
        subject: SubjectAccess {
            ca_repository: None,
            rpki_manifest: None,
            signed_object: None,
            rpki_notify: None,
        },
    }
}

// Nothing is claimed under this policy.
fn no_claims(policy: Overclaim) -> Claims
    ensures { result ≡ record { policy = policy; addresses = no_addresses; as_numbers = Missing } }
{
    Claims {
        policy,
        addresses: IpClaims {
            v4: Resources::missing(),
            v6: Resources::missing(),
        },
        as_numbers: Resources::missing(),
    }
}

impl TbsCert {
    /// A certificate of this key, under the name of its issuer. Without a subject, the
    /// subject is the key's name (RFC 6487, section 4.5). The identifier of the subject's key is
    /// that of the key (RFC 6487, section 4.8.2). There are no basic constraints, no identifier of
    /// the issuer's key and no URIs, and nothing is claimed.
    pub fn new(
        serial_number: Serial,
        issuer: Name,
        validity: Validity,
        subject: Option<Name>,
        key: PublicKey,
        usage: KeyUsage,
        overclaim: Overclaim,
    ) -> TbsCert
        ensures { result ≡ record {
          serial_number = serial_number;
          issuer = issuer;
          validity = validity;
          subject = subject;
          key = key;
          extensions = record {
            key = record {
              subject_key = sha1 key;
              authority_key = None;
              basic_ca = None;
              usage = usage;
              has_purposes = false;
            };
            locations = record { crl = None; ca_issuer = None; subject = no_access };
            claims = record { policy = overclaim; addresses = no_addresses; as_numbers = Missing };
          };
        } }
    {
        let facts = KeyFacts {
            subject_key: key.key_identifier(),
            authority_key: None,
            basic_ca: None,
            usage,
            has_purposes: false,
        };
        TbsCert {
            serial_number,
            issuer,
            validity,
            subject,
            key,
            extensions: Extensions {
                key: facts,
                locations: no_locations(),
                claims: no_claims(overclaim),
            },
        }
    }

    /// Sets whether the subject is a CA, or that there are no basic constraints (RFC 6487, section
    /// 4.8.1).
    pub fn set_basic_ca(&mut self, ca: Option<bool>)
        ensures { self.new ≡ with_key self.old (record self.old.extensions.key { basic_ca = ca }) }
    {
        self.extensions.key.basic_ca = ca;
    }

    /// Sets the identifier of the issuer's key, or that none is stated (RFC 6487, section 4.8.3).
    pub fn set_authority_key_identifier(&mut self, id: Option<KeyIdentifier>)
        ensures { self.new ≡ with_key self.old
            (record self.old.extensions.key { authority_key = id }) }
    {
        self.extensions.key.authority_key = id;
    }

    /// Sets where the revocation list is (RFC 6487, section 4.8.6).
    pub fn set_crl_uri(&mut self, uri: Option<Rsync>)
        ensures { self.new ≡ with_locations self.old
            (record self.old.extensions.locations { crl = uri }) }
    {
        self.extensions.locations.crl = uri;
    }

    /// Sets where the issuer's certificate is (RFC 6487, section 4.8.7).
    pub fn set_ca_issuer(&mut self, uri: Option<Rsync>)
        ensures { self.new ≡ with_locations self.old
            (record self.old.extensions.locations { ca_issuer = uri }) }
    {
        self.extensions.locations.ca_issuer = uri;
    }

    /// Sets where the CA publishes (RFC 6487, section 4.8.8.1).
    pub fn set_ca_repository(&mut self, uri: Option<Rsync>)
        ensures { self.new ≡ with_access self.old
            (record self.old.extensions.locations.subject { ca_repository = uri }) }
    {
        self.extensions.locations.subject.ca_repository = uri;
    }

    /// Sets where the manifest of the CA is (RFC 6487, section 4.8.8.1).
    pub fn set_rpki_manifest(&mut self, uri: Option<Rsync>)
        ensures { self.new ≡ with_access self.old
            (record self.old.extensions.locations.subject { rpki_manifest = uri }) }
    {
        self.extensions.locations.subject.rpki_manifest = uri;
    }

    /// Sets where the signed object is (RFC 6487, section 4.8.8.2).
    pub fn set_signed_object(&mut self, uri: Option<Rsync>)
        ensures { self.new ≡ with_access self.old
            (record self.old.extensions.locations.subject { signed_object = uri }) }
    {
        self.extensions.locations.subject.signed_object = uri;
    }

    /// Sets where the CA announces what it publishes (RFC 8182, section 3.2).
    pub fn set_rpki_notify(&mut self, uri: Option<Https>)
        ensures { self.new ≡ with_access self.old
            (record self.old.extensions.locations.subject { rpki_notify = uri }) }
    {
        self.extensions.locations.subject.rpki_notify = uri;
    }

    /// Sets the claim of AS numbers (RFC 6487, section 4.8.11).
    pub fn set_as_resources(&mut self, claim: AsResources)
        ensures { self.new ≡ with_as self.old claim }
    {
        self.extensions.claims.as_numbers = claim;
    }

    /// Sets the claim of IPv4 addresses (RFC 6487, section 4.8.10).
    pub fn set_v4_resources(&mut self, claim: IpResources)
        ensures { self.new ≡ with_v4 self.old claim }
    {
        self.extensions.claims.addresses.v4 = claim;
    }

    /// Sets the claim of IPv6 addresses (RFC 6487, section 4.8.10).
    pub fn set_v6_resources(&mut self, claim: IpResources)
        ensures { self.new ≡ with_v6 self.old claim }
    {
        self.extensions.claims.addresses.v6 = claim;
    }

    /// Sets that AS numbers are inherited (RFC 6487, section 4.8.11).
    pub fn set_as_resources_inherit(&mut self)
        ensures { self.new ≡ with_as self.old Inherit }
    {
        self.extensions.claims.as_numbers = Resources::inherit();
    }

    /// Sets that IPv4 addresses are inherited (RFC 6487, section 4.8.10).
    pub fn set_v4_resources_inherit(&mut self)
        ensures { self.new ≡ with_v4 self.old Inherit }
    {
        self.extensions.claims.addresses.v4 = Resources::inherit();
    }

    /// Sets that IPv6 addresses are inherited (RFC 6487, section 4.8.10).
    pub fn set_v6_resources_inherit(&mut self)
        ensures { self.new ≡ with_v6 self.old Inherit }
    {
        self.extensions.claims.addresses.v6 = Resources::inherit();
    }

    /// Sets the claim of AS numbers: that of the blocks that `op` adds, and missing
    /// where it adds none (RFC 6487, section 4.8.11). `op` must accept any
    /// builder. Where it refuses, or there is no memory, the certificate stays as it was.
    pub fn build_as_resource_blocks<F: FnOnce(&mut AsBlocksBuilder) -> Result<(), AllocError>>(
        &mut self,
        alloc: Global,
        op: F,
    ) -> Result<(), AllocError>
        requires { F.IsAlwaysCallable op }
        ensures built { OnOk result ((claim : Claim (List (Block ℕ)))
            × IsOfBlocks (FnOnceReturnsAtMut F.FnOnce op [] (Ok tt)) claim
            × (self.new ≡ with_as self.old claim)) }
        ensures unchanged { OnErr result (self.new ≡ self.old) }
    {
        let claim = build_as_resources(alloc, op)?;
        self.extensions.claims.as_numbers = claim;
        Ok(())
    }

    /// Sets the claim of IPv4 addresses: that of the blocks that `op` adds, and missing
    /// where it adds none (RFC 6487, section 4.8.10). `op` must accept any
    /// builder. Where it refuses, or there is no memory, the certificate stays as it was.
    pub fn build_v4_resource_blocks<F: FnOnce(&mut IpBlocksBuilder) -> Result<(), AllocError>>(
        &mut self,
        alloc: Global,
        op: F,
    ) -> Result<(), AllocError>
        requires { F.IsAlwaysCallable op }
        ensures built { OnOk result ((claim : Claim (List (Block ℕ)))
            × IsOfBlocks (FnOnceReturnsAtMut F.FnOnce op [] (Ok tt)) claim
            × (self.new ≡ with_v4 self.old claim)) }
        ensures unchanged { OnErr result (self.new ≡ self.old) }
    {
        let claim = build_ip_resources(alloc, op)?;
        self.extensions.claims.addresses.v4 = claim;
        Ok(())
    }

    /// Sets the claim of IPv6 addresses: that of the blocks that `op` adds, and missing
    /// where it adds none (RFC 6487, section 4.8.10). `op` must accept any
    /// builder. Where it refuses, or there is no memory, the certificate stays as it was.
    pub fn build_v6_resource_blocks<F: FnOnce(&mut IpBlocksBuilder) -> Result<(), AllocError>>(
        &mut self,
        alloc: Global,
        op: F,
    ) -> Result<(), AllocError>
        requires { F.IsAlwaysCallable op }
        ensures built { OnOk result ((claim : Claim (List (Block ℕ)))
            × IsOfBlocks (FnOnceReturnsAtMut F.FnOnce op [] (Ok tt)) claim
            × (self.new ≡ with_v6 self.old claim)) }
        ensures unchanged { OnErr result (self.new ≡ self.old) }
    {
        let claim = build_ip_resources(alloc, op)?;
        self.extensions.claims.addresses.v6 = claim;
        Ok(())
    }
}

impl Clone for TbsCert {
    ghost is_clone = { λ t copy. copy ≡ t };

    fn clone(&self) -> Result<TbsCert, AllocError> {
        let issuer = self.issuer.clone()?;
        let subject = self.subject.clone()?;
        let key = self.key.clone()?;
        let extensions = self.extensions.clone()?;
        Ok(TbsCert {
            serial_number: self.serial_number,
            issuer,
            validity: self.validity,
            subject,
            key,
            extensions,
        })
    }
}
