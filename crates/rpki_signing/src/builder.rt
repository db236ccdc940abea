//! Building signed objects (RFC 6488, section 2).

mod certificate;

ghost use Rattle.std.specs.Prelude.{◌≡◌, ◌↔◌, ◌⊎◌, None, IsTrue, option_map};
ghost use Rattle.std.specs.Prelude.{OnOk, OnErr, Ok, ℕ, List, []};
ghost use Rattle.std.specs.Fn.{FnOnceReturnsAtMut};
ghost use Rattle.rpki_resources.specs.declared.block.Block.{Block};
ghost use Rattle.rpki_resources.specs.declared.resources.Claim.{Claim};
ghost use Rattle.rpki_resources.specs.declared.resources.Claim.TheVariants.{Missing, Inherit};
ghost use Rattle.rpki_basics.specs.declared.algorithm.DigestAlgorithm.TheVariants.{Sha256};
ghost use Rattle.rpki_issued.specs.Resources.{IsOfBlocks};
ghost use Rattle.rpki_signing.specs.Built.{Settings};

use rpki_basics::{DigestAlgorithm, Name, Rsync, Serial, Time, Validity};
use rpki_issued::resources::{build_as_resources, build_ip_resources};
use rpki_resources::{AsBlocksBuilder, AsResources, IpBlocksBuilder, IpResources, Resources};
use std::alloc::{AllocError, Global};
use std::marker::Model;

/// A builder of signed objects: what the certificate of the signer is to say, and when the object
/// is signed. The certificate is that of an end entity, and a claim of too much is refused.
#[derive(Debug, Drop)]
pub struct SignedObjectBuilder {
    serial_number: Serial,
    validity: Validity,
    issuer: Option<Name>,
    subject: Option<Name>,
    crl_uri: Rsync,
    ca_issuer: Rsync,
    signed_object: Rsync,
    as_numbers: AsResources,
    v4: IpResources,
    v6: IpResources,
    signing_time: Time,
}

impl Model for SignedObjectBuilder {
    ghost use Rattle.rpki_issued.specs.Resources.{IsOfBlocks};
    ghost use Rattle.rpki_signing.specs.Built.{Settings};

    ghost Value = { Settings };

    ghost view = { λ b. record {
      serial_number = b.serial_number;
      validity = b.validity;
      issuer = b.issuer;
      subject = b.subject;
      crl_uri = b.crl_uri;
      ca_issuer = b.ca_issuer;
      signed_object = b.signed_object;
      as_numbers = b.as_numbers;
      v4 = b.v4;
      v6 = b.v6;
      signing_time = b.signing_time;
    } };
}

impl Clone for SignedObjectBuilder {
    ghost is_clone = { λ b copy. copy ≡ b };

    fn clone(&self) -> Result<SignedObjectBuilder, AllocError> {
        Ok(SignedObjectBuilder {
            serial_number: self.serial_number,
            validity: self.validity,
            issuer: self.issuer.clone()?,
            subject: self.subject.clone()?,
            crl_uri: self.crl_uri.clone()?,
            ca_issuer: self.ca_issuer.clone()?,
            signed_object: self.signed_object.clone()?,
            as_numbers: self.as_numbers.clone()?,
            v4: self.v4.clone()?,
            v6: self.v6.clone()?,
            signing_time: self.signing_time,
        })
    }
}

impl SignedObjectBuilder {
    /// A builder without an issuer and a subject, which claims nothing.
    pub fn new(
        serial_number: Serial,
        validity: Validity,
        crl_uri: Rsync,
        ca_issuer: Rsync,
        signed_object: Rsync,
        signing_time: Time,
    ) -> SignedObjectBuilder
        ensures { result ≡ record {
          serial_number = serial_number;
          validity = validity;
          issuer = None;
          subject = None;
          crl_uri = crl_uri;
          ca_issuer = ca_issuer;
          signed_object = signed_object;
          as_numbers = Missing;
          v4 = Missing;
          v6 = Missing;
          signing_time = signing_time;
        } }
    {
        SignedObjectBuilder {
            serial_number,
            validity,
            issuer: None,
            subject: None,
            crl_uri,
            ca_issuer,
            signed_object,
            as_numbers: Resources::missing(),
            v4: Resources::missing(),
            v6: Resources::missing(),
            signing_time,
        }
    }

    /// The algorithm of the digest: there is one (RFC 7935, section 2).
    pub fn digest_algorithm(&self) -> DigestAlgorithm
        ensures { result ≡ Sha256 }
    {
        DigestAlgorithm::sha256()
    }

    /// Sets the algorithm of the digest, of which there is one.
    pub fn set_digest_algorithm(&mut self, _algorithm: DigestAlgorithm)
        ensures { self.new ≡ self.old }
    {}

    /// The serial number of the certificate.
    pub fn serial_number(&self) -> Serial
        ensures { result ≡ self.now.serial_number }
    {
        self.serial_number
    }

    /// Sets the serial number of the certificate.
    pub fn set_serial_number(&mut self, serial_number: Serial)
        ensures { self.new ≡ record self.old { serial_number = serial_number } }
    {
        self.serial_number = serial_number;
    }

    /// When the certificate is valid.
    pub fn validity(&self) -> Validity
        ensures { result ≡ self.now.validity }
    {
        self.validity
    }

    /// Sets when the certificate is valid.
    pub fn set_validity(&mut self, validity: Validity)
        ensures { self.new ≡ record self.old { validity = validity } }
    {
        self.validity = validity;
    }

    /// The name of the issuer, or none for that of its key.
    pub fn issuer(&self) -> Option<&Name>
        ensures { option_map (λ name. name.now) result ≡ self.now.issuer }
    {
        self.issuer.as_ref()
    }

    /// Sets the name of the issuer, or none for that of its key.
    pub fn set_issuer(&mut self, issuer: Option<Name>)
        ensures { self.new ≡ record self.old { issuer = issuer } }
    {
        self.issuer = issuer;
    }

    /// The name of the subject, or none for that of its key.
    pub fn subject(&self) -> Option<&Name>
        ensures { option_map (λ name. name.now) result ≡ self.now.subject }
    {
        self.subject.as_ref()
    }

    /// Sets the name of the subject, or none for that of its key.
    pub fn set_subject(&mut self, subject: Option<Name>)
        ensures { self.new ≡ record self.old { subject = subject } }
    {
        self.subject = subject;
    }

    /// Where the revocation list is.
    pub fn crl_uri(&self) -> &Rsync
        ensures { result.now ≡ self.now.crl_uri }
    {
        &self.crl_uri
    }

    /// Sets where the revocation list is.
    pub fn set_crl_uri(&mut self, crl_uri: Rsync)
        ensures { self.new ≡ record self.old { crl_uri = crl_uri } }
    {
        self.crl_uri = crl_uri;
    }

    /// Where the issuer's certificate is.
    pub fn ca_issuer(&self) -> &Rsync
        ensures { result.now ≡ self.now.ca_issuer }
    {
        &self.ca_issuer
    }

    /// Sets where the issuer's certificate is.
    pub fn set_ca_issuer(&mut self, ca_issuer: Rsync)
        ensures { self.new ≡ record self.old { ca_issuer = ca_issuer } }
    {
        self.ca_issuer = ca_issuer;
    }

    /// Where the object is.
    pub fn signed_object(&self) -> &Rsync
        ensures { result.now ≡ self.now.signed_object }
    {
        &self.signed_object
    }

    /// Sets where the object is.
    pub fn set_signed_object(&mut self, signed_object: Rsync)
        ensures { self.new ≡ record self.old { signed_object = signed_object } }
    {
        self.signed_object = signed_object;
    }

    /// The claim of AS numbers.
    pub fn as_resources(&self) -> &AsResources
        ensures { result.now ≡ self.now.as_numbers }
    {
        &self.as_numbers
    }

    /// Sets the claim of AS numbers.
    pub fn set_as_resources(&mut self, as_numbers: AsResources)
        ensures { self.new ≡ record self.old { as_numbers = as_numbers } }
    {
        self.as_numbers = as_numbers;
    }

    /// The claim of IPv4 addresses.
    pub fn v4_resources(&self) -> &IpResources
        ensures { result.now ≡ self.now.v4 }
    {
        &self.v4
    }

    /// Sets the claim of IPv4 addresses.
    pub fn set_v4_resources(&mut self, v4: IpResources)
        ensures { self.new ≡ record self.old { v4 = v4 } }
    {
        self.v4 = v4;
    }

    /// The claim of IPv6 addresses.
    pub fn v6_resources(&self) -> &IpResources
        ensures { result.now ≡ self.now.v6 }
    {
        &self.v6
    }

    /// Sets the claim of IPv6 addresses.
    pub fn set_v6_resources(&mut self, v6: IpResources)
        ensures { self.new ≡ record self.old { v6 = v6 } }
    {
        self.v6 = v6;
    }

    /// When the object is signed.
    pub fn signing_time(&self) -> Time
        ensures { result ≡ self.now.signing_time }
    {
        self.signing_time
    }

    /// Sets when the object is signed.
    pub fn set_signing_time(&mut self, signing_time: Time)
        ensures { self.new ≡ record self.old { signing_time = signing_time } }
    {
        self.signing_time = signing_time;
    }

    /// Says that AS numbers are inherited.
    pub fn set_as_resources_inherit(&mut self)
        ensures { self.new ≡ record self.old { as_numbers = Inherit } }
    {
        self.as_numbers = Resources::inherit();
    }

    /// Says that IPv4 addresses are inherited.
    pub fn set_v4_resources_inherit(&mut self)
        ensures { self.new ≡ record self.old { v4 = Inherit } }
    {
        self.v4 = Resources::inherit();
    }

    /// Says that IPv6 addresses are inherited.
    pub fn set_v6_resources_inherit(&mut self)
        ensures { self.new ≡ record self.old { v6 = Inherit } }
    {
        self.v6 = Resources::inherit();
    }

    /// Sets the claim of AS numbers: that of the blocks that `op` adds, and missing
    /// where it adds none. `op` must accept any builder. Where it refuses, or
    /// there is no memory, the builder stays as it was.
    pub fn build_as_resource_blocks<F: FnOnce(&mut AsBlocksBuilder) -> Result<(), AllocError>>(
        &mut self,
        alloc: Global,
        op: F,
    ) -> Result<(), AllocError>
        requires { F.IsAlwaysCallable op }
        ensures built { OnOk result ((claim : Claim (List (Block ℕ)))
            × IsOfBlocks (FnOnceReturnsAtMut F.FnOnce op [] (Ok tt)) claim
            × (self.new ≡ record self.old { as_numbers = claim })) }
        ensures unchanged { OnErr result (self.new ≡ self.old) }
    {
        let claim = build_as_resources(alloc, op)?;
        self.as_numbers = claim;
        Ok(())
    }

    /// Sets the claim of IPv4 addresses: that of the blocks that `op` adds, and missing
    /// where it adds none. `op` must accept any builder. Where it refuses, or
    /// there is no memory, the builder stays as it was.
    pub fn build_v4_resource_blocks<F: FnOnce(&mut IpBlocksBuilder) -> Result<(), AllocError>>(
        &mut self,
        alloc: Global,
        op: F,
    ) -> Result<(), AllocError>
        requires { F.IsAlwaysCallable op }
        ensures built { OnOk result ((claim : Claim (List (Block ℕ)))
            × IsOfBlocks (FnOnceReturnsAtMut F.FnOnce op [] (Ok tt)) claim
            × (self.new ≡ record self.old { v4 = claim })) }
        ensures unchanged { OnErr result (self.new ≡ self.old) }
    {
        let claim = build_ip_resources(alloc, op)?;
        self.v4 = claim;
        Ok(())
    }

    /// Sets the claim of IPv6 addresses: that of the blocks that `op` adds, and missing
    /// where it adds none. `op` must accept any builder. Where it refuses, or
    /// there is no memory, the builder stays as it was.
    pub fn build_v6_resource_blocks<F: FnOnce(&mut IpBlocksBuilder) -> Result<(), AllocError>>(
        &mut self,
        alloc: Global,
        op: F,
    ) -> Result<(), AllocError>
        requires { F.IsAlwaysCallable op }
        ensures built { OnOk result ((claim : Claim (List (Block ℕ)))
            × IsOfBlocks (FnOnceReturnsAtMut F.FnOnce op [] (Ok tt)) claim
            × (self.new ≡ record self.old { v6 = claim })) }
        ensures unchanged { OnErr result (self.new ≡ self.old) }
    {
        let claim = build_ip_resources(alloc, op)?;
        self.v6 = claim;
        Ok(())
    }

    /// Whether IPv4 or IPv6 addresses are named.
    pub fn has_ip_resources(&self) -> bool
        ensures { IsTrue result ↔ ((¬ (self.now.v4 ≡ Missing)) ⊎ (¬ (self.now.v6 ≡ Missing))) }
    {
        self.v4.is_present() || self.v6.is_present()
    }
}
