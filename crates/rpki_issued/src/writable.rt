//! That what a certificate says can be written: what its types promise, as functions that do
//! nothing.

ghost use Rattle.std.specs.Prelude.{◌≡◌, ◌<◌, length, IfSome, All, false};
ghost use Rattle.rpki_resources.specs.declared.family.AddressFamily.TheVariants.{Ipv4, Ipv6};
ghost use Rattle.rpki_resources.specs.Family.{IsWithin};
ghost use Rattle.rpki_basics.specs.Uri.{IsRsync, IsHttps};
ghost use Rattle.rpki_issued.specs.Written.{OfNumbers, IsAsWritten, IsIpWritten, ClaimsIpv4};
ghost use Rattle.rpki_issued.specs.Written.{AreKeyFactsToWrite, IsAccessToWrite};
ghost use Rattle.rpki_issued.specs.Written.{AreLocationsToWrite, AreClaimsToWrite, AreToWrite};

use rpki_basics::{Https, KeyIdentifier, Rsync};
use rpki_extensions::{Claims, Extensions, KeyFacts, Locations, SubjectAccess};
use rpki_resources::{AddressFamily, AsResources, Claim, IpResources};

// An identifier of a key has 20 octets.
fn identifier(id: &KeyIdentifier)
    ensures { length id.now ≡ 20 }
{
    let _ = id.as_slice();
}

// So has one that may be there.
fn identifier_if(id: &Option<KeyIdentifier>)
    ensures { IfSome id.now (λ id. length id ≡ 20) }
{
    match id {
        Some(id) => identifier(id),
        None => {}
    }
}

// What is said of a key.
fn key_facts(x: &KeyFacts)
    requires { x.now.has_purposes ≡ false }
    ensures { AreKeyFactsToWrite x.now }
{
    identifier(&x.subject_key);
    identifier_if(&x.authority_key);
}

// An rsync URI that may be there.
fn rsync(uri: &Option<Rsync>)
    ensures { IfSome uri.now IsRsync }
{
    match uri {
        Some(uri) => {
            let _ = uri.as_slice();
        }
        None => {}
    }
}

// An https URI that may be there.
fn https(uri: &Option<Https>)
    ensures { IfSome uri.now IsHttps }
{
    match uri {
        Some(uri) => {
            let _ = uri.as_slice();
        }
        None => {}
    }
}

// What is to be had from a subject.
fn access(x: &SubjectAccess)
    ensures { IsAccessToWrite x.now }
{
    rsync(&x.ca_repository);
    rsync(&x.rpki_manifest);
    rsync(&x.signed_object);
    https(&x.rpki_notify);
}

// Where something lies.
fn locations(x: &Locations)
    ensures { AreLocationsToWrite x.now }
{
    rsync(&x.crl);
    rsync(&x.ca_issuer);
    access(&x.subject);
}

// A claim of AS numbers.
fn as_claim(claim: &AsResources)
    ensures { OfNumbers IsAsWritten claim.now }
{
    match claim.claim() {
        Claim::Missing => {}
        Claim::Inherit => {}
        Claim::Explicit(set) => {
            let _ = set.encode_ref();
        }
    }
}

// A claim of IPv4 addresses.
fn v4_claim(claim: &IpResources)
    requires { OfNumbers (All (IsWithin Ipv4)) claim.now }
    ensures { OfNumbers (IsIpWritten Ipv4) claim.now }
{
    match claim.claim() {
        Claim::Missing => {}
        Claim::Inherit => {}
        Claim::Explicit(set) => {
            let _ = set.encode_ref(AddressFamily::Ipv4);
        }
    }
}

// A claim of IPv6 addresses.
fn v6_claim(claim: &IpResources)
    ensures { OfNumbers (IsIpWritten Ipv6) claim.now }
{
    match claim.claim() {
        Claim::Missing => {}
        Claim::Inherit => {}
        Claim::Explicit(set) => {
            let _ = set.encode_ref(AddressFamily::Ipv6);
        }
    }
}

// What is claimed.
fn claims(x: &Claims)
    requires { ClaimsIpv4 x.now }
    ensures { AreClaimsToWrite x.now }
{
    as_claim(&x.as_numbers);
    v4_claim(&x.addresses.v4);
    v6_claim(&x.addresses.v6);
}

/// What extensions say can be written.
pub fn extensions(x: &Extensions)
    requires purposes { x.now.key.has_purposes ≡ false }
    requires ipv4 { ClaimsIpv4 x.now.claims }
    ensures { AreToWrite x.now }
{
    key_facts(&x.key);
    locations(&x.locations);
    claims(&x.claims);
}
