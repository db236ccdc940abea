//! Writing the extensions of a certificate (RFC 5280, section 4.2; RFC 6487, section 4.8).

ghost use Rattle.std.specs.Prelude.{◌≡◌, ◌<◌, ◌^◌, length, true, false};
ghost use Rattle.rpki_der.specs.Tags.{SEQUENCE};
ghost use Rattle.rpki_der.specs.Write.Parts.{contents_small};
ghost use Rattle.rpki_extensions.specs.Extensions.{subject_key_identifier, key_usage};
ghost use Rattle.rpki_extensions.specs.Extensions.{basic_constraints, crl_distribution_points};
ghost use Rattle.rpki_extensions.specs.Extensions.{certificate_policies, authority_info_access};
ghost use Rattle.rpki_extensions.specs.Extensions.{authority_key_identifier, subject_info_access};
ghost use Rattle.rpki_extensions.specs.Extensions.{ip_resources, as_resources};
ghost use Rattle.rpki_issued.specs.Values.{basic_octets, usage_octets, subject_key_octets};
ghost use Rattle.rpki_issued.specs.Values.{authority_key_octets, points_octets};
ghost use Rattle.rpki_issued.specs.Values.{authority_access_octets, subject_access_octets};
ghost use Rattle.rpki_issued.specs.Values.{policies_octets, as_claim_octets, ip_claims_octets};
ghost use Rattle.rpki_issued.specs.Extensions.{always, maybe, said_access, said_claim};
ghost use Rattle.rpki_issued.specs.Extensions.{said_addresses, first_extensions, last_extensions};
ghost use Rattle.rpki_issued.specs.Extensions.{first_octets, last_octets};
ghost use Rattle.rpki_issued.specs.Extensions.{AreShortOptionals, short_optionals};
ghost use Rattle.rpki_issued.specs.Extensions.{extensions_contents, extensions_octets};

use crate::access::{AccessTo, SubjectAccessEncoder, access_to, says_something};
use crate::claims::{AsClaimEncoder, IpClaimsEncoder, names_something};
use crate::extension::{ExtensionEncoder, Flag};
use rpki_basics::{KeyIdentifier, Rsync};
use rpki_der::encode::{Bits, Raw, Value, bit_string, octet_string, primitive, sequence, tagged};
use rpki_der::{Encode, EncodeError, Sink, SinkFailed, Tag};
use rpki_extensions::identifiers::{
    AUTHORITY_INFO_ACCESS, AUTHORITY_KEY_IDENTIFIER, BASIC_CONSTRAINTS, CA_ISSUERS,
    CERTIFICATE_POLICIES, CRL_DISTRIBUTION_POINTS, KEY_USAGE, SUBJECT_INFO_ACCESS,
    SUBJECT_KEY_IDENTIFIER, as_oid, ip_oid, policy_oid,
};
use rpki_extensions::{Extensions, IpClaims, SubjectAccess};
use rpki_faults::{KeyUsage, Overclaim};
use rpki_resources::AsResources;

// Basic constraints, where there are any.
fn basic(ca: Option<bool>) -> ExtensionEncoder<'static, Value<Flag>>
    ensures { result ≡ maybe basic_constraints true basic_octets ca }
{
    match ca {
        Some(ca) => ExtensionEncoder::new(&BASIC_CONSTRAINTS, true, Some(sequence(Flag(ca)))),
        None => ExtensionEncoder::new(&BASIC_CONSTRAINTS, true, None),
    }
}

// The identifier of the subject's key.
fn subject_key(id: &KeyIdentifier) -> ExtensionEncoder<'_, Value<Raw<'_>>>
    ensures { result ≡ always subject_key_identifier false (subject_key_octets id.now) }
{
    ExtensionEncoder::new(
        &SUBJECT_KEY_IDENTIFIER,
        false,
        Some(octet_string(id.as_slice())),
    )
}

// The identifier of the issuer's key, if it is said.
fn authority_key(id: &Option<KeyIdentifier>) -> ExtensionEncoder<'_, Value<Value<Raw<'_>>>>
    ensures { result ≡ maybe authority_key_identifier false authority_key_octets id.now }
{
    match id {
        Some(id) => {
            let value = sequence(primitive(Tag::CTX_0_PRIMITIVE, id.as_slice()));
            ExtensionEncoder::new(&AUTHORITY_KEY_IDENTIFIER, false, Some(value))
        }
        None => ExtensionEncoder::new(&AUTHORITY_KEY_IDENTIFIER, false, None),
    }
}

// What the key is for.
fn usage(usage: KeyUsage) -> ExtensionEncoder<'static, Value<Bits<'static>>>
    ensures { result ≡ always key_usage true (usage_octets usage) }
{
    match usage {
        KeyUsage::Ca => ExtensionEncoder::new(&KEY_USAGE, true, Some(bit_string(&[0x06], 1))),
        KeyUsage::Ee => ExtensionEncoder::new(&KEY_USAGE, true, Some(bit_string(&[0x80], 7))),
    }
}

// One distribution point with one name.
type Points<'a> = Value<Value<Value<Value<Value<Raw<'a>>>>>>;

// Where the revocation list is, if it is said.
fn crl(uri: &Option<Rsync>) -> ExtensionEncoder<'_, Points<'_>>
    ensures { result ≡ maybe crl_distribution_points false points_octets uri.now }
{
    match uri {
        Some(uri) => {
            let name = primitive(Tag::CTX_6_PRIMITIVE, uri.as_slice());
            let full_name = tagged(Tag::CTX_0, tagged(Tag::CTX_0, name));
            let value = sequence(sequence(full_name));
            ExtensionEncoder::new(&CRL_DISTRIBUTION_POINTS, false, Some(value))
        }
        None => ExtensionEncoder::new(&CRL_DISTRIBUTION_POINTS, false, None),
    }
}

// Where the issuer's certificate is, if it is said.
fn ca_issuer(uri: &Option<Rsync>) -> ExtensionEncoder<'_, Value<AccessTo<'_>>>
    ensures { result ≡ maybe authority_info_access false authority_access_octets uri.now }
{
    match uri {
        Some(uri) => {
            let value = sequence(access_to(&CA_ISSUERS, uri.as_slice()));
            ExtensionEncoder::new(&AUTHORITY_INFO_ACCESS, false, Some(value))
        }
        None => ExtensionEncoder::new(&AUTHORITY_INFO_ACCESS, false, None),
    }
}

// What is to be had from the subject, if anything.
fn subject(access: &SubjectAccess) -> ExtensionEncoder<'_, SubjectAccessEncoder<'_>>
    ensures { result ≡ maybe subject_info_access false subject_access_octets
        (said_access access.now) }
{
    if says_something(access) {
        ExtensionEncoder::new(
            &SUBJECT_INFO_ACCESS,
            false,
            Some(SubjectAccessEncoder(access)),
        )
    } else {
        ExtensionEncoder::new(&SUBJECT_INFO_ACCESS, false, None)
    }
}

// A SEQUENCE of a policy.
type Policies = Value<Value<Value<Raw<'static>>>>;

// The policy.
fn policies(policy: Overclaim) -> ExtensionEncoder<'static, Policies>
    ensures { result ≡ always certificate_policies true (policies_octets policy) }
{
    let oid = primitive(Tag::OBJECT_IDENTIFIER, policy_oid(policy));
    let value = sequence(sequence(oid));
    ExtensionEncoder::new(&CERTIFICATE_POLICIES, true, Some(value))
}

// The claims of addresses, if a family is named.
fn addresses(policy: Overclaim, claims: &IpClaims) -> ExtensionEncoder<'_, IpClaimsEncoder<'_>>
    ensures { result ≡ maybe (ip_resources policy) true ip_claims_octets
        (said_addresses claims.now) }
{
    if names_something(claims) {
        ExtensionEncoder::new(ip_oid(policy), true, Some(IpClaimsEncoder(claims)))
    } else {
        ExtensionEncoder::new(ip_oid(policy), true, None)
    }
}

// The claim of AS numbers, if they are named.
fn as_numbers(policy: Overclaim, claim: &AsResources) -> ExtensionEncoder<'_, AsClaimEncoder<'_>>
    ensures { result ≡ maybe (as_resources policy) true as_claim_octets (said_claim claim.now) }
{
    if claim.is_present() {
        ExtensionEncoder::new(as_oid(policy), true, Some(AsClaimEncoder(claim)))
    } else {
        ExtensionEncoder::new(as_oid(policy), true, None)
    }
}

// What writes what is said of the key, and where the revocation list is.
#[derive(Drop)]
struct FirstExtensions<'a>(&'a Extensions);

type FirstFields<'a> = (
    ExtensionEncoder<'static, Value<Flag>>,
    ExtensionEncoder<'a, Value<Raw<'a>>>,
    ExtensionEncoder<'a, Value<Value<Raw<'a>>>>,
    ExtensionEncoder<'static, Value<Bits<'static>>>,
    ExtensionEncoder<'a, Points<'a>>,
);

impl FirstExtensions<'_> {
    // Each extension, in the order in which they are written.
    fn fields(&self) -> FirstFields<'_>
        ensures basic { result.0
            ≡ maybe basic_constraints true basic_octets self.now.0.now.key.basic_ca }
        ensures subject { result.1 ≡ always subject_key_identifier false
            (subject_key_octets self.now.0.now.key.subject_key) }
        ensures authority { result.2 ≡ maybe authority_key_identifier false authority_key_octets
            self.now.0.now.key.authority_key }
        ensures usage { result.3 ≡ always key_usage true (usage_octets self.now.0.now.key.usage) }
        ensures crl { result.4
            ≡ maybe crl_distribution_points false points_octets self.now.0.now.locations.crl }
    {
        let x: &Extensions = self.0;
        (
            basic(x.key.basic_ca),
            subject_key(&x.key.subject_key),
            authority_key(&x.key.authority_key),
            usage(x.key.usage),
            crl(&x.locations.crl),
        )
    }
}

impl Encode for FirstExtensions<'_> {
    ghost octets = { λ e. first_octets e.0.now };

    ghost is_short = { λ e. AreShortOptionals (first_extensions e.0.now) };

    ghost small = { λ e h. short_optionals (first_extensions e.0.now) h };

    fn encoded_len(&self) -> Result<u64, EncodeError> {
        self.fields().encoded_len()
    }

    fn put<W: Sink>(&self, len: u64, out: &mut W) -> Result<(), SinkFailed> {
        self.fields().put(len, out)
    }
}

// What writes the extensions after these.
#[derive(Drop)]
struct LastExtensions<'a>(&'a Extensions);

type LastFields<'a> = (
    ExtensionEncoder<'a, Value<AccessTo<'a>>>,
    ExtensionEncoder<'a, SubjectAccessEncoder<'a>>,
    ExtensionEncoder<'static, Policies>,
    ExtensionEncoder<'a, IpClaimsEncoder<'a>>,
    ExtensionEncoder<'a, AsClaimEncoder<'a>>,
);

impl LastExtensions<'_> {
    // Each extension, in the order in which they are written.
    fn fields(&self) -> LastFields<'_>
        ensures issuer { result.0 ≡ maybe authority_info_access false authority_access_octets
            self.now.0.now.locations.ca_issuer }
        ensures subject { result.1 ≡ maybe subject_info_access false subject_access_octets
            (said_access self.now.0.now.locations.subject) }
        ensures policies { result.2 ≡ always certificate_policies true
            (policies_octets self.now.0.now.claims.policy) }
        ensures addresses { result.3
            ≡ maybe (ip_resources self.now.0.now.claims.policy) true ip_claims_octets
            (said_addresses self.now.0.now.claims.addresses) }
        ensures numbers { result.4
            ≡ maybe (as_resources self.now.0.now.claims.policy) true as_claim_octets
            (said_claim self.now.0.now.claims.as_numbers) }
    {
        let x: &Extensions = self.0;
        let policy = x.claims.policy;
        (
            ca_issuer(&x.locations.ca_issuer),
            subject(&x.locations.subject),
            policies(policy),
            addresses(policy, &x.claims.addresses),
            as_numbers(policy, &x.claims.as_numbers),
        )
    }
}

impl Encode for LastExtensions<'_> {
    ghost octets = { λ e. last_octets e.0.now };

    ghost is_short = { λ e. AreShortOptionals (last_extensions e.0.now.claims.policy e.0.now) };

    ghost small = { λ e h. short_optionals (last_extensions e.0.now.claims.policy e.0.now) h };

    fn encoded_len(&self) -> Result<u64, EncodeError> {
        self.fields().encoded_len()
    }

    fn put<W: Sink>(&self, len: u64, out: &mut W) -> Result<(), SinkFailed> {
        self.fields().put(len, out)
    }
}

/// What writes the extensions of a certificate, in the order of `into_cert`, each where there is
/// something to say. Whether there is an extended key usage is not written.
#[derive(Drop)]
pub struct ExtensionsEncoder<'a>(pub &'a Extensions);

impl Encode for ExtensionsEncoder<'_> {
    ghost octets = { λ e. extensions_octets e.0.now };

    ghost is_short = { λ e. length (extensions_contents e.0.now) < 2 ^ 32 };

    ghost small = { λ e h. contents_small SEQUENCE (extensions_contents e.0.now) h };

    fn encoded_len(&self) -> Result<u64, EncodeError> {
        sequence((FirstExtensions(self.0), LastExtensions(self.0))).encoded_len()
    }

    fn put<W: Sink>(&self, len: u64, out: &mut W) -> Result<(), SinkFailed> {
        sequence((FirstExtensions(self.0), LastExtensions(self.0))).put(len, out)
    }
}
