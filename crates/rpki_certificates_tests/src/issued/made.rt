//! Certificates whose octets another program made, signers that fail, and closures that refuse.

ghost use Rattle.std.specs.Prelude.{◌≡◌, IfOk, OnOk, IsErr};
ghost use Rattle.rpki_resources.specs.declared.resources.Claim.TheVariants.{Inherit};
ghost use Rattle.rpki_issued.specs.Written.{ClaimsIpv4};

use super::given::{Way, name, named, plain, set_all};
use super::octets::{JOINED, NAME, SMALL, UNNAMED, WHOLE};
use crate::shared::{Octets, Row, are_so, is_answer, push_addresses, push_numbers};
use rpki_basics::standin::StandInSigner;
use rpki_der::{Encode, Mode};
use rpki_issued::TbsCert;
use rpki_issued::signing::sign_and_join;
use rpki_resources::{AsBlocksBuilder, IpBlocksBuilder};
use rpki_testing::{Fail, copied, ok};
use std::alloc::{AllocError, Global};

/// What is made: an end entity's certificate under the name with these octets, which are read in
/// this mode; or that of a CA, with all that can be set.
enum Made {
    Plain(&'static [u8], Mode),
    Whole(Way),
}

/// What is made, the call of the signer that fails, and the octets or why there are none.
type Issued = (Made, u64, Octets);

/// The name without parts, in DER and in a form of BER.
const NO_NAME: &[u8] = b"\x30\x00";

const OPEN_NAME: &[u8] = b"\x30\x80\x00\x00";

static ROWS: [Issued; 8] = [
    (Made::Plain(NAME, Mode::Der), 0, Ok(SMALL)),
    (Made::Whole(Way::Within), 0, Ok(WHOLE)),
    (Made::Whole(Way::Before), 2, Ok(WHOLE)),
    (Made::Plain(NO_NAME, Mode::Der), 0, Ok(UNNAMED)),
    (Made::Plain(NO_NAME, Mode::Der), 1, Err("told to fail")),
    (Made::Plain(NO_NAME, Mode::Der), 2, Ok(UNNAMED)),
    (Made::Plain(NO_NAME, Mode::Ber), 0, Err("not DER")),
    (Made::Plain(OPEN_NAME, Mode::Ber), 2, Err("not DER")),
];

/// Numbers, and then no.
fn refuse_numbers(blocks: &mut AsBlocksBuilder) -> Result<(), AllocError> {
    push_numbers(blocks)?;
    Err(AllocError)
}

/// Addresses, and then no.
fn refuse_addresses(blocks: &mut IpBlocksBuilder) -> Result<(), AllocError> {
    push_addresses(blocks)?;
    Err(AllocError)
}

/// What was refused, as it has to be.
fn refused(built: Result<(), AllocError>) -> Result<(), Fail>
    ensures { OnOk result (IsErr built) }
{
    match built {
        Ok(()) => Err(Fail::Refused),
        Err(_) => Ok(()),
    }
}

/// Sets all, after each closure has refused, and has each refuse once more.
fn set_after_refusals(alloc: Global, t: &mut TbsCert, way: &Way) -> Result<(), Fail>
    ensures { OnOk result (t.new.extensions.claims.addresses.v4 ≡ Inherit) }
{
    refused(t.build_as_resource_blocks(alloc, refuse_numbers))?;
    set_all(alloc, t, way)?;
    refused(t.build_as_resource_blocks(alloc, refuse_numbers))?;
    refused(t.build_v4_resource_blocks(alloc, refuse_addresses))?;
    refused(t.build_v6_resource_blocks(alloc, refuse_addresses))
}

/// A CA's, with all that can be set, on which closures have refused.
fn whole(alloc: Global, way: &Way) -> Result<TbsCert, Fail>
    ensures { IfOk result (λ t. t.extensions.claims.addresses.v4 ≡ Inherit) }
{
    let mut t = named(alloc)?;
    match set_after_refusals(alloc, &mut t, way) {
        Ok(()) => Ok(t),
        Err(fail) => {
            drop(t);
            Err(fail)
        }
    }
}

/// Whether these are the octets of a copy of a certificate, signed by key 1 of a signer whose call
/// with this number fails.
fn is_signed(alloc: Global, t: TbsCert, call: u64, want: &Octets) -> Result<bool, Fail>
    requires { ClaimsIpv4 t.extensions.claims }
{
    let copy = copied(t)?;
    let mut signer = StandInSigner::failing_at(alloc, call);
    match copy.into_cert(alloc, &mut signer, &1) {
        Err(fault) => is_answer(alloc, Err(fault), want),
        Ok(cert) => {
            let octets = cert.encode_ref().to_bytes(alloc);
            drop(cert);
            is_answer(alloc, octets, want)
        }
    }
}

impl Row for Issued {
    fn is_so(&self, alloc: Global) -> Result<bool, Fail> {
        let (made, call, want) = self;
        match made {
            Made::Plain(octets, mode) => {
                is_signed(alloc, plain(alloc, name(*octets, *mode)?)?, *call, want)
            }
            Made::Whole(way) => is_signed(alloc, whole(alloc, way)?, *call, want),
        }
    }
}

/// Whether octets are joined with their signature.
fn are_joined(alloc: Global) -> Result<bool, Fail> {
    let mut signer = StandInSigner::new(alloc);
    let joined = sign_and_join(alloc, b"\x30\x00", &mut signer, &1);
    is_answer(alloc, joined, &Ok(JOINED))
}

#[test]
fn certificates_are_issued(rt: HostRuntime) -> Result<(), Fail> {
    let alloc = rt.alloc();
    assert!(rt; are_so(alloc, &ROWS)? && are_joined(alloc)?);
    Ok(())
}
