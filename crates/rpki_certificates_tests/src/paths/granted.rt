//! A whole attestation that is granted or refused in one call.

ghost use Rattle.std.specs.Prelude.{◌≡◌, ◌<◌};

use super::attested::{Bad, CandidateCert, List, Listed, Signer};
use super::plain::{Above, NoAnchor, Root, id};
use super::walks::{Claimed, Row, above, plains};
use crate::shared;
use rpki_faults::{Family, Overclaim};
use rpki_paths::{
    AcceptFault, Attestation, Attested, FinalFault, GrantFault, KeyId, Supplied, SupplyFault,
    VerdictCount, grant,
};
use rpki_testing::Fail;
use std::alloc::{AllocError, Global};
use std::marker::Brand;
use std::sync::ledger::{Blank, Ledger};

/// What is answered of an attestation.
pub type Answer = Result<(), GrantFault<Bad, NoAnchor>>;

/// The certificate of an end entity of key 1, and that of the CA of key 2 above it.
static CARRIED: [Row; 2] = [
    Row(1, 2, 2, Overclaim::Trim, Claimed::From(1, 5), 255),
    Row(2, 0, 0, Overclaim::Trim, Claimed::Inherited, 255),
];

static KEYS: [KeyId; 1] = [[0, 0, 0, 0, 0, 0, 0, 0, 0, 0, 0, 0, 0, 0, 0, 0, 0, 0, 0, 1]];

/// Whether the signer states this digest or another one, the last AS number that is attested, and
/// what is answered.
pub type Granted = (bool, u32, Answer);

pub static ROWS: [Granted; 3] = [
    (true, 5, Ok(())),
    (false, 5, Err(GrantFault::NotAccepted(AcceptFault::Digest))),
    (true, 6, Err(GrantFault::NotGranted(FinalFault::AsNumbers))),
];

/// What is answered of these certificates and this signer, with the revocation list of the CA of
/// key 2, under a CA of key 0, where these numbers are attested.
fn answer_under<'a, L: Ledger>(
    alloc: Global,
    certs: &[CandidateCert<'a>],
    crls: &[Listed<'a>],
    signers: &[Signer],
    sets: &Above,
    supplied: &Above,
    blank: Blank,
) -> Result<Answer, AllocError>
    requires name { blank.name ≡ L.name }
    requires parts { blank.parts ≡ L.parts }
    requires some { 0 < blank.parts }
{
    let attestation = Attestation {
        subject_keys: &KEYS,
        signers,
        certs,
        crls,
        sets: Attested {
            asn: &sets.asn,
            v4: &sets.v4,
            v6: &sets.v6,
        },
    };
    let supplies: [Supplied<Root, Above>; 1] = [Supplied::Ca(supplied)];
    let mut asked = VerdictCount::<L>::new(blank);
    match grant(alloc, &attestation, &supplies, &mut asked) {
        Err(GrantFault::NotAccepted(AcceptFault::Memory)) => Err(AllocError),
        Err(GrantFault::NotSupplied(SupplyFault::Memory)) => Err(AllocError),
        Err(GrantFault::NotGranted(FinalFault::Memory)) => Err(AllocError),
        answer => Ok(answer),
    }
}

/// What is answered where the signer states this digest or another one, and AS numbers up to this
/// one are attested.
fn answer(alloc: Global, has_digest: bool, last: u32) -> Result<Answer, AllocError> {
    let plains = plains(alloc, Family::As, &CARRIED, false)?;
    let [ee, ca] = plains.as_slice() else {
        return Err(AllocError);
    };
    let certs = [
        CandidateCert(ee, false, None),
        CandidateCert(ca, true, None),
    ];
    let list = List {
        authority: id(2),
        signer: [2],
        serials: Vec::new(alloc),
    };
    let signers = [Signer {
        sid: id(1),
        signer: [1],
        has_digest,
    }];
    let sets = above(alloc, Family::As, 0, &[(1, last)])?;
    let supplied = above(alloc, Family::As, 0, &[(1, 9)])?;
    answer_under::<Brand>(
        alloc,
        &certs,
        &[Listed(&list)],
        &signers,
        &sets,
        &supplied,
        Blank::new(1),
    )
}

impl shared::Row for Granted {
    fn is_so(&self, alloc: Global) -> Result<bool, Fail> {
        let (has_digest, last, want) = self;
        Ok(answer(alloc, *has_digest, *last)? == *want)
    }
}
