//! The room in which a publication point is read.

ghost use Rattle.std.specs.Prelude.{◌≡◌, ◌+◌, ◌*◌, ◌^◌, ◌<◌, MatchResult, Ok};
ghost use Rattle.rpki_relying_party.specs.Costs.{ReadCosts, ReadStarts, found_cost, list_cost};
ghost use Rattle.rpki_relying_party.specs.Costs.{listing_cost, naming_cost};
ghost use Rattle.rpki_relying_party.specs.Lacks.{IsLostFile};
ghost use Rattle.rpki_relying_party.specs.Outcome.{IsOutcome};
ghost use Rattle.rpki_relying_party.specs.Passes.{setting};
ghost use Rattle.rpki_relying_party.specs.Point.{Has};
ghost use Rattle.rpki_relying_party.specs.declared.cause.Stop.{Stop as Stops};

use crate::cause::{Cause, FileFault, Stop};
use crate::copy::{Fetched, NoFile, Repository};
use crate::pass::Pass;
use crate::place::count_blocks;
use bytes::Bytes;
use rpki_basics::{Crypto, Rsync};
use rpki_certs::ResourceCert;
use rpki_files::ManifestHash;
use std::alloc::Global;

/// What it costs to look for a file: it is opened, and may have two signatures.
pub(crate) const OPENING: u128 = 1024;

/// What a refusal takes that names the file with this URI, which it holds.
pub(crate) fn naming_cost(uri: &Rsync) -> u128
    ensures costs { result ≡ naming_cost uri.now }
    ensures fits { result < 16 * 2 ^ 64 }
{
    16 * (uri.as_slice().len() as u128)
}

/// What it costs to look for the revocation list of a manifest.
pub(crate) fn list_cost(uri: &Rsync) -> u128
    ensures { result ≡ list_cost uri.now }
{
    OPENING + naming_cost(uri)
}

/// What it costs to look for a file that a CA with this manifest lists.
pub(crate) fn listing_cost(ca: &ResourceCert, manifest: &Rsync, uri: &Rsync) -> u128
    ensures { result ≡ listing_cost ca.now manifest.now uri.now }
{
    let uris = uri.as_slice().len() as u128 + manifest.as_slice().len() as u128;
    OPENING + count_blocks(ca) / 8 + 16 * uris
}

/// Spends so much of the room, unless there is less.
pub(crate) fn spend(room: &mut u64, cost: u128) -> Result<(), Stop>
    ensures { MatchResult result (λ _. room.new + cost ≡ room.old)
        (λ stop. (stop ≡ Stops.Room) × (room.old < cost) × (room.new ≡ room.old)) }
{
    if cost > u128::from(*room) {
        return Err(Stop::Room);
    }
    *room -= cost as u64;
    Ok(())
}

/// What the copy has for a URI. It costs this price for looking for it, and as much as it has
/// octets; no more octets are asked for than there is room for.
pub(crate) fn read_file<R: Repository, C: Crypto>(
    alloc: Global,
    pass: &Pass<'_, R, C>,
    uri: &Rsync,
    price: u128,
    room: &mut u64,
) -> Result<Result<Bytes, NoFile>, Stop>
    ensures { IsOutcome
        (ReadStarts (setting R.finds C.digest_of C.is_signed pass.now) price uri.now)
        (λ found n. R.finds pass.now.copy.now uri.now found × (n ≡ found_cost price found))
        (λ cause n. ⊥) room.old room.new result }
{
    if let Err(stop) = spend(room, price) {
        return Err(stop);
    }
    match pass.copy.read(alloc, uri.as_slice(), *room)? {
        Fetched::NoFile(why) => Ok(Err(why)),
        Fetched::Larger => Err(Stop::Room),
        Fetched::File(octets) => {
            *room -= octets.len() as u64;
            Ok(Ok(octets))
        }
    }
}

/// The octets of a listed file, which have its hash, at this price for looking for it.
pub(crate) fn read_listed<R: Repository, C: Crypto>(
    alloc: Global,
    pass: &Pass<'_, R, C>,
    uri: &Rsync,
    hash: &ManifestHash,
    price: u128,
    room: &mut u64,
) -> Result<Bytes, Stop>
    ensures { IsOutcome
        (ReadStarts (setting R.finds C.digest_of C.is_signed pass.now) price uri.now)
        (λ octets n. Has (setting R.finds C.digest_of C.is_signed pass.now) (uri.now, hash.now)
        octets × (n ≡ found_cost price (Ok octets)))
        (λ cause n. IsLostFile (setting R.finds C.digest_of C.is_signed pass.now)
        (uri.now, hash.now) cause
        × ReadCosts (setting R.finds C.digest_of C.is_signed pass.now) price uri.now n)
        room.old room.new result }
{
    match read_file(alloc, pass, uri, price, room)? {
        Err(why) => Err(Stop::Refused(Cause::File(uri.clone()?, FileFault::NoFile(why)))),
        Ok(octets) => match hash.verify(pass.crypto, octets.as_slice()) {
            Err(_) => {
                drop(octets);
                Err(Stop::Refused(Cause::File(uri.clone()?, FileFault::OtherHash)))
            }
            Ok(()) => Ok(octets),
        },
    }
}
