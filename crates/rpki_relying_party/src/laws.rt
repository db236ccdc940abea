//! What the definitions say: laws, as functions that do nothing.

ghost use Rattle.std.specs.Prelude.{◌≡◌, ◌<◌, ◌≤◌, ℕ, List, Contains};
ghost use Rattle.std.specs.List.{AllZip};
ghost use Rattle.rpki_basics.specs.Moment.{Moment, stamp};
ghost use Rattle.rpki_certs.specs.Validate.{Validated};
ghost use Rattle.rpki_tal.specs.Tal.{Locator};
ghost use Rattle.rpki_tal.specs.Uri.{https_first};
ghost use Rattle.rpki_relying_party.specs.Anchors.{IsAnchorOf, HasAnchor, HaveBegun};
ghost use Rattle.rpki_relying_party.specs.Anchors.{candidates};
ghost use Rattle.rpki_relying_party.specs.Costs.{PlaceCosts, PlaceExceeds};
ghost use Rattle.rpki_relying_party.specs.Found.{HasAsLong, SaysLike};
ghost use Rattle.rpki_relying_party.specs.Passes.{setting};
ghost use Rattle.rpki_relying_party.specs.Paths.{IsSaid, Leads, TellsOne};
ghost use Rattle.rpki_relying_party.specs.Place.{AreAlike, key_of};
ghost use Rattle.rpki_relying_party.specs.Published.{IsPayloadBelow, PublishesPayload, PublishesCa};
ghost use Rattle.rpki_relying_party.specs.Published.{FindsPublished, at_moment};
ghost use Rattle.rpki_relying_party.specs.Runs.{IsLeftRefusal, IsRefusalFor, IsRunUnder, KeepsAll};
ghost use Rattle.rpki_relying_party.specs.Runs.{left_under};
ghost use Rattle.rpki_relying_party.specs.Same.{FindsOne};
ghost use Rattle.rpki_relying_party.specs.Tells.{PlaceTells};
ghost use Rattle.rpki_relying_party.specs.Walk.{Left};
ghost use Rattle.rpki_relying_party.specs.declared.found.Finding.{Finding};
ghost use Rattle.rpki_relying_party.specs.declared.found.Finding.TheVariants as findings;
ghost use Rattle.rpki_relying_party.specs.declared.found.Found.{Found};
ghost use Rattle.rpki_relying_party.specs.declared.payload.Held.{Held};
ghost use Rattle.rpki_relying_party.specs.declared.payload.Payload.{Payload};
ghost use Rattle.rpki_relying_party.specs.declared.place.Place.{Place};

use crate::copy::Repository;
use crate::pass::Pass;
use rpki_basics::Crypto;

/// Places that are alike tell one thing, where the copy finds one thing for each URI, as a copy in
/// memory does: the same payloads by the same objects, refusals of the same for the same causes, and
/// children that are alike, in the same order. Until when the payloads hold, and below which CA a
/// refused point stands, depends on how each of the two was reached.
///
/// So places with one key tell one thing, which is what a walk needs to be complete (`walk_from`).
pub fn places_tell_one<R: Repository, C: Crypto>(pass: &Pass<'_, R, C>)
    ensures alike { FindsOne (setting R.finds C.digest_of C.is_signed pass.now)
        → (p q : Place) (said said2 : List Finding) (children children2 : List Place)
        → AreAlike p q
        → PlaceTells (setting R.finds C.digest_of C.is_signed pass.now) p said children
        → PlaceTells (setting R.finds C.digest_of C.is_signed pass.now) q said2 children2
        → AllZip SaysLike said said2 × AllZip AreAlike children children2 }
    ensures keyed { FindsOne (setting R.finds C.digest_of C.is_signed pass.now)
        → TellsOne (PlaceTells (setting R.finds C.digest_of C.is_signed pass.now)) key_of
        SaysLike }
{}

/// Each payload that places say from the start on is published below it: a chain of CAs leads from
/// the start to one with a publication point that is all there and that has a good ROA or ASPA with
/// the payload.
pub fn payloads_are_said<R: Repository, C: Crypto>(_pass: &Pass<'_, R, C>)
    ensures { (start : Place) (x : Payload) (h : Held)
        → IsSaid (PlaceTells (setting R.finds C.digest_of C.is_signed _pass.now)) start
        (findings.Payload x h)
        → IsPayloadBelow (setting R.finds C.digest_of C.is_signed _pass.now) start x h }
{}

/// Where the copy finds one thing for each URI, a place that is read tells all that it publishes:
/// each payload of a good and unrevoked ROA or ASPA that the manifest of its publication point lists,
/// if the point is all there (RFC 9286, section 6), and each CA whose certificate is such. With each
/// payload it tells until when it holds.
pub fn publications_are_told<R: Repository, C: Crypto>(pass: &Pass<'_, R, C>)
    ensures payloads { FindsOne (setting R.finds C.digest_of C.is_signed pass.now)
        → (place : Place) (said : List Finding) (children : List Place)
        → PlaceTells (setting R.finds C.digest_of C.is_signed pass.now) place said children
        → (x : Payload) (h : Held)
        → PublishesPayload (setting R.finds C.digest_of C.is_signed pass.now) place x h
        → Contains said (findings.Payload x h) }
    ensures cas { FindsOne (setting R.finds C.digest_of C.is_signed pass.now)
        → (place : Place) (said : List Finding) (children : List Place)
        → PlaceTells (setting R.finds C.digest_of C.is_signed pass.now) place said children
        → (child : Place)
        → PublishesCa (setting R.finds C.digest_of C.is_signed pass.now) place child
        → Contains children child }
{}

/// A run under a locator over such a copy has found each payload that is published below a trust
/// anchor of the locator: each to which a chain of CAs leads from it, of any length, though perhaps
/// not for as long, unless some place on the chain has the key of one that the run left unread.
///
/// With `payloads_are_said` and the clause `sound` of `run_under`, a run finds a payload exactly
/// where it is published, up to what was left unread.
pub fn publications_are_found<R: Repository, C: Crypto>(_pass: &Pass<'_, R, C>)
    ensures { FindsOne (setting R.finds C.digest_of C.is_signed _pass.now)
        → (tal : Locator) (limit : ℕ) (old new : Found) (unread : List (Left Place))
        → IsRunUnder (setting R.finds C.digest_of C.is_signed _pass.now) tal limit old new unread
        → FindsPublished (setting R.finds C.digest_of C.is_signed _pass.now) tal new unread }
{}

/// A run refuses each place that it leaves unread. Some CA listed the place, and `refuse_unread` puts
/// a refusal to what was found, with the URI of that CA's manifest, which says how many of its places
/// were left unread for the same.
///
/// So with `publications_are_found` a payload that is published is found, unless some place on its
/// chain has the key of one that is refused.
pub fn unread_places_are_refused<R: Repository, C: Crypto>(_pass: &Pass<'_, R, C>)
    ensures { (tal : Locator) (limit : ℕ) (old new : Found) (unread : List (Left Place))
        → IsRunUnder (setting R.finds C.digest_of C.is_signed _pass.now) tal limit old new unread
        → (after : Found)
        → KeepsAll (IsLeftRefusal unread) new after
        → (u : Left Place)
        → Contains unread u
        → (x : Finding) × IsRefusalFor (left_under unread) u x × HasAsLong after x }
{}

/// Over such a copy, to read places that are alike is one number of work for all of them: each
/// reading of one costs that, and what reading one exceeds is less. So a try of a key with as much
/// room is never cut.
pub fn work_is_one_number<R: Repository, C: Crypto>(pass: &Pass<'_, R, C>)
    ensures costs { FindsOne (setting R.finds C.digest_of C.is_signed pass.now)
        → (p q : Place) (m n : ℕ)
        → AreAlike p q
        → PlaceCosts (setting R.finds C.digest_of C.is_signed pass.now) p m
        → PlaceCosts (setting R.finds C.digest_of C.is_signed pass.now) q n
        → m ≡ n }
    ensures exceeds { FindsOne (setting R.finds C.digest_of C.is_signed pass.now)
        → (p q : Place) (m n : ℕ)
        → AreAlike p q
        → PlaceExceeds (setting R.finds C.digest_of C.is_signed pass.now) p m
        → PlaceCosts (setting R.finds C.digest_of C.is_signed pass.now) q n
        → m < n }
{}

/// A payload to which a chain of CAs leads from the start is published at the end of the same chain at
/// each moment from now until its hold ends, where the copy stays the same, by an object with the same
/// URI: by the same octets, if the copy finds one thing for each URI. Until then the start holds too.
pub fn payloads_hold<R: Repository, C: Crypto>(_pass: &Pass<'_, R, C>)
    ensures { (start place : Place) (path : List Place) (x : Payload) (h : Held) (t : Moment)
        → Leads (PublishesCa (setting R.finds C.digest_of C.is_signed _pass.now)) start path place
        → PublishesPayload (setting R.finds C.digest_of C.is_signed _pass.now) place x h
        → stamp _pass.now.moment ≤ stamp t
        → stamp t ≤ stamp h.until
        → Leads (PublishesCa (at_moment (setting R.finds C.digest_of C.is_signed _pass.now) t))
        start path place
        × PublishesPayload (at_moment (setting R.finds C.digest_of C.is_signed _pass.now) t) place
        x h
        × (stamp t ≤ stamp start.until) }
{}

/// A payload that is published below the start now holds now, where the start does: no hold ends
/// sooner than what leads to the payload.
pub fn payloads_hold_now<R: Repository, C: Crypto>(_pass: &Pass<'_, R, C>)
    ensures { (start : Place) (x : Payload) (h : Held)
        → IsPayloadBelow (setting R.finds C.digest_of C.is_signed _pass.now) start x h
        → stamp _pass.now.moment ≤ stamp start.until
        → stamp _pass.now.moment ≤ stamp h.until }
{}

/// A trust anchor of a locator is a good one at each moment from now until its certificate ends,
/// where the copy stays the same. It is the locator's trust anchor then, unless the copy has a
/// certificate with its key that begins to be valid only later.
pub fn anchors_hold<R: Repository, C: Crypto>(_pass: &Pass<'_, R, C>)
    ensures good { (tal : Locator) (v : Validated) (t : Moment)
        → IsAnchorOf (setting R.finds C.digest_of C.is_signed _pass.now) tal v
        → stamp _pass.now.moment ≤ stamp t
        → stamp t ≤ stamp v.cert.certificate.tbs.validity.not_after
        → (text : List ℕ) × Contains (candidates (https_first tal.uris)) text
        × HasAnchor (at_moment (setting R.finds C.digest_of C.is_signed _pass.now) t) tal.key v
        text }
    ensures first { (tal : Locator) (v : Validated) (t : Moment)
        → IsAnchorOf (setting R.finds C.digest_of C.is_signed _pass.now) tal v
        → stamp _pass.now.moment ≤ stamp t
        → stamp t ≤ stamp v.cert.certificate.tbs.validity.not_after
        → HaveBegun (setting R.finds C.digest_of C.is_signed _pass.now) tal
        → IsAnchorOf (at_moment (setting R.finds C.digest_of C.is_signed _pass.now) t) tal v }
{}
