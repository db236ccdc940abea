//! What the definitions say: laws, as functions that do nothing.

ghost use Rattle.rpki_paths.specs.Laws.{IssuerKeepsMeet, AnchoredIsPathSet, AnchoredIsKnown};
ghost use Rattle.rpki_paths.specs.Laws.{PathSetIsWithinEach, PathsAreUnique, PathsAreShort};
ghost use Rattle.rpki_paths.specs.Laws.{AnyChoicePairs, WhatFitsIsAlike, CrlsAreUnique};
ghost use Rattle.rpki_paths.specs.Laws.{PathsAreThose, AcceptanceIsDecided, GrantIsDecided};
ghost use Rattle.rpki_paths.specs.Laws.{WalksAreAccepted, RefusedIsNotAccepted, YesIsGranted};
ghost use Rattle.rpki_paths.specs.Laws.{UnsuppliedIsRefused, UndecidedIsRefused};
ghost use Rattle.rpki_paths.specs.Laws.{EachIsKept, DeclinedIsUnanchored, AllAreKept};
ghost use Rattle.rpki_paths.specs.Laws.{RefusedIsUnanchored, LeftOverIsUnpairable};
ghost use Rattle.rpki_paths.specs.Laws.{UnpairedIsUnpairable};
ghost use Rattle.rpki_paths.specs.Laws.{FinalIsDecided, UnanchoredIsRefused, RefusedHasNoPath};
ghost use Rattle.rpki_paths.specs.Laws.{RefusedHasNoPaths};
ghost use Rattle.rpki_paths.specs.Laws.{PairsAlongMap, PlacedAreAuthorities};
ghost use Rattle.rpki_paths.specs.Laws.{UnmatchedIsNotAccepted};
ghost use Rattle.rpki_paths.specs.Laws.{RefusalIsRight};
ghost use Rattle.rpki_paths.specs.Laws.{ResourcesTellTakes, FirstFitsArePairing};
ghost use Rattle.rpki_paths.specs.Laws.{FirstFitsFindPairing, MatchingIsCheap, VerdictsAreFew};
ghost use Rattle.rpki_paths.specs.Laws.{EachKeepsSome, AllKeepSome, KeptIsKeptBySome};
ghost use Rattle.rpki_paths.specs.Laws.{EndAfterRefusals, YesAfterRefusals};
ghost use Rattle.rpki_paths.specs.Pairing.{HasKey, IsVerifiedBy, HasCrl};
ghost use Rattle.rpki_paths.specs.Supplied.{supply_of, refusal_of};
ghost use Rattle.rpki_paths.specs.Pairing.{IsPair};

use crate::carried::{Candidate, CarriedCert, CarriedSigner};
use crate::certificate::{Certificate, Locator, SuppliedCa};
use crate::pairs::Seeks;
use rpki_resources::Number;

/// With one issuer more on a covered path its resources stand for its sets as before.
pub fn issuer_keeps_meet<T: Number>()
    ensures { IssuerKeepsMeet T.number }
{}

/// The resources of an anchored path stand for its set.
pub fn anchored_is_path_set()
    ensures { AnchoredIsPathSet }
{}

/// An anchored path has an explicit set, where its trust anchor does not inherit.
pub fn anchored_is_known()
    ensures { AnchoredIsKnown }
{}

/// The set of an anchored path lies in each explicit set on it.
pub fn path_set_is_within_each()
    ensures { PathSetIsWithinEach }
{}

/// With distinct identifiers an end-entity certificate has at most one path.
pub fn paths_are_unique()
    ensures { PathsAreUnique }
{}

/// A path has at most as many issuers as there are carried CAs.
pub fn paths_are_short()
    ensures { PathsAreShort }
{}

/// Where items that one fits are alike, taking any that fits loses no pairing.
pub fn any_choice_pairs()
    ensures keys { AnyChoicePairs HasKey }
    ensures ees { AnyChoicePairs IsVerifiedBy }
    ensures crls { AnyChoicePairs HasCrl }
{}

/// With distinct identifiers what fits one is alike.
pub fn what_fits_is_alike()
    ensures { WhatFitsIsAlike }
{}

/// With distinct identifiers each CA has one CRL.
pub fn crls_are_unique()
    ensures { CrlsAreUnique }
{}

/// With distinct identifiers every choice of pairs has the same paths.
pub fn paths_are_those()
    ensures { PathsAreThose }
{}

/// With distinct identifiers any paths that are found decide what is accepted.
pub fn acceptance_is_decided()
    ensures { AcceptanceIsDecided }
{}

/// With distinct identifiers any accepted paths decide what is granted.
pub fn grant_is_decided()
    ensures { GrantIsDecided }
{}

/// With distinct identifiers nothing is granted where a path that is found is not anchored.
pub fn unanchored_is_refused()
    ensures { UnanchoredIsRefused }
{}

/// With distinct identifiers a walk is refused, but for memory, only where there is no covered
/// path.
pub fn refused_has_no_path()
    ensures { RefusedHasNoPath }
{}

/// With distinct identifiers walks from several certificates are refused, but for memory, only
/// where these have no covered paths on which all CAs stand.
pub fn refused_has_no_paths()
    ensures { RefusedHasNoPaths }
{}

/// What is kept of paths under supplies decides what they earn.
pub fn final_is_decided<C: Certificate>()
    ensures { FinalIsDecided C.cert }
{}

/// Walks from the certificates of a matching find paths that are accepted.
pub fn walks_are_accepted<C: Certificate>()
    ensures { WalksAreAccepted C.cert }
{}

/// With distinct identifiers such walks are refused, but for memory, only where no paths are
/// accepted.
pub fn refused_is_not_accepted()
    ensures { RefusedIsNotAccepted }
{}

/// What is kept of paths is kept under one supply more, where it declines none of them.
pub fn each_is_kept<C: Certificate, T: Locator<C>, S: SuppliedCa<C>>()
    ensures { EachIsKept C.cert (supply_of T.key S.ski S.key S.sets) (refusal_of T.refuses) }
{}

/// A path that a supply declines, but for memory, is anchored by none.
pub fn declined_is_unanchored<C: Certificate, T: Locator<C>, S: SuppliedCa<C>>()
    ensures { DeclinedIsUnanchored C.cert (supply_of T.key S.ski S.key S.sets)
        (refusal_of T.refuses) }
{}

/// What is kept of paths is kept under some supplies more, where these decline none of them.
pub fn all_are_kept<C: Certificate, T: Locator<C>, S: SuppliedCa<C>>()
    ensures { AllAreKept C.cert (supply_of T.key S.ski S.key S.sets) (refusal_of T.refuses) }
{}

/// Where one of some supplies declines a path, but for memory, some path is anchored by none of
/// them.
pub fn refused_is_unanchored<C: Certificate, T: Locator<C>, S: SuppliedCa<C>>()
    ensures { RefusedIsUnanchored C.cert (supply_of T.key S.ski S.key S.sets)
        (refusal_of T.refuses) }
{}

/// Where all supplies are handed in and the end says yes, the attestation is granted.
pub fn yes_is_granted<C: Certificate, T: Locator<C>, S: SuppliedCa<C>>()
    ensures { YesIsGranted C.cert (supply_of T.key S.ski S.key S.sets) (refusal_of T.refuses) }
{}

/// With distinct identifiers a supply ends the call, but for memory, only where nothing is granted.
pub fn unsupplied_is_refused<C: Certificate, T: Locator<C>, S: SuppliedCa<C>>()
    ensures { UnsuppliedIsRefused C.cert (supply_of T.key S.ski S.key S.sets)
        (refusal_of T.refuses) }
{}

/// With distinct identifiers the end says no, but for memory, only where nothing is granted.
pub fn undecided_is_refused<C: Certificate, T: Locator<C>, S: SuppliedCa<C>>()
    ensures { UndecidedIsRefused C.cert (supply_of T.key S.ski S.key S.sets)
        (refusal_of T.refuses) }
{}

/// What is kept of paths after some supplies is kept after one more, whatever it answers.
pub fn each_keeps_some<C: Certificate, T: Locator<C>, S: SuppliedCa<C>>()
    ensures { EachKeepsSome C.cert (supply_of T.key S.ski S.key S.sets) (refusal_of T.refuses) }
{}

/// What is kept of paths after some supplies is kept after several more, whatever they answer.
pub fn all_keep_some<C: Certificate, T: Locator<C>, S: SuppliedCa<C>>()
    ensures { AllKeepSome C.cert (supply_of T.key S.ski S.key S.sets) (refusal_of T.refuses) }
{}

/// What is kept of paths under supplies, none of which declines one, is kept after them.
pub fn kept_is_kept_by_some<C: Certificate>()
    ensures { KeptIsKeptBySome C.cert }
{}

/// After any supplies, refused ones among them, a yes of the end means that the attestation is
/// accepted, and that its sets are earned under supplies that are meant for its paths and take
/// them.
pub fn yes_after_refusals<C: Certificate, T: Locator<C>, S: SuppliedCa<C>>()
    ensures { YesAfterRefusals C.cert (supply_of T.key S.ski S.key S.sets) (refusal_of T.refuses) }
{}

/// After any supplies, refused ones among them, where all paths are anchored, the end says no only
/// where the attested sets are not the numbers of the paths, each under a supply that is meant for
/// it and takes it.
pub fn end_after_refusals<C: Certificate, T: Locator<C>, S: SuppliedCa<C>>()
    ensures { EndAfterRefusals C.cert (supply_of T.key S.ski S.key S.sets) (refusal_of T.refuses) }
{}

/// The resources of a path tell whether a supplied CA takes it.
pub fn resources_tell_takes()
    ensures { ResourcesTellTakes }
{}

/// What pairs off, each taking the first that fits, is a pairing.
pub fn first_fits_are_pairing()
    ensures keys { FirstFitsArePairing HasKey }
    ensures ees { FirstFitsArePairing IsVerifiedBy }
    ensures crls { FirstFitsArePairing HasCrl }
{}

/// Where items that one fits are alike, taking the first that fits finds the pairing there is.
pub fn first_fits_find_pairing()
    ensures keys { FirstFitsFindPairing HasKey }
    ensures ees { FirstFitsFindPairing IsVerifiedBy }
    ensures crls { FirstFitsFindPairing HasCrl }
{}

/// What pairs off, each taking the first that fits, is a pairing, of whatever is paired.
pub fn pairs_are_pairing<X: Seeks<Y>, Y>()
    ensures { FirstFitsArePairing (IsPair X.sought X.held X.verdict) }
{}

/// Where items that one fits are alike, taking the first that fits finds the pairing there is, of
/// whatever is paired.
pub fn pairs_are_found<X: Seeks<Y>, Y>()
    ensures { FirstFitsFindPairing (IsPair X.sought X.held X.verdict) }
{}

/// Where some are left over there is no pairing.
pub fn left_over_is_unpairable<X: Seeks<Y>, Y>()
    ensures { LeftOverIsUnpairable (IsPair X.sought X.held X.verdict) }
{}

/// Where items that one fits are alike, there is no pairing where they cannot be paired off, but
/// for memory.
pub fn unpaired_is_unpairable<X: Seeks<Y>, Y>()
    ensures { UnpairedIsUnpairable (IsPair X.sought X.held X.verdict) }
{}

/// Where handles pair off, what they stand for does, at the same places; where they do not, it does
/// not, for the same reason.
pub fn pairs_along_map<S: CarriedSigner<C>, C: CarriedCert<R>, R>()
    ensures ees { PairsAlongMap S.signer C.cert (IsPair S.sought S.held S.verdict) IsVerifiedBy }
    ensures crls { PairsAlongMap C.cert C.crl (IsPair C.sought C.held C.verdict) HasCrl }
{}

/// CAs with their CRLs, as walks see them, are the authorities of the definitions.
pub fn placed_are_authorities<C: CarriedCert<R>, R>()
    ensures { PlacedAreAuthorities C.cert C.crl }
{}

/// With distinct identifiers, where keys, signers or CAs are not paired off, but for memory, no
/// paths are accepted.
pub fn unmatched_is_not_accepted()
    ensures { UnmatchedIsNotAccepted }
{}

/// With distinct identifiers an attestation is refused, but for memory, only where a certificate is
/// not good or no paths are accepted.
pub fn refusal_is_right<X: Candidate<C>, C: Certificate>()
    ensures { RefusalIsRight X.is_good X.because X.seen X.of_ca }
{}

/// With distinct identifiers and a matching, whatever has the identifier that is sought also has the
/// verdict, so that each signer and each CA asks for one (`cost` of `accept`).
pub fn matching_is_cheap()
    ensures { MatchingIsCheap }
{}

/// With distinct identifiers and a matching, where the pairings and the walks each ask for what they
/// cost, they ask in all for at most s + l + s * a verdicts, of s signers, l CRLs and a CAs (`cost` of
/// `accept`).
pub fn verdicts_are_few()
    ensures { VerdictsAreFew }
{}
