//! The kinds of signed objects, and what each brings.

ghost use Rattle.std.specs.Prelude.{◌≡◌, ◌↔◌, ℕ, IsTrue, List, MatchOption};
ghost use Rattle.rpki_show.specs.Grows.{Grows};
ghost use Rattle.rpki_show.specs.Texts.Aspa.{aspa_text};
ghost use Rattle.rpki_show.specs.Texts.Manifest.{manifest_text};
ghost use Rattle.rpki_show.specs.Texts.Roa.{roa_text};
ghost use Rattle.rpki_show.specs.Texts.Rsc.{rsc_text};
ghost use Rattle.rpki_show.specs.declared.texts.serial.Hexadecimal.TheVariants.{Plain};
ghost use Rattle.rpki_sigobj.specs.Object.{mode_of};
ghost use Rattle.rpki_validation.specs.Kinds.{IsNamed, type_of};
ghost use Rattle.rpki_validation.specs.declared.kinds.Kind.{Kind as KindOf};
ghost use Rattle.rpki_validation.specs.declared.question.Manner.{Manner as MannerOf};

use crate::question::Manner;
use bytes::Bytes;
use rpki_basics::{ManifestRule, ProviderLimit};
use rpki_der::{DecodeError, Oid};
use rpki_files::{ManifestContent, ResourceSignedChecklist};
use rpki_routes::{AsProviderAttestation, RouteOriginAttestation};
use rpki_show::texts::aspa::push_aspa;
use rpki_show::texts::manifest::push_manifest;
use rpki_show::texts::roa::push_roa;
use rpki_show::texts::rsc::push_rsc;
use rpki_show::texts::serial::Hexadecimal;
use rpki_sigobj::{Content, SignedObject};
use std::alloc::{AllocError, Global};

/// A kind of signed objects.
#[derive(Clone, Copy, Drop)]
pub enum Kind {
    Roa,
    Aspa,
    Manifest,
    Checklist,
}

/// Whether a type is that of such contents.
fn is_type<T: Content>(content_type: &Oid) -> bool
    ensures { IsTrue result ↔ (content_type.now ≡ T.kind.type) }
{
    let wanted = T::oid();
    *content_type == wanted
}

/// The kind whose contents have this type, if there is one.
fn kind_of_type(content_type: &Oid) -> Option<Kind>
    ensures { MatchOption result ((k : KindOf) → content_type.now ≡ type_of k → ⊥)
        (λ k. content_type.now ≡ type_of k) }
{
    if is_type::<RouteOriginAttestation>(content_type) {
        Some(Kind::Roa)
    } else if is_type::<AsProviderAttestation>(content_type) {
        Some(Kind::Aspa)
    } else if is_type::<ManifestContent>(content_type) {
        Some(Kind::Manifest)
    } else if is_type::<ResourceSignedChecklist>(content_type) {
        Some(Kind::Checklist)
    } else {
        None
    }
}

/// The kind that the content type of the object at the front of octets names, if it names one.
/// Refuses where memory runs out.
pub fn kind_in(alloc: Global, octets: &Bytes, strict: bool) -> Result<Option<Kind>, AllocError>
    ensures { IsNamed (mode_of strict) octets.now result }
{
    let Ok(source) = octets.clone() else {
        return Err(AllocError);
    };
    match SignedObject::decode(alloc, source, strict) {
        Err(DecodeError::Memory) => Err(AllocError),
        Err(DecodeError::Malformed) => Ok(None),
        Err(DecodeError::Content(_)) => Ok(None),
        Ok(object) => {
            let kind = kind_of_type(object.content_type());
            drop(object);
            match kind {
                Some(kind) => Ok(Some(kind)),
                None => Ok(None),
            }
        }
    }
}

/// A content that has lines.
pub trait Lines: Content {
    // How it is read in this manner.
    ghost rule_in: { MannerOf → Self.Rule };

    // Its lines.
    ghost lines: { Self → List ℕ };

    /// How it is read in this manner.
    fn rule(manner: Manner) -> Self::Rule
        ensures { result ≡ rule_in manner };

    /// Appends its lines. Where memory runs out, nothing is promised of the text.
    fn push(&self, alloc: Global, text: &mut String) -> Result<(), AllocError>
        ensures { Grows result text.old text.new (lines self.now) };
}

impl Lines for RouteOriginAttestation {
    ghost rule_in = { λ _. tt };

    ghost lines = { roa_text };

    fn rule(_manner: Manner) {}

    fn push(&self, _: Global, text: &mut String) -> Result<(), AllocError> {
        push_roa(text, self)
    }
}

impl Lines for AsProviderAttestation {
    ghost rule_in = { λ m. m.limit };

    ghost lines = { aspa_text };

    fn rule(manner: Manner) -> ProviderLimit {
        manner.limit
    }

    fn push(&self, _: Global, text: &mut String) -> Result<(), AllocError> {
        push_aspa(text, self)
    }
}

impl Lines for ManifestContent {
    ghost rule_in = { λ m. m.names };

    ghost lines = { manifest_text Plain };

    fn rule(manner: Manner) -> ManifestRule {
        manner.names
    }

    fn push(&self, alloc: Global, text: &mut String) -> Result<(), AllocError> {
        push_manifest(alloc, text, Hexadecimal::Plain, self)
    }
}

impl Lines for ResourceSignedChecklist {
    ghost rule_in = { λ _. tt };

    ghost lines = { rsc_text };

    fn rule(_manner: Manner) {}

    fn push(&self, _: Global, text: &mut String) -> Result<(), AllocError> {
        push_rsc(text, self)
    }
}
