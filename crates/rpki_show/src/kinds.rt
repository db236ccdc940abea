//! The table of the kinds, and what each kind brings.

ghost use Rattle.std.specs.Prelude.{◌≡◌, ℕ, List};
ghost use Rattle.rpki_sigobj.specs.Signed.Kind as signed;
ghost use Rattle.rpki_cli.specs.Answer.{Output, said};
ghost use Rattle.rpki_cli.specs.Options.{provider_limit, manifest_rule};
ghost use Rattle.rpki_cli.specs.declared.words.Options.{Options};
ghost use Rattle.rpki_show.specs.Grows.{Grows};
ghost use Rattle.rpki_show.specs.Kinds.{OfKindIn};
ghost use Rattle.rpki_show.specs.Texts.Aspa.{aspa_text};
ghost use Rattle.rpki_show.specs.Texts.Manifest.{manifest_text};
ghost use Rattle.rpki_show.specs.Texts.Roa.{roa_text};
ghost use Rattle.rpki_show.specs.Texts.Rsc.{rsc_text};
ghost use Rattle.rpki_show.specs.declared.texts.serial.Hexadecimal.{Hexadecimal};
ghost use Rattle.rpki_show.specs.declared.texts.serial.Hexadecimal.TheVariants.{Plain};

use crate::json::aspa::put_aspa;
use crate::json::checklist::put_checklist;
use crate::json::manifest::put_manifest;
use crate::json::roa::put_roa;
use crate::json::values::Members;
use crate::texts::aspa::push_aspa;
use crate::texts::manifest::push_manifest;
use crate::texts::roa::push_roa;
use crate::texts::rsc::push_rsc;
use crate::texts::serial::Hexadecimal;
use rpki_basics::{ManifestRule, ProviderLimit};
use rpki_cli::answer::Answer;
use rpki_cli::words::{Kind, Options};
use rpki_files::{ManifestContent, ResourceSignedChecklist};
use rpki_routes::{AsProviderAttestation, RouteOriginAttestation};
use rpki_sigobj::Content;
use std::alloc::{AllocError, Global};

/// A content that has lines.
pub trait Lines: Content {
    // How it is read with these options.
    ghost rule_of: { Options → Self.Rule };

    // Its lines, with numbers in hexadecimal written so.
    ghost lines: { Hexadecimal → Self → List ℕ };

    /// How it is read with these options.
    fn rule(options: Options) -> Self::Rule
        ensures { result ≡ rule_of options };

    /// Appends its lines, with numbers in hexadecimal written so. Where memory runs out, nothing is
    /// promised of the text.
    fn push(&self, alloc: Global, text: &mut String, way: Hexadecimal) -> Result<(), AllocError>
        ensures { Grows result text.old text.new (lines way self.now) };

    /// Puts its members in JSON.
    fn put_members(&self, alloc: Global, members: &mut Members) -> Result<(), AllocError>;
}

/// What is answered in the same way for each kind.
pub trait Action: Drop {
    // How numbers in hexadecimal are written in lines.
    ghost way: { Hexadecimal } = { Plain };

    // What is said, with these options, by the row of a kind: what is asked of its objects, the
    // form of its contents, and their lines.
    ghost says: { Options → (X : Type 0) → signed.ObjectKind X → (List ℕ → X → Type 0)
        → (X → List ℕ) → Self → Output → Type 0 };

    /// Answers for the kind with such contents.
    fn answer<'a, C: Lines>(self, alloc: Global, options: Options) -> Answer<'a>
        ensures { says options C C.kind (C.form (C.rule_of options)) (C.lines way) self
            (said result) };
}

/// Answers by the action for a kind: a row for each kind.
pub fn answer_for<'a, A: Action>(
    alloc: Global,
    options: Options,
    kind: Kind,
    action: A,
) -> Answer<'a>
    ensures { OfKindIn A.way options kind (λ X asked form text.
        A.says options X asked form text action (said result)) }
{
    match kind {
        Kind::Aspa => action.answer::<AsProviderAttestation>(alloc, options),
        Kind::Manifest => action.answer::<ManifestContent>(alloc, options),
        Kind::Roa => action.answer::<RouteOriginAttestation>(alloc, options),
        Kind::Rsc => action.answer::<ResourceSignedChecklist>(alloc, options),
    }
}

impl Lines for AsProviderAttestation {
    ghost rule_of = { provider_limit };

    ghost lines = { λ _. aspa_text };

    fn rule(options: Options) -> ProviderLimit {
        options.provider_limit()
    }

    fn push(&self, _: Global, text: &mut String, _: Hexadecimal) -> Result<(), AllocError> {
        push_aspa(text, self)
    }

    fn put_members(&self, alloc: Global, members: &mut Members) -> Result<(), AllocError> {
        put_aspa(alloc, members, self)
    }
}

impl Lines for ManifestContent {
    ghost rule_of = { manifest_rule };

    ghost lines = { manifest_text };

    fn rule(options: Options) -> ManifestRule {
        options.manifest_rule()
    }

    fn push(&self, alloc: Global, text: &mut String, way: Hexadecimal) -> Result<(), AllocError> {
        push_manifest(alloc, text, way, self)
    }

    fn put_members(&self, alloc: Global, members: &mut Members) -> Result<(), AllocError> {
        put_manifest(alloc, members, self)
    }
}

impl Lines for RouteOriginAttestation {
    ghost rule_of = { λ _. tt };

    ghost lines = { λ _. roa_text };

    fn rule(_options: Options) {}

    fn push(&self, _: Global, text: &mut String, _: Hexadecimal) -> Result<(), AllocError> {
        push_roa(text, self)
    }

    fn put_members(&self, alloc: Global, members: &mut Members) -> Result<(), AllocError> {
        put_roa(alloc, members, self)
    }
}

impl Lines for ResourceSignedChecklist {
    ghost rule_of = { λ _. tt };

    ghost lines = { λ _. rsc_text };

    fn rule(_options: Options) {}

    fn push(&self, _: Global, text: &mut String, _: Hexadecimal) -> Result<(), AllocError> {
        push_rsc(text, self)
    }

    fn put_members(&self, alloc: Global, members: &mut Members) -> Result<(), AllocError> {
        put_checklist(alloc, members, self)
    }
}
