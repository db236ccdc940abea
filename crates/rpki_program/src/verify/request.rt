//! What the program is asked.

use rpki_basics::{ProviderLimit, Time};
use rpki_payloads::formats::PayloadFormat;
use rpki_validation::question::Manner;

/// When a check is made.
#[derive(Clone, Copy, Debug, PartialEq, Eq)]
pub enum When {
    /// At the moment that the clock tells.
    Now,
    /// At this one.
    At(Time),
}

/// What the name of a file, or a word for it, says of it.
#[derive(Clone, Copy, Debug, PartialEq, Eq)]
pub enum FileKind {
    /// A Route Origin Authorization.
    Roa,
    /// An Autonomous System Provider Authorization.
    Aspa,
    /// A manifest.
    Manifest,
    /// An RPKI Signed Checklist.
    Checklist,
    /// A Resource Tagged Attestation.
    Attestation,
    /// A certificate.
    Certificate,
    /// A revocation list.
    RevocationList,
    /// A trust anchor locator.
    Locator,
}

/// The certificates and lists that a check rests on, as files.
#[derive(Drop)]
pub struct IssuerFiles<'a> {
    /// The certificate of a trust anchor.
    pub ta: &'a str,
    /// Its locator.
    pub tal: Option<&'a str>,
    /// The certificates of CAs, each under the one before.
    pub cas: Vec<&'a str>,
    /// Revocation lists.
    pub crls: Vec<&'a str>,
}

/// To check files.
#[derive(Drop)]
pub struct CheckRequest<'a> {
    pub at: When,
    pub manner: Manner,
    /// Whether the answer is JSON.
    pub json: bool,
    /// The kind of the files, if it is not for their names to say.
    pub kind: Option<FileKind>,
    pub under: IssuerFiles<'a>,
    pub files: Vec<&'a str>,
}

/// To check a manifest or a checklist, and the files of a folder against it.
#[derive(Drop)]
pub struct FilesRequest<'a> {
    pub at: When,
    pub manner: Manner,
    /// Whether the answer is JSON.
    pub json: bool,
    pub under: IssuerFiles<'a>,
    pub object: &'a str,
    pub folder: &'a str,
}

/// To check an attestation under anchors: locators, tal=FILE, and CAs, ca=TA[:CA ..].
#[derive(Drop)]
pub struct RtaRequest<'a> {
    pub at: When,
    pub object: &'a str,
    pub anchors: Vec<&'a str>,
}

/// To show what files say.
#[derive(Drop)]
pub struct ShowRequest<'a> {
    pub manner: Manner,
    /// Whether the answer is JSON.
    pub json: bool,
    /// The kind of the files, if it is not for their names to say.
    pub kind: Option<FileKind>,
    pub files: Vec<&'a str>,
}

/// To list the good ones of the signatures that a check of an object asks about.
#[derive(Drop)]
pub struct VerdictsRequest<'a> {
    pub manner: Manner,
    /// The certificate of a trust anchor.
    pub ta: &'a str,
    /// The certificates of CAs, each under the one before.
    pub cas: Vec<&'a str>,
    pub object: &'a str,
}

/// To list the good ones of the signatures that a check of an attestation may ask about.
#[derive(Drop)]
pub struct RtaVerdictsRequest<'a> {
    pub object: &'a str,
    pub anchors: Vec<&'a str>,
}

/// To list the payloads under locators, as a copy of the repositories has them.
#[derive(Drop)]
pub struct PayloadsRequest<'a> {
    pub at: When,
    pub providers: ProviderLimit,
    pub format: PayloadFormat,
    /// Files of exceptions (RFC 8416).
    pub slurm: Vec<&'a str>,
    /// How much work there is under a locator, at most.
    pub limit: Option<u64>,
    /// How many octets a file has that is read, at most.
    pub max_file: Option<u64>,
    /// Whether the progress is told.
    pub verbose: bool,
    /// The folder of the copy.
    pub copy: &'a str,
    pub tals: Vec<&'a str>,
}

/// To explain why an object of a copy of the repositories counts, or not.
#[derive(Drop)]
pub struct ExplainRequest<'a> {
    pub at: When,
    /// The folder of the copy.
    pub copy: &'a str,
    pub tal: &'a str,
    /// The file or the URI of the object.
    pub target: &'a str,
}

/// A command.
#[derive(Clone, Copy, Debug, PartialEq, Eq)]
pub enum CommandName {
    Check,
    Files,
    Rta,
    Show,
    Verdicts,
    Payloads,
    Explain,
}

/// What the program is asked.
#[derive(Drop)]
pub enum Request<'a> {
    Check(CheckRequest<'a>),
    Files(FilesRequest<'a>),
    Rta(RtaRequest<'a>),
    Show(ShowRequest<'a>),
    Verdicts(VerdictsRequest<'a>),
    RtaVerdicts(RtaVerdictsRequest<'a>),
    Payloads(PayloadsRequest<'a>),
    Explain(ExplainRequest<'a>),
    /// How the program, or a command of it, is called.
    Help(Option<CommandName>),
    /// The table of commands and options, for tools.
    Options,
    /// Which version of the program this is.
    Version,
}
