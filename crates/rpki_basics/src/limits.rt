//! What is asked of contents beyond their grammar, as a choice of the caller.

ghost use Rattle.std.specs.Prelude.{◌≡◌};
ghost use Rattle.rpki_basics.specs.Limits.{most_providers};

/// Which file names a manifest may have.
#[derive(Clone, Copy, Debug, PartialEq, Eq)]
pub enum ManifestRule {
    /// Any name of `[A-Za-z0-9_-]+`, a dot and three ASCII letters, and the same name more than
    /// once: wider than RFC 9286, section 4.2.2, by this project's own rule.
    Any,
    /// As `Any`, where the three letters are, without regard to case, one of `asa`, `cer`, `crl`,
    /// `gbr`, `mft`, `roa`, `sig` and `tak`, and no name comes twice. The list is this project's
    /// own.
    Registered,
}

/// How many providers an ASPA may have.
#[derive(Clone, Copy, Debug, PartialEq, Eq)]
pub enum ProviderLimit {
    /// At most 10000.
    Narrow,
    /// At most 16380.
    Wide,
}

impl ProviderLimit {
    /// The greatest number of providers.
    pub fn most(self) -> u32
        ensures { result ≡ most_providers self }
    {
        match self {
            ProviderLimit::Narrow => 10_000,
            ProviderLimit::Wide => 16_380,
        }
    }
}
