//! Why something is not built.

ghost use Rattle.std.specs.Prelude.{◌≡◌, Some};
ghost use Rattle.rpki_basics.specs.Build.{fault_text, error_text};
ghost use Rattle.rpki_basics.specs.declared.build.BuildError.TheVariants.{Memory};

use std::alloc::{AllocError, AllocFailed};
use std::error::Error;
use std::fmt;

/// Why a content is not built: the rule of its kind that it breaks.
#[derive(Debug, Drop)]
pub enum BuildFault {
    /// A manifest's thisUpdate comes after its nextUpdate.
    UpdateOrder,
    /// The name of a manifest's file is no name of a file.
    BadName,
    /// A prefix has more bits than an address of its family.
    PrefixTooLong,
    /// A maximum length is below the length of its prefix, or above that of an address.
    BadMaxLength,
    /// A ROA has no address.
    EmptyRoa,
    /// The customer of an ASPA is AS0.
    CustomerAs0,
    /// An ASPA has no provider.
    Empty,
    /// An ASPA has too many providers.
    TooMany,
    /// The customer of an ASPA is one of its providers.
    CustomerInSet,
    /// AS0 is a provider beside another one.
    As0NotAlone,
    /// An attestation names no resources.
    NoResources,
    /// The type of a manifest's file is not registered.
    BadExtension,
    /// The name of a manifest's file comes twice.
    RepeatedName,
}

impl BuildFault {
    /// What is wrong, in words.
    pub fn text(&self) -> &'static str
        ensures { result.now ≡ fault_text self.now }
    {
        match self {
            BuildFault::UpdateOrder => "thisUpdate is after nextUpdate",
            BuildFault::BadName => "bad file name",
            BuildFault::PrefixTooLong => "prefix too long",
            BuildFault::BadMaxLength => "bad maximum length",
            BuildFault::EmptyRoa => "ROA without addresses",
            BuildFault::CustomerAs0 => "customer is AS0",
            BuildFault::Empty => "no provider",
            BuildFault::TooMany => "too many providers",
            BuildFault::CustomerInSet => "customer is its own provider",
            BuildFault::As0NotAlone => "AS0 beside another provider",
            BuildFault::NoResources => "no resources",
            BuildFault::BadExtension => "file type not registered",
            BuildFault::RepeatedName => "repeated file name",
        }
    }
}

impl fmt::Display for BuildFault {
    ghost output = { λ fault. Some (fault_text fault) };

    fn fmt<W: fmt::Write>(&self, f: &mut fmt::Formatter<W>) -> fmt::Result {
        f.write_str(self.text())
    }
}

impl Error for BuildFault {}

/// What a call that builds without a signer answers.
#[derive(Debug, Drop)]
pub enum BuildError {
    /// The content breaks a rule of its kind.
    Fault(BuildFault),
    /// Some contents has 2^32 octets or more.
    TooLong,
    /// No memory was to be had.
    Memory,
}

impl fmt::Display for BuildError {
    ghost output = { λ error. Some (error_text error) };

    fn fmt<W: fmt::Write>(&self, f: &mut fmt::Formatter<W>) -> fmt::Result {
        match self {
            BuildError::Fault(fault) => fault.fmt(f),
            BuildError::TooLong => f.write_str("too long"),
            BuildError::Memory => f.write_str("out of memory"),
        }
    }
}

impl Error for BuildError {}

impl From<BuildFault> for BuildError {
    ghost use Rattle.rpki_basics.specs.declared.build.BuildError.TheVariants.{Fault};

    ghost from_gives = { λ fault e. e ≡ Fault fault };

    fn from(fault: BuildFault) -> BuildError {
        BuildError::Fault(fault)
    }
}

impl From<AllocError> for BuildError {
    ghost from_gives = { λ _ e. e ≡ Memory };

    fn from(_e: AllocError) -> BuildError {
        BuildError::Memory
    }
}

impl<T: Drop> From<AllocFailed<T>> for BuildError {
    ghost from_gives = { λ _ e. e ≡ Memory };

    fn from(_e: AllocFailed<T>) -> BuildError {
        BuildError::Memory
    }
}
