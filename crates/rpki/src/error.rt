//! Why certificates and signed objects are refused, checks in order, and validated sets.

pub use rpki_basics::{BuildError, BuildFault};
pub use rpki_faults::{
    Family, FaultText, InspectionError, KeyUsage, Overclaim, UncoveredPrefix, ValidationError,
    VerificationError, laws, validated,
};
