//! Why a file has no members.

use crate::json::values::Members;
use rpki_der::DecodeError;
use std::alloc::{AllocError, Global};

/// Why a file has no members.
#[derive(Debug, Drop)]
pub enum Unshown {
    /// No memory was to be had.
    Memory,
    /// The octets are not, or do not begin with, what was asked for, for this cause. The text is
    /// empty where none is known.
    Malformed(String),
}

/// Why octets that are not read have no members.
pub(crate) fn refusal(alloc: Global, error: DecodeError) -> Unshown {
    match error {
        DecodeError::Memory => Unshown::Memory,
        DecodeError::Malformed => Unshown::Malformed(String::new(alloc)),
        DecodeError::Content(fault) => match fault.to_string(alloc) {
            Ok(cause) => Unshown::Malformed(cause),
            Err(_) => Unshown::Memory,
        },
    }
}

/// These members, unless memory ran out while they were put.
pub(crate) fn shown(filled: Result<(), AllocError>, members: Members) -> Result<Members, Unshown> {
    match filled {
        Ok(()) => Ok(members),
        Err(_) => {
            drop(members);
            Err(Unshown::Memory)
        }
    }
}
