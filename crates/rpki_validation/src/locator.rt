//! Locators of trust anchors.

ghost use Rattle.std.specs.Prelude.{◌≡◌, ◌↔◌, IsTrue, option_map};
ghost use Rattle.rpki_validation.specs.Locator.{IsFaultOf, IsLocatorFound, IsLocatorRead, IsTold};
ghost use Rattle.rpki_validation.specs.Locator.{is_memory_of_locator};

use crate::refusal::Refusal;
use bytes::Bytes;
use rpki_certs::{Cert, read_cert};
use rpki_der::DecodeError;
use rpki_show::locator_of;
use rpki_tal::{ReadError, Tal};
use std::alloc::Global;

/// Why a locator is not that of a trust anchor.
#[derive(Clone, Copy, Debug, PartialEq, Eq)]
pub enum LocatorFault {
    /// Memory ran out.
    Memory,
    /// The octets are no locator.
    NoLocator,
    /// What is to be the certificate of the trust anchor is none.
    NoCertificate,
    /// The certificate has another key.
    OtherKey,
}

impl LocatorFault {
    /// Whether it is want of memory.
    pub fn is_memory(self) -> bool
        ensures { result ≡ is_memory_of_locator self }
    {
        match self {
            LocatorFault::Memory => true,
            LocatorFault::NoLocator => false,
            LocatorFault::NoCertificate => false,
            LocatorFault::OtherKey => false,
        }
    }
}

/// Why octets are not read as a locator.
#[derive(Clone, Copy, Debug, PartialEq, Eq)]
enum NotLocator {
    /// Memory ran out.
    Memory,
    /// They are none.
    NoLocator,
}

/// Whether a certificate has the key of a locator.
pub fn has_key(cert: &Cert, locator: &Tal) -> bool
    ensures { IsTrue result ↔ (cert.now.certificate.tbs.key ≡ locator.now.key) }
{
    cert.subject_public_key_info().bits() == locator.key_info().bits()
}

/// The locator that the octets are.
fn read_locator(alloc: Global, octets: &Bytes) -> Result<Tal, NotLocator>
    ensures { IsLocatorRead octets.now result }
{
    match locator_of(alloc, octets.as_slice()) {
        Ok(locator) => Ok(locator),
        Err(error) => Err(fault_of(error)),
    }
}

/// Why octets are no locator.
fn fault_of(error: ReadError) -> NotLocator
    ensures { IsFaultOf error result }
{
    match error {
        ReadError::Memory => NotLocator::Memory,
        ReadError::Io
        | ReadError::UnexpectedEof
        | ReadError::BadUri(_)
        | ReadError::BadKeyInfoEncoding
        | ReadError::BadKeyInfo(_) => NotLocator::NoLocator,
    }
}

/// The locator that the octets are, if there are any.
pub fn locator_in(alloc: Global, octets: Option<&Bytes>) -> Result<Option<Tal>, Refusal>
    ensures { IsTold (option_map (λ o. o.now) octets.entry) result }
{
    match octets {
        None => Ok(None),
        Some(octets) => match read_locator(alloc, octets) {
            Ok(locator) => Ok(Some(locator)),
            Err(NotLocator::Memory) => Err(Refusal::Memory),
            Err(NotLocator::NoLocator) => Err(Refusal::NoLocator),
        },
    }
}

/// The locator that the octets are, which has the key of the certificate of a trust anchor.
pub fn locator_under(alloc: Global, octets: &Bytes, anchor: &Bytes) -> Result<Tal, LocatorFault>
    ensures { IsLocatorFound anchor.now octets.now result }
{
    match read_locator(alloc, octets) {
        Err(NotLocator::Memory) => Err(LocatorFault::Memory),
        Err(NotLocator::NoLocator) => Err(LocatorFault::NoLocator),
        Ok(locator) => match read_cert(alloc, anchor) {
            Err(DecodeError::Memory) => {
                drop(locator);
                Err(LocatorFault::Memory)
            }
            Err(DecodeError::Malformed) => {
                drop(locator);
                Err(LocatorFault::NoCertificate)
            }
            Err(DecodeError::Content(_)) => {
                drop(locator);
                Err(LocatorFault::NoCertificate)
            }
            Ok(cert) => {
                let is_its = has_key(&cert, &locator);
                drop(cert);
                if is_its {
                    Ok(locator)
                } else {
                    drop(locator);
                    Err(LocatorFault::OtherKey)
                }
            }
        },
    }
}
