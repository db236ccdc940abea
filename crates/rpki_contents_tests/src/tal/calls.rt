//! Copies of a URI and of a name.

use rpki_basics::uri;
use rpki_tal::{TalInfo, TalUri};
use std::alloc::{AllocError, Global};

/// Whether the copy of a URI has its text.
fn is_copied(alloc: Global) -> Result<bool, AllocError> {
    match TalUri::from_slice(alloc, b"https://a/b") {
        Ok(uri) => Ok(uri.clone()?.as_str() == "https://a/b"),
        Err(uri::Error::Memory) => Err(AllocError),
        Err(_) => Ok(false),
    }
}

/// Whether the name of a locator is that of its copy, and is shared.
fn is_shared(alloc: Global) -> Result<bool, AllocError> {
    let info = TalInfo::from_name(String::from_str(alloc, "a name")?);
    let copy = info.clone()?;
    let shared = info.into_rc(alloc)?;
    Ok(copy.name() == "a name" && shared.as_ref().name() == "a name")
}

#[test]
fn calls(rt: HostRuntime) -> Result<(), AllocError> {
    assert!(rt; is_copied(rt.alloc())? && is_shared(rt.alloc())?);
    Ok(())
}
