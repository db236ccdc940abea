//! Contents of AS provider attestations that are read and written
//! (draft-ietf-sidrops-aspa-profile-15, section 3).

use crate::contents::{Content, Octets, are_rows};
use bytes::Bytes;
use rpki_basics::ProviderLimit;
use rpki_der::{DecodeError, Encode, EncodeError, Mode};
use rpki_routes::AsProviderAttestation;
use std::alloc::{AllocError, Global};

impl Content for AsProviderAttestation {
    // (it is read in DER alone)
    fn read(
        _alloc: Global,
        source: Bytes,
        _mode: Mode,
    ) -> Result<AsProviderAttestation, DecodeError> {
        AsProviderAttestation::decode(source, ProviderLimit::Narrow)
    }

    fn write(&self, alloc: Global) -> Result<Vec<u8>, EncodeError> {
        self.encode_ref().to_bytes(alloc)
    }
}

/// AS15562 with four providers.
pub const CONTENT: &[u8] = b"\x30\x1D\xA0\x03\x02\x01\x01\x02\x02\x3C\xCA\x30\x12\x02\x02\x0B\x62\
    \x02\x02\x20\x5B\x02\x03\x00\xC7\x90\x02\x03\x03\x25\x9E";

/// Contents.
pub static WRITTEN: [Octets; 3] = [
    (CONTENT, Ok(CONTENT)),
    // AS0 alone.
    (
        b"\x30\x0E\xA0\x03\x02\x01\x01\x02\x02\x3C\xCA\x30\x03\x02\x01\x00",
        Ok(b"\x30\x0E\xA0\x03\x02\x01\x01\x02\x02\x3C\xCA\x30\x03\x02\x01\x00"),
    ),
    // The largest numbers.
    (
        b"\x30\x15\xA0\x03\x02\x01\x01\x02\x05\x00\xFF\xFF\xFF\xFE\x30\x07\x02\x05\x00\xFF\xFF\xFF\
            \xFF",
        Ok(
            b"\x30\x15\xA0\x03\x02\x01\x01\x02\x05\x00\xFF\xFF\xFF\xFE\x30\x07\x02\x05\x00\xFF\
            \xFF\xFF\xFF",
        ),
    ),
];

#[test]
fn rows(rt: HostRuntime) -> Result<(), AllocError> {
    assert!(rt; are_rows::<AsProviderAttestation>(rt.alloc(), &WRITTEN)?);
    Ok(())
}
