//! Manifests that are read and written (RFC 9286, section 4.2).

use crate::contents::{Content, Octets, are_relaxed, are_rows};
use bytes::Bytes;
use rpki_basics::ManifestRule;
use rpki_der::{Constructed, DecodeError, Encode, EncodeError, Mode};
use rpki_files::ManifestContent;
use std::alloc::{AllocError, Global};

impl Content for ManifestContent {
    fn read(alloc: Global, source: Bytes, mode: Mode) -> Result<ManifestContent, DecodeError> {
        match mode {
            Mode::Der => ManifestContent::decode(alloc, source, ManifestRule::Any),
            Mode::Ber => Constructed::decode(source, mode, |cons| {
                ManifestContent::take_from(alloc, cons, ManifestRule::Any)
            }),
        }
    }

    fn write(&self, alloc: Global) -> Result<Vec<u8>, EncodeError> {
        self.encode_ref().to_bytes(alloc)
    }
}

/// The file `a.cer`.
const ONE: &[u8] = b"0B\x02\x01\x0C\x18\x0F20240101000000Z\x18\x0F20240108000000Z\x06\x09`\x86H\
    \x01e\x03\x04\x02\x010\x100\x0E\x16\x05a.cer\x03\x05\x00hash";

/// Manifests in DER.
pub static WRITTEN: [Octets; 6] = [
    (ONE, Ok(ONE)),
    (
        b"0X\x02\x01\x0C\x18\x0F20240101000000Z\x18\x0F20240108000000Z\x06\x09`\x86H\x01e\
          \x03\x04\x02\x010&0\x11\x16\x08file.cer\x03\x05\x00hash0\x11\x16\x08file.cer\x03\
          \x05\x00hash",
        Ok(
            b"0X\x02\x01\x0C\x18\x0F20240101000000Z\x18\x0F20240108000000Z\x06\x09`\x86H\x01e\
          \x03\x04\x02\x010&0\x11\x16\x08file.cer\x03\x05\x00hash0\x11\x16\x08file.cer\x03\
          \x05\x00hash",
        ),
    ),
    (
        b"0]\xA0\x03\x02\x01\x00\x02\x01\x0C\x18\x0F20240101000000Z\x18\x0F20240108000000Z\
          \x06\x09`\x86H\x01e\x03\x04\x02\x010&0\x11\x16\x08file.cer\x03\x05\x00hash0\x11\
          \x16\x08file.cer\x03\x05\x00hash",
        Ok(
            b"0X\x02\x01\x0C\x18\x0F20240101000000Z\x18\x0F20240108000000Z\x06\x09`\x86H\x01e\
          \x03\x04\x02\x010&0\x11\x16\x08file.cer\x03\x05\x00hash0\x11\x16\x08file.cer\x03\
          \x05\x00hash",
        ),
    ),
    (
        b"0.\x02\x01\x0C\x17\x0D240101000000Z\x17\x0D240108000000Z\x06\x09`\x86H\x01e\x03\
          \x04\x02\x010\x00",
        Ok(
            b"02\x02\x01\x0C\x18\x0F20240101000000Z\x18\x0F20240108000000Z\x06\x09`\x86H\x01e\
          \x03\x04\x02\x010\x00",
        ),
    ),
    (
        b"0@\x02\x01\x0C\x18\x0F20240101000000Z\x18\x0F20240108000000Z\x06\x09`\x86H\x01e\
          \x03\x04\x02\x010\x0E0\x0C\x16\x05a.cer\x03\x03\x04\xAB\xCF",
        Ok(
            b"0@\x02\x01\x0C\x18\x0F20240101000000Z\x18\x0F20240108000000Z\x06\x09`\x86H\x01e\
          \x03\x04\x02\x010\x0E0\x0C\x16\x05a.cer\x03\x03\x00\xAB\xCF",
        ),
    ),
    (
        b"0>\x02\x01\x0C\x18\x0F20240101000000Z\x18\x0F20240108000000Z\x06\x09`\x86H\x01e\
          \x03\x04\x02\x010\x0C0\x0A\x16\x05a.cer\x03\x01\x00",
        Ok(
            b"0>\x02\x01\x0C\x18\x0F20240101000000Z\x18\x0F20240108000000Z\x06\x09`\x86H\x01e\
          \x03\x04\x02\x010\x0C0\x0A\x16\x05a.cer\x03\x01\x00",
        ),
    ),
];

/// Manifests in BER: their entries stand in DER.
static RELAXED: [Octets; 3] = [
    (
        b"0\x80\x02\x01\x0C\x18\x0F20240101000000Z\x18\x0F20240108000000Z\x06\x09`\x86H\
          \x01e\x03\x04\x02\x010\x100\x0E\x16\x05a.cer\x03\x05\x00hash\x00\x00",
        Ok(ONE),
    ),
    (
        b"0\x81B\x02\x01\x0C\x18\x0F20240101000000Z\x18\x0F20240108000000Z\x06\x09`\x86H\
          \x01e\x03\x04\x02\x010\x100\x0E\x16\x05a.cer\x03\x05\x00hash",
        Ok(ONE),
    ),
    (
        b"0C\x02\x01\x0C\x18\x0F20240101000000Z\x18\x0F20240108000000Z\x06\x09`\x86H\
          \x01e\x03\x04\x02\x010\x110\x81\x0E\x16\x05a.cer\x03\x05\x00hash",
        Err("malformed"),
    ),
];

#[test]
fn rows(rt: HostRuntime) -> Result<(), AllocError> {
    let alloc = rt.alloc();
    assert!(rt;
        are_rows::<ManifestContent>(alloc, &WRITTEN)?
            && are_relaxed::<ManifestContent>(alloc, &RELAXED)?
    );
    Ok(())
}
