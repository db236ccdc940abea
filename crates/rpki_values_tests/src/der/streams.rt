//! Streams that move one octet a call, and fail at one of them.

use rpki_der::drip::{DripSink, DripSource};
use rpki_der::{Sink, Source, SourceError};
use std::alloc::{AllocError, Global};

static WHOLE: [u8; 13] = [0x30, 0x0B, 2, 2, 0, 0x80, 0x31, 5, 4, 3, 7, 7, 7];

/// Whether a sink with room for so many octets takes these, and fails where there are more.
fn is_full(alloc: Global, room: usize) -> Result<bool, AllocError> {
    let mut sink = DripSink::new(alloc, room)?;
    let is_taken = sink.take_all(&WHOLE).is_ok();
    Ok(is_taken == (room >= WHOLE.len()) && Some(sink.taken()) == WHOLE.get(..room))
}

/// Whether all octets of a source are these. Want of memory is handed on.
fn is_read<S: Source>(alloc: Global, source: &mut S, want: &[u8]) -> Result<bool, AllocError> {
    match source.read_all(alloc) {
        Ok(all) => Ok(all.as_slice() == want),
        Err(SourceError::Io) => Ok(false),
        Err(SourceError::Memory) => Err(AllocError),
    }
}

/// Whether a source gives its octets, one a call, unless the call with this number fails.
fn is_given(alloc: Global, fails_at: u64) -> Result<bool, AllocError> {
    let mut source = DripSource::failing_at(&WHOLE, fails_at);
    let is_whole = is_read(alloc, &mut source, &WHOLE)?;
    let calls = if fails_at == 0 { 14 } else { fails_at };
    Ok(is_whole == (fails_at == 0) && source.calls() == calls)
}

#[test]
fn streams(rt: HostRuntime) -> Result<(), AllocError> {
    let alloc = rt.alloc();
    for k in 0..14usize {
        assert!(rt; is_full(alloc, k)? && is_given(alloc, k as u64)?);
    }
    assert!(rt; is_given(alloc, 14)?);
    Ok(())
}
