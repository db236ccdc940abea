//! What the tests of all modules share: rows of tables, what calls answer, and blocks of numbers.

use rpki_resources::{Addr, AsBlock, AsBlocksBuilder, Asn, IpBlock, IpBlocksBuilder, Prefix};
use rpki_testing::{Fail, said};
use std::alloc::{AllocError, Global};
use std::fmt::Display;

/// A row of a table.
pub trait Row {
    /// Whether it is as it says. Want of memory is handed on.
    fn is_so(&self, alloc: Global) -> Result<bool, Fail>;
}

/// Whether all rows are as they say.
pub fn are_so<R: Row>(alloc: Global, rows: &[R]) -> Result<bool, Fail> {
    for row in rows {
        if !row.is_so(alloc)? {
            return Ok(false);
        }
    }
    Ok(true)
}

/// Whether a call answers so: `yes` where there is a value, or why there is none.
pub fn is_said<T: Drop, E: Display + Drop>(
    alloc: Global,
    answer: Result<T, E>,
    want: &str,
) -> Result<bool, Fail> {
    Ok(said(alloc, answer)?.as_str() == want)
}

/// A value that is read, and what it says.
pub trait Says {
    fn text(&self, alloc: Global) -> Result<String, AllocError>;
}

/// Whether what is read says this, or is refused so.
pub fn is_told<T: Says + Drop, E: Display + Drop>(
    alloc: Global,
    answer: Result<T, E>,
    want: &str,
) -> Result<bool, Fail> {
    match answer {
        Err(error) => is_said(alloc, Err::<(), _>(error), want),
        Ok(value) => {
            let text = value.text(alloc);
            drop(value);
            Ok(text?.as_str() == want)
        }
    }
}

/// Octets, or why there are none.
pub type Octets = Result<&'static [u8], &'static str>;

/// Whether a call answers these octets, or says that there are none for this.
pub fn is_answer<E: Display + Drop>(
    alloc: Global,
    answer: Result<Vec<u8>, E>,
    want: &Octets,
) -> Result<bool, Fail> {
    match (answer, want) {
        (Ok(octets), Ok(want)) => Ok(octets.as_slice() == *want),
        (Ok(_), Err(_)) => Ok(false),
        (Err(error), Ok(_)) => is_said(alloc, Err::<(), _>(error), "yes"),
        (Err(error), Err(text)) => is_said(alloc, Err::<(), _>(error), text),
    }
}

/// AS64496, and AS1 to AS3 in two blocks that touch.
pub fn push_numbers(blocks: &mut AsBlocksBuilder) -> Result<(), AllocError> {
    blocks.push(AsBlock::Id(Asn::from_u32(64496)))?;
    blocks.push(AsBlock::Range(Asn::from_u32(2), Asn::from_u32(3)))?;
    blocks.push(AsBlock::Id(Asn::from_u32(1)))
}

/// fd00::/8 and 2001:db8::/32.
pub fn push_addresses(blocks: &mut IpBlocksBuilder) -> Result<(), AllocError> {
    let first = Addr::from_bits(0xFD << 120);
    blocks.push(IpBlock::Prefix(Prefix::new(first, 8)))?;
    let first = Addr::from_bits(0x2001_0DB8 << 96);
    blocks.push(IpBlock::Prefix(Prefix::new(first, 32)))
}
