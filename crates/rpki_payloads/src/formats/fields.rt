//! Fields of rows, to be printed.

ghost use Rattle.std.specs.Prelude.{◌≡◌, Some};
ghost use Rattle.rpki_payloads.specs.Formats.Fields.{end_seconds, expires_words, max_words};
ghost use Rattle.rpki_payloads.specs.Formats.Fields.{long_words};

use crate::seconds::seconds_of;
use rpki_basics::Time;
use std::fmt;

/// Until when a payload holds, in seconds since 1970; nothing, if forever.
pub(crate) fn end_seconds(until: Option<Time>) -> Option<u64>
    ensures { result ≡ end_seconds until }
{
    match until {
        None => None,
        Some(until) => Some(seconds_of(until)),
    }
}

/// The end of a payload in the words of OpenBGPD, as ` expires 1798761600`.
#[derive(Clone, Copy)]
pub(crate) struct Expires(pub(crate) Option<u64>);

impl fmt::Display for Expires {
    ghost output = { λ e. Some (expires_words e.0) };

    fn fmt<W: fmt::Write>(&self, f: &mut fmt::Formatter<W>) -> fmt::Result {
        match self.0 {
            None => Ok(()),
            Some(expires) => write!(f, " expires {expires}"),
        }
    }
}

/// The maximum length in the words of OpenBGPD, where it is not that of the prefix.
#[derive(Clone, Copy)]
pub(crate) struct MaxLen {
    pub(crate) len: u8,
    pub(crate) max_len: u8,
}

impl fmt::Display for MaxLen {
    ghost output = { λ m. Some (max_words m.len m.max_len) };

    fn fmt<W: fmt::Write>(&self, f: &mut fmt::Formatter<W>) -> fmt::Result {
        if self.max_len == self.len {
            Ok(())
        } else {
            let max_len = self.max_len;
            write!(f, " maxlen {max_len}")
        }
    }
}

/// Until when a payload holds, and the object that says it.
#[derive(Clone, Copy)]
pub(crate) struct Source<'a> {
    pub(crate) until: Option<Time>,
    pub(crate) object: &'a str,
}

impl fmt::Display for Source<'_> {
    ghost output = { λ s. Some (long_words s.until s.object.now) };

    fn fmt<W: fmt::Write>(&self, f: &mut fmt::Formatter<W>) -> fmt::Result {
        match self.until {
            None => f.write_str("asserted"),
            Some(until) => {
                let object = self.object;
                write!(f, "until {until} {object}")
            }
        }
    }
}
