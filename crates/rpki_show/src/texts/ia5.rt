//! Names in IA5 characters.

ghost use Rattle.std.specs.Prelude.{Some};
ghost use Rattle.rpki_show.specs.Ia5.{ia5_text};

use std::fmt;
use std::fmt::Write;

/// Octets whose Display are the characters of these codes, as they are of an IA5String.
#[derive(Clone, Copy)]
pub struct Ia5<'a>(pub &'a [u8]);

impl fmt::Display for Ia5<'_> {
    ghost output = { λ s. Some (ia5_text s.0.now) };

    fn fmt<W: fmt::Write>(&self, f: &mut fmt::Formatter<W>) -> fmt::Result {
        for code in self.0 {
            let character = char::from(*code);
            write!(f, "{character}")?;
        }
        Ok(())
    }
}
