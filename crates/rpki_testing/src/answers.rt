//! What calls answer.

ghost use Rattle.std.specs.Prelude.{◌≡◌, IfOk, Ok};

use crate::fail::Fail;
use std::alloc::Global;
use std::fmt::Display;

/// Why a test ends early where a call is refused so.
fn ended_by<E: Display>(alloc: Global, error: &E) -> Fail {
    match format!(in alloc; "{error}") {
        Err(_) => Fail::Memory,
        Ok(text) if text.as_str() == "out of memory" => Fail::Memory,
        Ok(_) => Fail::Refused,
    }
}

/// The value that is answered. A refusal ends the test.
pub fn ok<T, E: Display + Drop>(alloc: Global, answer: Result<T, E>) -> Result<T, Fail>
    ensures { IfOk result (λ value. answer ≡ Ok value) }
{
    match answer {
        Ok(value) => Ok(value),
        Err(error) => Err(ended_by(alloc, &error)),
    }
}

/// `yes` where a value is answered, which is let go, and the text of a refusal. Want of memory ends
/// the test.
pub fn said<T: Drop, E: Display + Drop>(
    alloc: Global,
    answer: Result<T, E>,
) -> Result<String, Fail> {
    match answer {
        Ok(value) => {
            drop(value);
            Ok(String::from_str(alloc, "yes")?)
        }
        Err(error) => {
            let text = format!(in alloc; "{error}")?;
            if text.as_str() == "out of memory" {
                return Err(Fail::Memory);
            }
            Ok(text)
        }
    }
}
