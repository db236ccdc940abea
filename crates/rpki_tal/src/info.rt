//! The name of a trust anchor locator.

ghost use Rattle.std.specs.Prelude.{◌≡◌, IfOk};
ghost use Rattle.std.specs.String.{string_bytes};

use std::alloc::{AllocError, Global};
use std::marker::Model;
use std::rc::Rc;

/// The name of a trust anchor locator. Contracts see it as the octets of the name.
#[derive(Debug, Drop)]
pub struct TalInfo {
    name: String,
}

impl Model for TalInfo {
    ghost use Rattle.std.specs.Prelude.{ℕ, List};
    ghost use Rattle.std.specs.String.{string_bytes};

    ghost Value = { List ℕ };

    ghost view = { λ info. string_bytes info.name };
}

impl TalInfo {
    /// A `TalInfo` of this name.
    pub fn from_name(name: String) -> TalInfo
        ensures { result ≡ string_bytes name }
    {
        TalInfo { name }
    }

    /// Moves it into an `Rc`. Refused where no memory is to be had.
    pub fn into_rc(self, alloc: Global) -> Result<Rc<TalInfo>, AllocError>
        ensures { IfOk result (λ shared. shared.value ≡ self) }
    {
        Ok(Rc::new(alloc, self)?)
    }

    /// The name.
    pub fn name(&self) -> &str
        ensures { result.now ≡ self.now }
    {
        self.name.as_str()
    }
}

impl Clone for TalInfo {
    ghost is_clone = { λ info copy. copy ≡ info };

    fn clone(&self) -> Result<TalInfo, AllocError> {
        let name = self.name.clone()?;
        Ok(TalInfo { name })
    }
}
