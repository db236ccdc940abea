//! The version of a content.

ghost use Rattle.rpki_der.specs.Read.Parse.{primitive, this};
ghost use Rattle.rpki_der.specs.Read.Reads.{Reads};
ghost use Rattle.rpki_der.specs.Tags.{INTEGER};

use crate::faults;
use rpki_der::{Constructed, DecodeError};

/// Reads the number of the version, which is 0. Refuses another one by `WRONG_VERSION`, and all
/// else by `Malformed`.
#[tactic(auto, using(crate::proofs::Versions::zero_read, crate::proofs::Versions::other_read, crate::proofs::Versions::none_read))]
pub fn take_version(cons: &mut Constructed<'_>) -> Result<(), DecodeError>
    ensures { Reads (λ u. u) (primitive INTEGER (this 0)) cons.old result cons.new }
{
    if cons.take_u8()? == 0 {
        Ok(())
    } else {
        Err(cons.refuse_for(faults::WRONG_VERSION))
    }
}
