//! Whether the subject is a CA.

ghost use Rattle.rpki_der.specs.Form.Decodes.{DecodesNext};
ghost use Rattle.rpki_der.specs.Read.Reads.{Reads, Stays, OnlyMalformed};
ghost use Rattle.rpki_extensions.specs.BasicConstraints.{BasicConstraintsForm, basic_fields_at};
ghost use Rattle.rpki_extensions.specs.BasicConstraints.{basic_constraints_at};

use rpki_der::{Constructed, DecodeError};

// Reads what stands in the SEQUENCE.
#[tactic(auto, unfolding(crate::specs::BasicConstraints::basic_fields_at))]
fn take_fields(cons: &mut Constructed<'_>) -> Result<bool, DecodeError>
    ensures reads { Reads (λ ca. ca) basic_fields_at cons.old result cons.new }
    ensures refused { OnlyMalformed cons.old result }
{
    cons.take_flag()
}

// Reads the constraints.
fn take_constraints(cons: &mut Constructed<'_>) -> Result<bool, DecodeError>
    ensures reads { Reads (λ ca. ca) basic_constraints_at cons.old result cons.new }
    ensures stays { Stays result cons.new }
    ensures refused { OnlyMalformed cons.old result }
{
    cons.take_sequence(take_fields)
}

/// Reads basic constraints: whether the subject is a CA (RFC 5280, section 4.2.1.9). Where it is
/// not said, the subject is none. A length of paths is not allowed (RFC 6487, section 4.8.1).
/// Refuses by `Malformed`.
pub fn take_basic_constraints(cons: &mut Constructed<'_>) -> Result<bool, DecodeError>
    ensures reads { Reads (λ ca. ca) basic_constraints_at cons.old result cons.new }
    ensures decodes { DecodesNext BasicConstraintsForm (λ ca. ca) cons.old result cons.new }
    ensures stays { Stays result cons.new }
    ensures refused { OnlyMalformed cons.old result }
{
    cons.holds_octets();
    take_constraints(cons)
}
