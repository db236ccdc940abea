//! The entries of a revocation list.

ghost use Rattle.std.proofs.Common.{rules};
ghost use Rattle.std.specs.Cmp.Rules.{comparing};
ghost use Rattle.std.specs.Prelude.{◌≡◌, ◌==◌};
ghost use Rattle.rpki_der.specs.Read.Parse.{optional, skip_all_at};
ghost use Rattle.rpki_der.specs.Read.Reads.{Reads};
ghost use Rattle.rpki_der.specs.Form.Parts.{sequence_at};
ghost use Rattle.rpki_der.specs.Tags.{SEQUENCE};
ghost use Rattle.rpki_crls.specs.Entry.{crl_entry_fields_at};

use rpki_basics::{Serial, Time};
use rpki_der::{Constructed, DecodeError, ListItem};
use std::alloc::Global;
use std::marker::Model;

/// A certificate that is revoked (RFC 5280, section 5.1.2.6), of which its serial number is kept.
#[derive(Clone, Copy, Debug)]
pub struct CrlEntry(Serial);

impl Model for CrlEntry {
    ghost use Rattle.std.specs.Prelude.{ℕ};

    ghost Value = { ℕ };

    ghost view = { λ e. e.0 };

    ghost inverse = { λ n. record { 0 = n } };
}

impl CrlEntry {
    /// The entry with this serial number.
    pub fn new(serial: Serial) -> CrlEntry
        ensures { result ≡ serial }
    {
        CrlEntry(serial)
    }

    /// The serial number of the certificate.
    pub fn serial(&self) -> Serial
        ensures { result ≡ self.now }
    {
        self.0
    }
}

impl PartialEq for CrlEntry {
    ghost eq = { λ a b. a == b };

    ghost laws = { Prim.search (comparing, rules) };

    fn eq(&self, other: &CrlEntry) -> bool {
        self.0 == other.0
    }
}

// Skips the extensions of an entry, if there are some.
fn skip_extensions(cons: &mut Constructed<'_>) -> Result<Option<()>, DecodeError>
    ensures { Reads (λ u. u) (optional SEQUENCE (sequence_at skip_all_at))
        cons.old result cons.new }
{
    cons.take_opt_sequence(|cons| cons.skip_all())
}

// Reads what stands in an entry.
#[tactic(auto, unfolding(crate::specs::Entry::crl_entry_fields_at))]
fn take_fields(cons: &mut Constructed<'_>) -> Result<CrlEntry, DecodeError>
    ensures { Reads (λ e. e) crl_entry_fields_at cons.old result cons.new }
{
    let serial = Serial::take_from(cons)?;
    Time::take_from(cons)?;
    skip_extensions(cons)?;
    Ok(CrlEntry(serial))
}

impl ListItem for CrlEntry {
    ghost use Rattle.rpki_der.specs.Tags.{SEQUENCE};
    ghost use Rattle.rpki_crls.specs.Entry.{crl_entry_fields_at, crl_entry_at};

    ghost tag = { SEQUENCE };

    ghost at = { crl_entry_at };

    fn take_opt_from(
        _alloc: Global,
        cons: &mut Constructed<'_>,
    ) -> Result<Option<CrlEntry>, DecodeError> {
        cons.take_opt_sequence(take_fields)
    }
}
