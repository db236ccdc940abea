//! Revocation lists with the dates of their entries, as they are shown.

ghost use Rattle.std.specs.Prelude.{◌≡◌, option_map};
ghost use Rattle.rpki_der.specs.declared.mode.Mode.TheVariants.{Der};
ghost use Rattle.rpki_der.specs.Form.Decodes.{Decodes};
ghost use Rattle.rpki_der.specs.Form.Parts.{sequence_at, sequence_of_at, context_at};
ghost use Rattle.rpki_der.specs.Read.Parse.{optional, skip_all_at};
ghost use Rattle.rpki_der.specs.Read.Reads.{Found, Reads};
ghost use Rattle.rpki_der.specs.Tags.{SEQUENCE};
ghost use Rattle.rpki_crls.specs.Extensions.{crl_extensions_at};
ghost use Rattle.rpki_show.specs.Dated.{DatedForm, entry_fields_at, entry_at, entries_at};
ghost use Rattle.rpki_show.specs.Dated.{tbs_fields_at, contents_at, dated_at};

use bytes::Bytes;
use rpki_basics::{KeyIdentifier, Name, RpkiSignatureAlgorithm, Serial, Time};
use rpki_crls::CrlExtensions;
use rpki_der::laws::slices_hold_octets;
use rpki_der::{Constructed, DecodeError, ListItem, Mode, Tag};
use std::alloc::Global;
use std::marker::Model;

/// The number of the version v2 (RFC 5280, section 5.1.2.1).
const V2: u8 = 1;

/// A certificate that is revoked, and since when (RFC 5280, section 5.1.2.6).
#[derive(Clone, Copy, Debug)]
pub struct DatedEntry {
    /// Its serial number.
    pub serial: Serial,
    /// Since when it is revoked.
    pub date: Time,
}

/// What a revocation list says (RFC 5280, section 5.1.2), but for the name of its issuer.
#[derive(Debug, Drop)]
pub struct DatedCrl {
    this_update: Time,
    next_update: Time,
    revoked: Vec<DatedEntry>,
    extensions: CrlExtensions,
}

impl Model for DatedCrl {
    ghost use Rattle.rpki_show.specs.Dated.{DatedList};

    ghost Value = { DatedList };

    ghost view = { λ d. record {
      this_update = d.this_update;
      next_update = d.next_update;
      revoked = d.revoked.items;
      extensions = d.extensions;
    } };
}

impl DatedCrl {
    /// Reads the revocation list at the front of the source, by the rules of DER. Octets after it
    /// are left. What `Crl::decode` of `rpki_crls` reads as a list is read as one here, and nothing
    /// else (`laws::lists_have_dates`).
    pub fn decode(alloc: Global, source: Bytes) -> Result<DatedCrl, DecodeError>
        ensures { Decodes (DatedForm Der) (λ d. d) source result }
    {
        slices_hold_octets(source.as_slice());
        read_front(alloc, source)
    }

    /// When it was made.
    pub fn this_update(&self) -> Time
        ensures { result ≡ self.now.this_update }
    {
        self.this_update
    }

    /// Until when the next one is made.
    pub fn next_update(&self) -> Time
        ensures { result ≡ self.now.next_update }
    {
        self.next_update
    }

    /// The certificates that are revoked, in their order.
    pub fn revoked(&self) -> &[DatedEntry]
        ensures { result.now ≡ self.now.revoked }
    {
        &self.revoked
    }

    /// Its number (RFC 5280, section 5.2.3).
    pub fn number(&self) -> Serial
        ensures { result ≡ self.now.extensions.number }
    {
        self.extensions.number
    }

    /// The identifier of its issuer's key (RFC 5280, section 5.2.1).
    pub fn authority_key(&self) -> KeyIdentifier
        ensures { result ≡ self.now.extensions.authority_key }
    {
        self.extensions.authority_key
    }
}

/// Reads the list at the front.
fn read_front(alloc: Global, source: Bytes) -> Result<DatedCrl, DecodeError>
    ensures { Found (λ d. d) (dated_at Der source) result }
{
    Constructed::decode(source, Mode::Der, |cons| take_whole(alloc, cons))
}

/// Reads a list.
fn take_whole(alloc: Global, cons: &mut Constructed<'_>) -> Result<DatedCrl, DecodeError>
    ensures { Reads (λ d. d) dated_at cons.old result cons.new }
{
    cons.take_sequence(|cons| take_contents(alloc, cons))
}

/// Reads what stands in a list.
#[tactic(auto, unfolding(crate::specs::Dated::contents_at))]
fn take_contents(alloc: Global, cons: &mut Constructed<'_>) -> Result<DatedCrl, DecodeError>
    ensures { Reads (λ d. d) contents_at cons.old result cons.new }
{
    let list = take_tbs(alloc, cons)?;
    RpkiSignatureAlgorithm::take_cert_from(cons)?;
    cons.take_octets_in_bits()?;
    Ok(list)
}

/// Reads what is signed.
fn take_tbs(alloc: Global, cons: &mut Constructed<'_>) -> Result<DatedCrl, DecodeError>
    ensures { Reads (λ d. d) (sequence_at tbs_fields_at) cons.old result cons.new }
{
    cons.take_sequence(|cons| take_tbs_fields(alloc, cons))
}

/// Reads the fields that are signed.
#[tactic(auto, unfolding(crate::specs::Dated::tbs_fields_at))]
fn take_tbs_fields(alloc: Global, cons: &mut Constructed<'_>) -> Result<DatedCrl, DecodeError>
    ensures { Reads (λ d. d) tbs_fields_at cons.old result cons.new }
{
    cons.skip_u8_if(V2)?;
    RpkiSignatureAlgorithm::take_cert_from(cons)?;
    Name::take_from(cons)?;
    let this_update = Time::take_from(cons)?;
    let next_update = Time::take_from(cons)?;
    let revoked = take_entries(alloc, cons)?;
    let extensions = take_extensions(alloc, cons)?;
    Ok(DatedCrl {
        this_update,
        next_update,
        revoked,
        extensions,
    })
}

/// Reads the entries, of which there are none where the list of them is missing.
fn take_entries(alloc: Global, cons: &mut Constructed<'_>) -> Result<Vec<DatedEntry>, DecodeError>
    ensures { Reads (λ list. list.items) entries_at cons.old result cons.new }
{
    match take_opt_entries(alloc, cons)? {
        Some(list) => Ok(list),
        None => Ok(Vec::new(alloc)),
    }
}

/// Reads the entries, if there is a list of them.
fn take_opt_entries(
    alloc: Global,
    cons: &mut Constructed<'_>,
) -> Result<Option<Vec<DatedEntry>>, DecodeError>
    ensures { Reads (option_map (λ list. list.items))
        (optional SEQUENCE (sequence_of_at SEQUENCE entry_at)) cons.old result cons.new }
{
    cons.take_opt_sequence(|cons| cons.take_items(alloc))
}

impl ListItem for DatedEntry {
    ghost use Rattle.rpki_der.specs.Tags.{SEQUENCE};
    ghost use Rattle.rpki_show.specs.Dated.{entry_at};

    ghost tag = { SEQUENCE };

    ghost at = { entry_at };

    fn take_opt_from(
        _alloc: Global,
        cons: &mut Constructed<'_>,
    ) -> Result<Option<DatedEntry>, DecodeError> {
        cons.take_opt_sequence(take_entry_fields)
    }
}

/// Reads what stands in an entry.
#[tactic(auto, unfolding(crate::specs::Dated::entry_fields_at))]
fn take_entry_fields(cons: &mut Constructed<'_>) -> Result<DatedEntry, DecodeError>
    ensures { Reads (λ e. e) entry_fields_at cons.old result cons.new }
{
    let serial = Serial::take_from(cons)?;
    let date = Time::take_from(cons)?;
    skip_entry_extensions(cons)?;
    Ok(DatedEntry { serial, date })
}

/// Skips the extensions of an entry, if there are some.
fn skip_entry_extensions(cons: &mut Constructed<'_>) -> Result<Option<()>, DecodeError>
    ensures { Reads (λ u. u) (optional SEQUENCE (sequence_at skip_all_at))
        cons.old result cons.new }
{
    cons.take_opt_sequence(|cons| cons.skip_all())
}

/// Reads the extensions of the list.
fn take_extensions(alloc: Global, cons: &mut Constructed<'_>) -> Result<CrlExtensions, DecodeError>
    ensures { Reads (λ x. x) (context_at 0 crl_extensions_at) cons.old result cons.new }
{
    cons.take_constructed_if(Tag::CTX_0, |cons| CrlExtensions::take_from(alloc, cons))
}
