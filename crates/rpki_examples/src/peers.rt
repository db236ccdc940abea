//! A format with three fields, of which one is optional and one a list: read and written.
//!
//! ```asn1
//! PeerList ::= SEQUENCE {
//!     local  INTEGER (0..4294967295),
//!     note   IA5String OPTIONAL,
//!     peers  SEQUENCE OF INTEGER (0..4294967295) }
//! ```

ghost use Rattle.std.specs.Prelude.{◌≡◌, ◌<◌, ◌^◌, None, Some, length, MatchOption};
ghost use Rattle.std.specs.List.{flat_map};
ghost use Rattle.rpki_der.specs.declared.mode.Mode.TheVariants.{Der};
ghost use Rattle.rpki_der.specs.Tags.{IA5_STRING, INTEGER, SEQUENCE};
ghost use Rattle.rpki_der.specs.Form.Decodes.{Decodes};
ghost use Rattle.rpki_der.specs.Form.Parts.{items_at, sequence_at};
ghost use Rattle.rpki_der.specs.Write.Parts.{contents_small};
ghost use Rattle.rpki_der.specs.Read.Parse.{u32_at};
ghost use Rattle.rpki_der.specs.Read.Reads.{Found, Reads};
ghost use Rattle.rpki_der.specs.Write.Written.{number_octets, value_octets};
ghost use Rattle.rpki_examples.specs.Peers.{PeersForm, fields_at, peers_contents, peers_octets};

use bytes::Bytes;
use rpki::der::encode::{each, ia5, sequence};
use rpki::der::laws::slices_hold_octets;
use rpki::der::{Constructed, DecodeError, Encode, EncodeError, ListItem, Mode, Sink, SinkFailed};
use rpki::resources::Asn;
use std::alloc::Global;
use std::marker::Model;

/// A note, in IA5 characters.
#[derive(Debug, Drop)]
pub struct Note(Bytes);

impl Model for Note {
    ghost use Rattle.std.specs.Prelude.{ℕ, List};

    ghost Value = { List ℕ };

    ghost view = { λ n. n.0 };
}

/// One of the peers of an AS.
#[derive(Clone, Copy, Debug)]
pub struct Peer(Asn);

impl Model for Peer {
    ghost use Rattle.std.specs.Prelude.{ℕ};

    ghost Value = { ℕ };

    ghost view = { λ p. p.0 };

    ghost inverse = { λ n. record { 0 = n } };
}

impl Peer {
    /// Its AS.
    pub fn asn(self) -> Asn
        ensures { result ≡ self }
    {
        self.0
    }
}

/// The peers of an AS.
#[derive(Debug, Drop)]
pub struct Peers(Vec<Peer>);

impl Model for Peers {
    ghost use Rattle.std.specs.Prelude.{ℕ, List};

    ghost Value = { List ℕ };

    ghost view = { λ p. p.0.items };
}

/// An AS, its note, if there is one, and its peers.
#[derive(Debug, Drop)]
pub struct PeerList {
    local: Asn,
    note: Option<Note>,
    peers: Peers,
}

impl Model for PeerList {
    ghost use Rattle.rpki_examples.specs.Peers.{PeerList};

    ghost Value = { PeerList };

    ghost view = { λ p. record { local = p.local; note = p.note; peers = p.peers } };
}

impl PeerList {
    /// Reads the list at the front of the source, by the rules of DER.
    pub fn decode(alloc: Global, source: Bytes) -> Result<PeerList, DecodeError>
        ensures { Decodes (PeersForm Der) (λ p. p) source result }
    {
        slices_hold_octets(source.as_slice());
        read_front(alloc, source)
    }
}

// Reads the list at the front.
fn read_front(alloc: Global, source: Bytes) -> Result<PeerList, DecodeError>
    ensures { Found (λ p. p) (sequence_at fields_at Der source) result }
{
    Constructed::decode(source, Mode::Der, |cons| {
        cons.take_sequence(|cons| take_fields(cons, alloc))
    })
}

// Reads the fields, one after another.
#[tactic(auto, unfolding(crate::specs::Peers::fields_at))]
fn take_fields(cons: &mut Constructed<'_>, alloc: Global) -> Result<PeerList, DecodeError>
    ensures { Reads (λ p. p) fields_at cons.old result cons.new }
{
    let local = Asn::from_u32(cons.take_u32()?);
    let note = match cons.take_opt_ia5()? {
        Some(octets) => Some(Note(octets)),
        None => None,
    };
    let peers = cons.take_sequence(|cons| take_peers(cons, alloc))?;
    Ok(PeerList { local, note, peers })
}

// Reads as many peers as there are.
fn take_peers(cons: &mut Constructed<'_>, alloc: Global) -> Result<Peers, DecodeError>
    ensures { Reads (λ peers. peers) (items_at INTEGER u32_at) cons.old result cons.new }
{
    Ok(Peers(cons.take_items(alloc)?))
}

impl ListItem for Peer {
    ghost use Rattle.rpki_der.specs.Tags.{INTEGER};
    ghost use Rattle.rpki_der.specs.Read.Parse.{u32_at};

    ghost tag = { INTEGER };

    ghost at = { u32_at };

    fn take_opt_from(
        _alloc: Global,
        cons: &mut Constructed<'_>,
    ) -> Result<Option<Peer>, DecodeError> {
        match cons.take_opt_u32()? {
            Some(number) => Ok(Some(Peer(Asn::from_u32(number)))),
            None => Ok(None),
        }
    }
}

impl PeerList {
    /// The AS whose peers these are.
    pub fn local(&self) -> Asn
        ensures { result ≡ self.now.local }
    {
        self.local
    }

    /// Its note, if there is one.
    pub fn note(&self) -> Option<&[u8]>
        ensures { MatchOption result (self.now.note ≡ None) (λ n. self.now.note ≡ Some n.now) }
    {
        match &self.note {
            Some(note) => Some(note.0.as_slice()),
            None => None,
        }
    }

    /// Its peers, in the order of the list.
    pub fn peers(&self) -> &[Peer]
        ensures { result.now ≡ self.now.peers }
    {
        self.peers.0.as_slice()
    }
}

impl Encode for Note {
    ghost octets = { λ n. value_octets IA5_STRING n };

    ghost is_short = { λ n. length n < 2 ^ 32 };

    ghost small = { λ n h. contents_small IA5_STRING n h };

    fn encoded_len(&self) -> Result<u64, EncodeError> {
        ia5(self.0.as_slice()).encoded_len()
    }

    fn put<W: Sink>(&self, len: u64, out: &mut W) -> Result<(), SinkFailed> {
        ia5(self.0.as_slice()).put(len, out)
    }
}

impl Encode for Peer {
    ghost octets = { number_octets };

    ghost is_short = { λ p. Unit {0} };

    ghost small = { λ p h. tt };

    fn encoded_len(&self) -> Result<u64, EncodeError> {
        self.0.encoded_len()
    }

    fn put<W: Sink>(&self, len: u64, out: &mut W) -> Result<(), SinkFailed> {
        self.0.put(len, out)
    }
}

impl Encode for Peers {
    ghost octets = { λ p. value_octets SEQUENCE (flat_map number_octets p) };

    ghost is_short = { λ p. length (flat_map number_octets p) < 2 ^ 32 };

    ghost small = { λ p h. contents_small SEQUENCE (flat_map number_octets p) h };

    fn encoded_len(&self) -> Result<u64, EncodeError> {
        sequence(each(&self.0)).encoded_len()
    }

    fn put<W: Sink>(&self, len: u64, out: &mut W) -> Result<(), SinkFailed> {
        sequence(each(&self.0)).put(len, out)
    }
}

impl Encode for PeerList {
    ghost octets = { peers_octets };

    ghost is_short = { λ p. length (peers_contents p) < 2 ^ 32 };

    ghost small = { λ p h. contents_small SEQUENCE (peers_contents p) h };

    fn encoded_len(&self) -> Result<u64, EncodeError> {
        sequence((self.local, &self.note, &self.peers)).encoded_len()
    }

    fn put<W: Sink>(&self, len: u64, out: &mut W) -> Result<(), SinkFailed> {
        sequence((self.local, &self.note, &self.peers)).put(len, out)
    }
}
