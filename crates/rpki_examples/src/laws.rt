//! What the definitions of lists of peers say: laws, as functions that do nothing.

ghost use Rattle.std.specs.Prelude.{◌≡◌, ◌<◌, ◌^◌, ◌++◌, ℕ, List, Some, length};
ghost use Rattle.rpki_der.specs.declared.mode.Mode.{Mode};
ghost use Rattle.rpki_der.specs.declared.mode.Mode.TheVariants.{Der};
ghost use Rattle.rpki_der.specs.Form.Parts.{sequence_at};
ghost use Rattle.rpki_der.specs.Grammar.{IsBytes};
ghost use Rattle.rpki_der.specs.Read.Exact.{IsReading};
ghost use Rattle.rpki_examples.specs.Peers.{IsPeerList, PeerList, PeersForm, fields_at};
ghost use Rattle.rpki_examples.specs.Peers.{peers_contents, peers_octets};

/// Reading a list of peers is exact and unique, and DER is a part of BER.
pub fn peer_lists()
    ensures { IsReading (sequence_at fields_at) PeersForm }
{}

/// A list of peers, of which fewer than 2^32 octets stand in its SEQUENCE, is written in the one
/// way that DER has for it, and is read again, whatever follows it. What was read has the numbers
/// and the characters that can be written so.
pub fn peer_lists_are_written()
    ensures written { (p : PeerList) → IsPeerList p → length (peers_contents p) < 2 ^ 32
        → PeersForm Der (peers_octets p) p }
    ensures only { (octets : List ℕ) (p : PeerList) → IsBytes octets → PeersForm Der octets p
        → octets ≡ peers_octets p }
    ensures read { (mode : Mode) (p : PeerList) (rest : List ℕ) → IsPeerList p
        → length (peers_contents p) < 2 ^ 32
        → sequence_at fields_at mode (peers_octets p ++ rest) ≡ Some (p, rest) }
    ensures found { (mode : Mode) (octets : List ℕ) (p : PeerList) → IsBytes octets
        → PeersForm mode octets p → IsPeerList p }
{}
