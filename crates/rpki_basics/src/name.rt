//! Names of issuers and subjects.

ghost use Rattle.std.specs.Prelude.{◌≡◌, IfOk};
ghost use Rattle.sha1.specs.Sha1.{sha1};
ghost use Rattle.rpki_der.specs.declared.mode.Mode.TheVariants.{Der};
ghost use Rattle.rpki_der.specs.Captured.{Kept};
ghost use Rattle.rpki_der.specs.Read.Parse.{skip_all_at};
ghost use Rattle.rpki_der.specs.Read.Reads.{Reads, Stays, OnlyMalformed, OnlyMalformedOrMemory};
ghost use Rattle.rpki_der.specs.Form.Decodes.{DecodesNext};
ghost use Rattle.rpki_der.specs.Form.Parts.{sequence_at};
ghost use Rattle.rpki_basics.specs.Name.{IsName, NameForm, name_at, key_name_octets};

use crate::hex::push_hex;
use crate::identifier::KeyIdentifier;
use crate::key::PublicKey;
use bytes::Bytes;
use rpki_der::encode::CapturedEncoder;
use rpki_der::{Captured, Constructed, DecodeError, Mode};
use std::alloc::{AllocError, Global};
use std::marker::Model;

/// A name of an issuer or a subject (RFC 5280, section 4.1.2.4), kept as its octets and the mode
/// that they were read in.
#[derive(Debug, Drop)]
pub struct Name {
    captured: Captured,
}

impl Model for Name {
    ghost use Rattle.rpki_der.specs.Captured.{Kept};
    ghost use Rattle.rpki_basics.specs.Name.{IsName};

    ghost Value = { Kept };

    ghost view = { λ n. n.captured };

    ghost invariant = { λ n. IsName n.captured.mode n.captured.octets };
}

impl Name {
    /// The octets, as they stood in the source.
    pub fn as_slice(&self) -> &[u8]
        ensures octets { result.now ≡ self.now.octets }
        ensures form { IsName self.now.mode self.now.octets }
    {
        self.captured.as_slice()
    }

    /// The mode that they were read in.
    pub fn mode(&self) -> Mode
        ensures { result ≡ self.now.mode }
    {
        self.captured.mode()
    }

    // The name with these octets.
    fn of(captured: Captured) -> Name
        requires { IsName captured.mode captured.octets }
        ensures { result ≡ captured }
    {
        Name { captured }
    }
}

impl Clone for Name {
    ghost is_clone = { λ n copy. copy ≡ n };

    fn clone(&self) -> Result<Name, AllocError> {
        let captured = self.captured.clone()?;
        Ok(Name { captured })
    }
}

// Skips a name.
fn skip_name(cons: &mut Constructed<'_>) -> Result<(), DecodeError>
    ensures reads { Reads (λ u. u) (sequence_at skip_all_at) cons.old result cons.new }
    ensures refused { OnlyMalformed cons.old result }
{
    cons.take_sequence(|cons| cons.skip_all())
}

// Captures a name.
fn capture_name(cons: &mut Constructed<'_>) -> Result<Captured, DecodeError>
    ensures reads { Reads (λ n. n.octets) name_at cons.old result cons.new }
    ensures mode { IfOk result (λ n. n.mode ≡ cons.old.mode) }
    ensures stays { Stays result cons.new }
    ensures refused { OnlyMalformedOrMemory cons.old result }
{
    cons.capture(skip_name)
}

// Reads a name.
fn take_name(cons: &mut Constructed<'_>) -> Result<Name, DecodeError>
    ensures reads { Reads (λ n. n.octets) name_at cons.old result cons.new }
    ensures mode { IfOk result (λ n. n.mode ≡ cons.old.mode) }
    ensures stays { Stays result cons.new }
    ensures refused { OnlyMalformedOrMemory cons.old result }
{
    cons.holds_octets();
    match capture_name(cons) {
        Ok(captured) => Ok(Name::of(captured)),
        Err(e) => Err(e),
    }
}

impl Name {
    /// Reads a name: a SEQUENCE whose contents are skipped (RFC 5280, section 4.1.2.4). All else is
    /// refused by `Malformed`; `Memory` may come too.
    pub fn take_from(cons: &mut Constructed<'_>) -> Result<Name, DecodeError>
        ensures reads { Reads (λ n. n.octets) name_at cons.old result cons.new }
        ensures mode { IfOk result (λ n. n.mode ≡ cons.old.mode) }
        ensures decodes { DecodesNext NameForm (λ n. n.octets) cons.old result cons.new }
        ensures stays { Stays result cons.new }
        ensures refused { OnlyMalformedOrMemory cons.old result }
    {
        cons.holds_octets();
        take_name(cons)
    }
}

impl Name {
    /// What writes the octets of the name as they are, where they are DER, and answers `NotDer`
    /// where they were read in BER.
    pub fn encode_ref(&self) -> CapturedEncoder<'_>
        ensures captured { result.0.now ≡ self.now }
        ensures written { IsName self.now.mode self.now.octets }
    {
        self.captured.encode_ref()
    }
}

// What stands before the digits of the name of a key: the headers of the SEQUENCE, the SET, the
// SEQUENCE, the identifier of commonName, and the header of the PrintableString.
const KEY_NAME_HEAD: [u8; 13] = [
    0x30, 0x33, 0x31, 0x31, 0x30, 0x2F, 0x06, 0x03, 0x55, 0x04, 0x03, 0x13, 0x28,
];

// The octets of the name of the key with this identifier.
fn key_name(alloc: Global, identifier: KeyIdentifier) -> Result<Bytes, AllocError>
    ensures octets { IfOk result (λ octets. octets ≡ key_name_octets identifier) }
    ensures name { IfOk result (λ octets. IsName Der octets) }
{
    let mut octets = Vec::with_capacity(alloc, 53)?;
    octets.extend_from_slice(&KEY_NAME_HEAD)?;
    push_hex(&mut octets, identifier.as_slice())?;
    Ok(Bytes::from_vec(octets)?)
}

impl PublicKey {
    /// The name of the key: a common name (RFC 6487, section 4.5) of the upper hexadecimal digits
    /// of its identifier, which is this project's own rule, or `AllocError` where no memory was to
    /// be had.
    pub fn to_subject_name(&self, alloc: Global) -> Result<Name, AllocError>
        ensures octets { IfOk result (λ n. n.octets ≡ key_name_octets (sha1 self.now)) }
        ensures mode { IfOk result (λ n. n.mode ≡ Der) }
    {
        let octets = key_name(alloc, self.key_identifier())?;
        Ok(Name::of(Captured::new(octets, Mode::Der)))
    }
}
