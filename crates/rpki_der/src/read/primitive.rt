//! Values whose contents are understood: numbers, truth values, identifiers, strings.

ghost use Rattle.std.specs.Prelude.{◌<◌, length, IfOk, IfSome, Some, false};
ghost use Rattle.rpki_der.specs.Tags.{BOOLEAN, INTEGER, NULL, OBJECT_IDENTIFIER, IA5_STRING};
ghost use Rattle.rpki_der.specs.Read.Parse.{octets_at, u8_at, u32_at, u160_at, boolean_at};
ghost use Rattle.rpki_der.specs.Read.Parse.{null_of, oid_at, these, bits_at, octets_in_bits_at};
ghost use Rattle.rpki_der.specs.Read.Parse.{octets_of, ia5_at, this, primitive, optional};
ghost use Rattle.rpki_der.specs.Numbers.{MAX_DEPTH, number};
ghost use Rattle.rpki_der.specs.Form.Made.{default_at};
ghost use Rattle.rpki_der.specs.Read.Reads.{Reads, Stays, OnlyMalformed, OnlyMalformedOrMemory};

use crate::bit_string::BitString;
use crate::error::DecodeError;
use crate::oid::Oid;
use crate::read::Constructed;
use crate::read::contents::{boolean_of, is_ia5};
use crate::read::integer::{u8_of, u32_of, u160_of};
use crate::read::string::string_place;
use crate::tag::Tag;
use bytes::Bytes;
use std::alloc::Global;

impl<'a> Constructed<'a> {
    /// Reads an INTEGER from 0 to 255 (X.690, section 8.3). Refuses by `Malformed`.
    pub fn take_u8(&mut self) -> Result<u8, DecodeError>
        ensures reads { Reads (λ n. n) u8_at self.old result self.new }
        ensures stays { Stays result self.new }
        ensures refused { OnlyMalformed self.old result }
    {
        let contents = self.open(Tag::INTEGER)?;
        match u8_of(contents.as_slice()) {
            Some(n) => Ok(n),
            None => Err(self.refuse()),
        }
    }

    /// Reads an INTEGER from 0 to 255, if an INTEGER is next (X.690, section 8.3). Refuses by
    /// `Malformed`.
    pub fn take_opt_u8(&mut self) -> Result<Option<u8>, DecodeError>
        ensures reads { Reads (λ n. n) (optional INTEGER u8_at) self.old result self.new }
        ensures shorter { IfOk result
            (λ n. IfSome n (λ _. length self.new.rest < length self.old.rest)) }
        ensures stays { Stays result self.new }
        ensures refused { OnlyMalformed self.old result }
    {
        self.check()?;
        if self.is_next(Tag::INTEGER) {
            Ok(Some(self.take_u8()?))
        } else {
            Ok(None)
        }
    }

    /// Reads an INTEGER that is this number (X.690, section 8.3). Refuses by `Malformed`.
    #[inline(always)]
    pub fn skip_u8_if(&mut self, expected: u8) -> Result<(), DecodeError>
        ensures reads { Reads (λ x. x)
            (primitive INTEGER (this expected)) self.old result self.new }
        ensures stays { Stays result self.new }
        ensures refused { OnlyMalformed self.old result }
    {
        let contents = self.open(Tag::INTEGER)?;
        match u8_of(contents.as_slice()) {
            Some(n) if n == expected => Ok(()),
            _ => Err(self.refuse()),
        }
    }

    /// Reads an INTEGER from 0 to 2^32 - 1 (X.690, section 8.3). Refuses by `Malformed`.
    #[inline(always)]
    pub fn take_u32(&mut self) -> Result<u32, DecodeError>
        ensures reads { Reads (λ n. n) u32_at self.old result self.new }
        ensures stays { Stays result self.new }
        ensures refused { OnlyMalformed self.old result }
    {
        let contents = self.open(Tag::INTEGER)?;
        match u32_of(contents.as_slice()) {
            Some(n) => Ok(n),
            None => Err(self.refuse()),
        }
    }

    /// Reads an INTEGER from 0 to 2^160 - 1 (X.690, section 8.3): its digits to base 256, the
    /// highest one first, with zeros in front. Refuses by `Malformed`.
    pub fn take_unsigned(&mut self) -> Result<[u8; 20], DecodeError>
        ensures reads { Reads (λ digits. number 0 digits) u160_at self.old result self.new }
        ensures stays { Stays result self.new }
        ensures refused { OnlyMalformed self.old result }
    {
        let contents = self.open(Tag::INTEGER)?;
        match u160_of(contents.as_slice()) {
            Some(digits) => Ok(digits),
            None => Err(self.refuse()),
        }
    }

    /// Reads an INTEGER from 0 to 2^32 - 1, if an INTEGER is next (X.690, section 8.3). Refuses by
    /// `Malformed`.
    #[inline(always)]
    pub fn take_opt_u32(&mut self) -> Result<Option<u32>, DecodeError>
        ensures reads { Reads (λ n. n) (optional INTEGER u32_at) self.old result self.new }
        ensures shorter { IfOk result
            (λ n. IfSome n (λ _. length self.new.rest < length self.old.rest)) }
        ensures stays { Stays result self.new }
        ensures refused { OnlyMalformed self.old result }
    {
        self.check()?;
        if self.is_next(Tag::INTEGER) {
            Ok(Some(self.take_u32()?))
        } else {
            Ok(None)
        }
    }

    /// Reads a BOOLEAN, if one is next (X.690, sections 8.2 and 11.1). Refuses by `Malformed`.
    pub fn take_opt_bool(&mut self) -> Result<Option<bool>, DecodeError>
        ensures reads { Reads (λ b. b) (optional BOOLEAN boolean_at) self.old result self.new }
        ensures shorter { IfOk result
            (λ b. IfSome b (λ _. length self.new.rest < length self.old.rest)) }
        ensures stays { Stays result self.new }
        ensures refused { OnlyMalformed self.old result }
    {
        self.check()?;
        if !self.is_next(Tag::BOOLEAN) {
            return Ok(None);
        }
        let contents = self.open(Tag::BOOLEAN)?;
        match boolean_of(self.mode(), contents.as_slice()) {
            Some(b) => Ok(Some(b)),
            None => Err(self.refuse()),
        }
    }

    /// Reads a BOOLEAN that is false where it is left out (X.690, sections 8.2 and 11.1). An
    /// explicit false is taken too. Refuses by `Malformed`.
    pub fn take_flag(&mut self) -> Result<bool, DecodeError>
        ensures reads { Reads (λ b. b) (default_at false BOOLEAN boolean_at)
            self.old result self.new }
        ensures stays { Stays result self.new }
        ensures refused { OnlyMalformed self.old result }
    {
        match self.take_opt_bool()? {
            Some(b) => Ok(b),
            None => Ok(false),
        }
    }

    /// Reads a NULL, if one is next (X.690, section 8.8). Refuses by `Malformed`.
    #[tactic(auto, unfolding(crate::specs::Read::Parse::null_of))]
    pub fn skip_opt_null(&mut self) -> Result<Option<()>, DecodeError>
        ensures reads { Reads (λ u. u)
            (optional NULL (primitive NULL null_of)) self.old result self.new }
        ensures shorter { IfOk result
            (λ u. IfSome u (λ _. length self.new.rest < length self.old.rest)) }
        ensures stays { Stays result self.new }
        ensures refused { OnlyMalformed self.old result }
    {
        self.check()?;
        if !self.is_next(Tag::NULL) {
            return Ok(None);
        }
        let contents = self.open(Tag::NULL)?;
        if contents.as_slice().is_empty() {
            Ok(Some(()))
        } else {
            Err(self.refuse())
        }
    }

    /// Reads an OBJECT IDENTIFIER (X.690, section 8.19). Answers `Malformed`, or `Memory` where no
    /// memory was to be had.
    #[tactic(auto, unfolding(crate::specs::Read::Parse::oid_of))]
    pub fn take_oid(&mut self) -> Result<Oid, DecodeError>
        ensures reads { Reads (λ oid. oid) oid_at self.old result self.new }
        ensures stays { Stays result self.new }
        ensures refused { OnlyMalformedOrMemory self.old result }
    {
        let contents = self.open(Tag::OBJECT_IDENTIFIER)?;
        let octets = self.keep(&contents)?;
        match Oid::from_bytes(octets) {
            Some(oid) => Ok(oid),
            None => Err(self.refuse()),
        }
    }

    /// Reads a value with the tag of an OBJECT IDENTIFIER that has these contents (X.690, section
    /// 8.19). Refuses by `Malformed`. The contents that are asked for are compared and not tested:
    /// where they are those of no OBJECT IDENTIFIER, as none at all, the value that has them is
    /// read, and it is no OBJECT IDENTIFIER either.
    #[tactic(auto, unfolding(crate::specs::Read::Parse::these))]
    pub fn skip_oid_if(&mut self, expected: &[u8]) -> Result<(), DecodeError>
        ensures reads { Reads (λ u. u)
            (primitive OBJECT_IDENTIFIER (these expected.now)) self.old result self.new }
        ensures stays { Stays result self.new }
        ensures refused { OnlyMalformed self.old result }
    {
        let contents = self.open(Tag::OBJECT_IDENTIFIER)?;
        if contents.as_slice() == expected {
            Ok(())
        } else {
            Err(self.refuse())
        }
    }

    /// Reads a BIT STRING, primitive in both modes (X.690, section 8.6). Answers `Malformed`, or
    /// `Memory` where no memory was to be had.
    #[tactic(auto, unfolding(crate::specs::Read::Parse::bits_of))]
    pub fn take_bits(&mut self) -> Result<BitString, DecodeError>
        ensures reads { Reads
            (λ bits. (bits.octets, bits.unused)) bits_at self.old result self.new }
        ensures stays { Stays result self.new }
        ensures refused { OnlyMalformedOrMemory self.old result }
    {
        let contents = self.open(Tag::BIT_STRING)?;
        match contents.as_slice() {
            [] => Err(self.refuse()),
            [unused, ..] => {
                let unused = *unused;
                let octets = self.keep(&contents.part(1, contents.len()))?;
                match BitString::new(octets, unused) {
                    Some(bits) => Ok(bits),
                    None => Err(self.refuse()),
                }
            }
        }
    }

    /// Reads the octets of a BIT STRING all of whose bits are used, primitive in both modes (X.690,
    /// section 8.6). Answers `Malformed`, or `Memory` where no memory was to be had.
    #[tactic(auto, unfolding(crate::specs::Read::Parse::whole_octets_of))]
    pub fn take_octets_in_bits(&mut self) -> Result<Bytes, DecodeError>
        ensures reads { Reads (λ octets. octets) octets_in_bits_at self.old result self.new }
        ensures stays { Stays result self.new }
        ensures refused { OnlyMalformedOrMemory self.old result }
    {
        let contents = self.open(Tag::BIT_STRING)?;
        match contents.as_slice() {
            [] => Err(self.refuse()),
            [unused, ..] => {
                if *unused == 0 {
                    self.keep(&contents.part(1, contents.len()))
                } else {
                    Err(self.refuse())
                }
            }
        }
    }

    /// Reads an IA5String, primitive in both modes: octets below 80 hexadecimal (X.690, section
    /// 8.23). Answers `Malformed`, or `Memory` where no memory was to be had.
    #[tactic(auto, unfolding(crate::specs::Read::Parse::ia5_of))]
    pub fn take_ia5(&mut self) -> Result<Bytes, DecodeError>
        ensures reads { Reads (λ text. text) ia5_at self.old result self.new }
        ensures stays { Stays result self.new }
        ensures refused { OnlyMalformedOrMemory self.old result }
    {
        let contents = self.open(Tag::IA5_STRING)?;
        if is_ia5(contents.as_slice()) {
            self.keep(&contents)
        } else {
            Err(self.refuse())
        }
    }

    /// Reads an IA5String, if one is next (X.690, section 8.23). Answers `Malformed`, or `Memory`
    /// where no memory was to be had.
    pub fn take_opt_ia5(&mut self) -> Result<Option<Bytes>, DecodeError>
        ensures reads { Reads (λ text. text) (optional IA5_STRING ia5_at) self.old result self.new }
        ensures shorter { IfOk result
            (λ t. IfSome t (λ _. length self.new.rest < length self.old.rest)) }
        ensures stays { Stays result self.new }
        ensures refused { OnlyMalformedOrMemory self.old result }
    {
        self.check()?;
        if self.is_next(Tag::IA5_STRING) {
            Ok(Some(self.take_ia5()?))
        } else {
            Ok(None)
        }
    }

    /// Reads the contents of the value in front if it has this tag, primitive or constructed. They
    /// are handed on as they are: those of a constructed value with a definite length may be values
    /// or not. Answers `Malformed`, or `Memory` where no memory was to be had.
    pub fn take_opt_primitive_if(&mut self, tag: Tag) -> Result<Option<Bytes>, DecodeError>
        ensures reads { Reads (λ contents. contents)
            (optional tag.octet (primitive tag.octet Some)) self.old result self.new }
        ensures shorter { IfOk result
            (λ c. IfSome c (λ _. length self.new.rest < length self.old.rest)) }
        ensures stays { Stays result self.new }
        ensures refused { OnlyMalformedOrMemory self.old result }
    {
        self.check()?;
        if !self.is_next(tag) {
            return Ok(None);
        }
        let contents = self.open(tag)?;
        Ok(Some(self.keep(&contents)?))
    }

    /// Reads the contents of the value in front, which has this tag, as `take_opt_primitive_if`
    /// does. Answers `Malformed`, or `Memory` where no memory was to be had.
    pub fn take_primitive_if(&mut self, tag: Tag) -> Result<Bytes, DecodeError>
        ensures reads { Reads (λ contents. contents)
            (primitive tag.octet Some) self.old result self.new }
        ensures stays { Stays result self.new }
        ensures refused { OnlyMalformedOrMemory self.old result }
    {
        let inside = self.open(tag)?;
        self.keep(&inside)
    }

    /// Reads an OCTET STRING of `N` octets, as `take_octets` does (X.690, section 8.7). Answers
    /// `Malformed`, or `Memory` where no memory was to be had.
    #[tactic(auto, unfolding(crate::specs::Read::Parse::tested))]
    pub fn take_octets_of<const N: usize>(&mut self, alloc: Global) -> Result<[u8; N], DecodeError>
        ensures reads { Reads (λ octets. octets) (octets_of N) self.old result self.new }
        ensures stays { Stays result self.new }
        ensures refused { OnlyMalformedOrMemory self.old result }
    {
        let octets = self.take_octets(alloc)?;
        match <[u8; N]>::try_from(octets.as_slice()) {
            Ok(octets) => Ok(octets),
            Err(_) => Err(self.refuse()),
        }
    }

    /// Reads an OCTET STRING (X.690, section 8.7). In BER it may be in pieces, nested at most 32
    /// deep, whose octets are joined. Answers `Malformed`, or `Memory` where no memory was to be
    /// had.
    #[tactic(auto, using(crate::proofs::Reading::Strings::octets_next))]
    pub fn take_octets(&mut self, alloc: Global) -> Result<Bytes, DecodeError>
        ensures reads { Reads (λ octets. octets) (octets_at MAX_DEPTH) self.old result self.new }
        ensures stays { Stays result self.new }
        ensures refused { OnlyMalformedOrMemory self.old result }
    {
        self.check()?;
        if self.is_next(Tag::OCTET_STRING) {
            let contents = self.open(Tag::OCTET_STRING)?;
            self.keep(&contents)
        } else {
            self.take_pieces(alloc)
        }
    }

    // Reads an OCTET STRING, and joins its octets.
    fn take_pieces(&mut self, alloc: Global) -> Result<Bytes, DecodeError>
        ensures reads { Reads (λ octets. octets) (octets_at MAX_DEPTH) self.old result self.new }
        ensures stays { Stays result self.new }
        ensures refused { OnlyMalformedOrMemory self.old result }
    {
        self.check()?;
        let mut octets = Vec::new(alloc);
        match string_place(self.mode(), self.rest(), &mut octets) {
            Err(_) => Err(self.mark(DecodeError::Memory)),
            Ok(None) => Err(self.refuse()),
            Ok(Some(end)) => match Bytes::from_vec(octets) {
                Err(_) => Err(self.mark(DecodeError::Memory)),
                Ok(octets) => {
                    self.go_to(end);
                    Ok(octets)
                }
            },
        }
    }
}
