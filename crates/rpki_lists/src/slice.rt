//! The reader of values that lie in a slice.

ghost use Rattle.std.specs.Prelude.{◌≡◌, ◌↔◌, ◌≤◌, length, drop, slice_index, IsTrue, Some};
ghost use Rattle.rpki_der.specs.Tags.{INTEGER, OCTET_STRING, IA5_STRING, SEQUENCE};
ghost use Rattle.rpki_der.specs.declared.mode.Mode.TheVariants.{Der};
ghost use Rattle.rpki_der.specs.Read.Parse.{is_next, value_at, u8_at, u32_at, bits_at, bits_of};
ghost use Rattle.rpki_der.specs.Read.Parse.{ia5_at, optional, Finds};
ghost use Rattle.rpki_lists.specs.Slice.{FindsFront, IsFound, Keeps, Closes, seen};

use rpki_der::slices::{is_ia5, u8_of, u32_of, value_of};
use rpki_der::{Mode, Tag};
use std::marker::Model;

/// A reader of values in DER that lie in a slice, one after the other (X.690, sections 8.1 and 10).
/// It hands out parts of the slice, and takes no memory.
///
/// A call answers `None` where the octets that are left don't begin with what it asks for, and
/// leaves them as they are. Where a caller knows what they begin with, since they were read before,
/// the `known` calls answer it, and need not test it.
#[derive(Drop, Debug)]
pub struct SliceReader<'a> {
    rest: &'a [u8],
}

impl<'a> Model for SliceReader<'a> {
    ghost use Rattle.std.specs.Prelude.{ℕ, List};

    // The octets that are left.
    ghost Value = { List ℕ };

    ghost view = { λ s. s.rest.now };
}

/// A BIT STRING (X.690, section 8.6) in a slice: its octets, and how many bits of the last one are
/// not used.
#[derive(Clone, Copy, Debug)]
pub struct BitSlice<'a> {
    pub octets: &'a [u8],
    pub unused: u8,
}

// What the contents of a BIT STRING say.
#[tactic(auto, unfolding(rpki_der::specs::Read::Parse::bits_of))]
#[inline(always)]
fn bits_of(contents: &[u8]) -> Option<BitSlice<'_>>
    ensures { Finds (λ b. (b.octets.now, b.unused)) result (bits_of contents.now) }
{
    match contents {
        [] => None,
        [unused, octets @ ..] => {
            if *unused > 7 || (octets.is_empty() && *unused != 0) {
                None
            } else {
                Some(BitSlice {
                    octets,
                    unused: *unused,
                })
            }
        }
    }
}

// What the contents of a BIT STRING are known to say.
#[inline(always)]
fn known_bits_of(contents: &[u8]) -> BitSlice<'_>
    requires { 1 ≤ length contents.now }
    ensures octets { result.octets.now ≡ drop 1 contents.now }
    ensures unused { result.unused ≡ slice_index contents.now 0 }
{
    let (_, octets) = contents.split_at(1);
    BitSlice {
        octets,
        unused: contents[0],
    }
}

// What follows the tag and the length of a value, where that takes one octet.
#[inline(always)]
fn after_header(octets: &[u8]) -> &[u8]
    requires { 2 ≤ length octets.now }
    ensures { result.now ≡ drop 2 octets.now }
{
    let (_, rest) = octets.split_at(2);
    rest
}

// The contents of the value in front, which is known to have this tag, and what follows it, by all
// tests.
#[cold]
#[inline(never)]
fn long_value(tag: Tag, octets: &[u8]) -> (&[u8], &[u8])
    requires { IsFound (value_at tag.octet) octets.now }
    ensures { value_at tag.octet Der octets.now ≡ Some (result.0.now, result.1.now) }
{
    match value_of(Mode::Der, tag, octets) {
        Some(value) => value,
        None => unreachable!(),
    }
}

// The same without them. A length of more than one octet is rare, and is left to the tests.
#[inline(always)]
fn known_value(tag: Tag, octets: &[u8]) -> (&[u8], &[u8])
    requires { IsFound (value_at tag.octet) octets.now }
    ensures { value_at tag.octet Der octets.now ≡ Some (result.0.now, result.1.now) }
{
    let len = octets[1] as usize;
    if len < 0x80 {
        after_header(octets).split_at(len)
    } else {
        long_value(tag, octets)
    }
}

impl<'a> SliceReader<'a> {
    /// A reader of these octets.
    #[inline(always)]
    pub fn new(octets: &'a [u8]) -> SliceReader<'a>
        ensures { result ≡ octets.now }
    {
        SliceReader { rest: octets }
    }

    /// The same reader again.
    #[inline(always)]
    pub fn again(&self) -> SliceReader<'a>
        ensures { result ≡ self.now }
    {
        SliceReader { rest: self.rest }
    }

    /// The octets that are left.
    #[inline(always)]
    pub fn rest(&self) -> &'a [u8]
        ensures { result.now ≡ self.now }
    {
        self.rest
    }

    /// Whether no octet is left.
    #[inline(always)]
    pub fn is_empty(&self) -> bool
        ensures { IsTrue result ↔ (length self.now ≡ 0) }
    {
        self.rest.is_empty()
    }

    /// The value, if no octet is left.
    #[inline(always)]
    pub fn close<T: Drop>(&self, value: T) -> Option<T>
        ensures { Closes value self.now result }
    {
        match self.rest {
            [] => Some(value),
            [_first, _others @ ..] => None,
        }
    }

    // Whether a value with this tag is next.
    #[inline(always)]
    fn is_next(&self, tag: Tag) -> bool
        ensures { result ≡ is_next tag.octet self.now }
    {
        match self.rest {
            [] => false,
            [t, ..] => *t == tag.octet,
        }
    }

    /// Takes the contents of the value in front, which has this tag (X.690, section 8.1).
    #[inline(always)]
    pub fn take_contents(&mut self, tag: Tag) -> Option<&'a [u8]>
        ensures found { FindsFront (λ c. c.now) (value_at tag.octet) self.old result self.new }
        ensures kept { Keeps result self.old self.new }
    {
        let (contents, rest) = value_of(Mode::Der, tag, self.rest)?;
        self.rest = rest;
        Some(contents)
    }

    /// Opens the SEQUENCE in front (X.690, sections 8.9 and 8.10): a reader of its contents.
    #[inline(always)]
    pub fn take_sequence(&mut self) -> Option<SliceReader<'a>>
        ensures found { FindsFront (λ r. r) (value_at SEQUENCE) self.old result self.new }
        ensures kept { Keeps result self.old self.new }
    {
        let (contents, rest) = value_of(Mode::Der, Tag::SEQUENCE, self.rest)?;
        self.rest = rest;
        Some(SliceReader { rest: contents })
    }

    /// Reads an INTEGER from 0 to 255 (X.690, section 8.3).
    #[inline(always)]
    pub fn take_u8(&mut self) -> Option<u8>
        ensures found { FindsFront (λ n. n) u8_at self.old result self.new }
        ensures kept { Keeps result self.old self.new }
    {
        let (contents, rest) = value_of(Mode::Der, Tag::INTEGER, self.rest)?;
        let n = u8_of(contents)?;
        self.rest = rest;
        Some(n)
    }

    /// Reads an INTEGER from 0 to 255, if an INTEGER is next (X.690, section 8.3).
    #[inline(always)]
    pub fn take_opt_u8(&mut self) -> Option<Option<u8>>
        ensures found { FindsFront (λ n. n) (optional INTEGER u8_at) self.old result self.new }
        ensures kept { Keeps result self.old self.new }
    {
        if !self.is_next(Tag::INTEGER) {
            return Some(None);
        }
        Some(Some(self.take_u8()?))
    }

    /// Reads an INTEGER from 0 to 2^32 - 1 (X.690, section 8.3).
    #[inline(always)]
    pub fn take_u32(&mut self) -> Option<u32>
        ensures found { FindsFront (λ n. n) u32_at self.old result self.new }
        ensures kept { Keeps result self.old self.new }
    {
        let (contents, rest) = value_of(Mode::Der, Tag::INTEGER, self.rest)?;
        let n = u32_of(contents)?;
        self.rest = rest;
        Some(n)
    }

    /// Reads a BIT STRING (X.690, section 8.6).
    #[inline(always)]
    pub fn take_bits(&mut self) -> Option<BitSlice<'a>>
        ensures found { FindsFront (λ b. (b.octets.now, b.unused)) bits_at
            self.old result self.new }
        ensures kept { Keeps result self.old self.new }
    {
        let (contents, rest) = value_of(Mode::Der, Tag::BIT_STRING, self.rest)?;
        let bits = bits_of(contents)?;
        self.rest = rest;
        Some(bits)
    }

    /// Reads an IA5String: octets below 80 hexadecimal (X.690, section 8.23).
    #[tactic(auto, unfolding(rpki_der::specs::Read::Parse::ia5_of))]
    #[inline(always)]
    pub fn take_ia5(&mut self) -> Option<&'a [u8]>
        ensures found { FindsFront (λ c. c.now) ia5_at self.old result self.new }
        ensures kept { Keeps result self.old self.new }
    {
        let (contents, rest) = value_of(Mode::Der, Tag::IA5_STRING, self.rest)?;
        if !is_ia5(contents) {
            return None;
        }
        self.rest = rest;
        Some(contents)
    }

    /// Reads an IA5String, if one is next (X.690, section 8.23).
    #[inline(always)]
    pub fn take_opt_ia5(&mut self) -> Option<Option<&'a [u8]>>
        ensures found { FindsFront (seen (λ c. c.now)) (optional IA5_STRING ia5_at)
            self.old result self.new }
        ensures kept { Keeps result self.old self.new }
    {
        if !self.is_next(Tag::IA5_STRING) {
            return Some(None);
        }
        Some(Some(self.take_ia5()?))
    }

    /// Reads an OCTET STRING, which has one piece in DER (X.690, sections 8.7 and 10.2).
    #[inline(always)]
    pub fn take_octets(&mut self) -> Option<&'a [u8]>
        ensures found { FindsFront (λ c. c.now) (value_at OCTET_STRING) self.old result self.new }
        ensures kept { Keeps result self.old self.new }
    {
        self.take_contents(Tag::OCTET_STRING)
    }

    /// Takes the contents of the value in front, which is known to have this tag (X.690, section
    /// 8.1).
    #[inline(always)]
    pub fn known_contents(&mut self, tag: Tag) -> &'a [u8]
        requires { IsFound (value_at tag.octet) self.old }
        ensures { FindsFront (λ c. c.now) (value_at tag.octet) self.old (Some result) self.new }
    {
        let (contents, rest) = known_value(tag, self.rest);
        self.rest = rest;
        contents
    }

    /// Takes the contents of a value with this tag, if the tag is next; such a value is then known
    /// to be there (X.690, section 8.1).
    #[inline(always)]
    pub fn known_opt_contents(&mut self, tag: Tag) -> Option<&'a [u8]>
        requires { IsFound (optional tag.octet (value_at tag.octet)) self.old }
        ensures { FindsFront (seen (λ c. c.now)) (optional tag.octet (value_at tag.octet))
            self.old (Some result) self.new }
    {
        if self.is_next(tag) {
            Some(self.known_contents(tag))
        } else {
            None
        }
    }

    /// Opens the SEQUENCE that is known to be in front (X.690, sections 8.9 and 8.10): a reader of
    /// its contents.
    #[inline(always)]
    pub fn known_sequence(&mut self) -> SliceReader<'a>
        requires { IsFound (value_at SEQUENCE) self.old }
        ensures { FindsFront (λ r. r) (value_at SEQUENCE) self.old (Some result) self.new }
    {
        SliceReader {
            rest: self.known_contents(Tag::SEQUENCE),
        }
    }

    /// Reads the BIT STRING that is known to be in front (X.690, section 8.6).
    #[inline(always)]
    pub fn known_bits(&mut self) -> BitSlice<'a>
        requires { IsFound bits_at self.old }
        ensures { FindsFront (λ b. (b.octets.now, b.unused)) bits_at
            self.old (Some result) self.new }
    {
        known_bits_of(self.known_contents(Tag::BIT_STRING))
    }

    /// Reads the INTEGER from 0 to 255 that is known to be in front (X.690, section 8.3).
    #[inline(always)]
    pub fn known_u8(&mut self) -> u8
        requires { IsFound u8_at self.old }
        ensures { FindsFront (λ n. n) u8_at self.old (Some result) self.new }
    {
        match u8_of(self.known_contents(Tag::INTEGER)) {
            Some(n) => n,
            None => unreachable!(),
        }
    }

    /// Reads an INTEGER, if one is next; it is then known to be from 0 to 255 (X.690, section 8.3).
    #[inline(always)]
    pub fn known_opt_u8(&mut self) -> Option<u8>
        requires { IsFound (optional INTEGER u8_at) self.old }
        ensures { FindsFront (λ n. n) (optional INTEGER u8_at) self.old (Some result) self.new }
    {
        if self.is_next(Tag::INTEGER) {
            Some(self.known_u8())
        } else {
            None
        }
    }

    /// Reads the INTEGER from 0 to 2^32 - 1 that is known to be in front (X.690, section 8.3).
    #[inline(always)]
    pub fn known_u32(&mut self) -> u32
        requires { IsFound u32_at self.old }
        ensures { FindsFront (λ n. n) u32_at self.old (Some result) self.new }
    {
        match u32_of(self.known_contents(Tag::INTEGER)) {
            Some(n) => n,
            None => unreachable!(),
        }
    }
}
