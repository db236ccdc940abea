//! Contents of signed checklists (RFC 9323, section 4).

mod checked;
mod checks;
mod encoder;
mod object;
mod read;

ghost use Rattle.std.specs.Prelude.{◌≡◌, ◌<◌, ◌^◌, ◌++◌, ℕ, List, All, Some, length};
ghost use Rattle.rpki_basics.specs.declared.algorithm.DigestAlgorithm.TheVariants.{Sha256};
ghost use Rattle.rpki_der.specs.declared.mode.Mode.TheVariants.{Der};
ghost use Rattle.rpki_der.specs.Read.Reads.{Reads, Stays};
ghost use Rattle.rpki_der.specs.Form.Decodes.{Decodes, DecodesNext};
ghost use Rattle.rpki_resources.specs.declared.family.AddressFamily.TheVariants.{Ipv4, Ipv6};
ghost use Rattle.rpki_resources.specs.Family.{IsWithin};
ghost use Rattle.rpki_files.specs.Checklist.{ChecklistForm, checklist_at, checklist_contents};
ghost use Rattle.rpki_files.specs.Checklist.{checklist_octets};
ghost use Rattle.rpki_files.specs.Checklist.Files.{IsNamed};

use bytes::Bytes;
pub use checked::{CheckListIter, CheckedEntry, CheckedFiles, FileNameAndHash};
pub use encoder::ChecklistEncoder;
pub use object::{InspectResources, Rsc};
use read::{read_front, take_checklist};
use rpki_basics::DigestAlgorithm;
use rpki_der::laws::slices_hold_octets;
use rpki_der::{Constructed, DecodeError};
use rpki_lists::{EntryIter, EntryList};
use rpki_resources::{AddressFamily, AsBlocks, IpBlocks};
use std::alloc::{AllocError, Global};
use std::marker::Model;

/// Which files a checklist lists, and which numbers it names, whose holder is to have signed it
/// (RFC 9323, section 4). Nothing of a signature is tested here.
#[derive(Debug, Drop)]
pub struct ResourceSignedChecklist {
    as_resources: AsBlocks,
    v4_resources: IpBlocks,
    v6_resources: IpBlocks,
    files: EntryList<CheckedFiles>,
}

impl Model for ResourceSignedChecklist {
    ghost use Rattle.std.specs.Prelude.{All};
    ghost use Rattle.rpki_resources.specs.declared.family.AddressFamily.TheVariants.{Ipv4};
    ghost use Rattle.rpki_resources.specs.Family.{IsWithin};
    ghost use Rattle.rpki_files.specs.Checklist.{Checklist};

    ghost Value = { Checklist };

    ghost view = { λ l. record {
      as_resources = l.as_resources;
      v4_resources = l.v4_resources;
      v6_resources = l.v6_resources;
      files = l.files;
    } };

    ghost invariant = { λ l. All (IsWithin Ipv4) l.v4_resources };
}

impl Clone for ResourceSignedChecklist {
    ghost is_clone = { λ l copy. copy ≡ l };

    fn clone(&self) -> Result<ResourceSignedChecklist, AllocError> {
        Ok(ResourceSignedChecklist {
            as_resources: self.as_resources.clone()?,
            v4_resources: self.v4_resources.clone()?,
            v6_resources: self.v6_resources.clone()?,
            files: self.files.clone()?,
        })
    }
}

impl ResourceSignedChecklist {
    /// Reads the content at the front of the source, by the rules of DER (RFC 9323, section 4).
    /// Where the source begins with no content, refuses by `Malformed` or by the `Content` fault
    /// that is found first, and by `Memory` where no memory was to be had.
    pub fn decode(alloc: Global, source: Bytes) -> Result<ResourceSignedChecklist, DecodeError>
        ensures { Decodes (ChecklistForm Der) (λ l. l) source result }
    {
        // The proof needs that each octet is below 256, which is known of a slice and not of a
        // `Bytes`.
        slices_hold_octets(source.as_slice());
        read_front(alloc, source)
    }

    /// Reads a content in the mode of the reader (RFC 9323, section 4); its files stand in DER.
    /// Refuses what is no such content by `Malformed`, or by a rule of its format that it breaks
    /// (`faults`), and by `Memory`.
    pub fn take_from(
        alloc: Global,
        cons: &mut Constructed<'_>,
    ) -> Result<ResourceSignedChecklist, DecodeError>
        ensures reads { Reads (λ l. l) checklist_at cons.old result cons.new }
        ensures decodes { DecodesNext ChecklistForm (λ l. l) cons.old result cons.new }
        ensures stays { Stays result cons.new }
    {
        cons.holds_octets();
        take_checklist(alloc, cons)
    }

    /// The AS numbers that the content names (RFC 9323, section 4.2). Whether the signer holds them
    /// is not tested here.
    pub fn as_resources(&self) -> &AsBlocks
        ensures { result.now ≡ self.now.as_resources }
    {
        &self.as_resources
    }

    /// The IPv4 addresses that the content names (RFC 9323, section 4.2). Whether the signer holds
    /// them is not tested here.
    pub fn v4_resources(&self) -> &IpBlocks
        ensures value { result.now ≡ self.now.v4_resources }
        ensures addresses { All (IsWithin Ipv4) self.now.v4_resources }
    {
        &self.v4_resources
    }

    /// The IPv6 addresses that the content names (RFC 9323, section 4.2). Whether the signer holds
    /// them is not tested here.
    pub fn v6_resources(&self) -> &IpBlocks
        ensures { result.now ≡ self.now.v6_resources }
    {
        &self.v6_resources
    }

    /// The algorithm of the hashes.
    pub fn digest_algorithm(&self) -> DigestAlgorithm
        ensures { result ≡ Sha256 }
    {
        DigestAlgorithm::sha256()
    }

    /// The files, in order.
    pub fn iter(&self) -> CheckListIter<'_>
        ensures files { result ≡ self.now.files }
        ensures names { All IsNamed self.now.files }
    {
        EntryIter::of(self.files.reader())
    }

    /// The content, to be written in DER: without its version, each set in its canonical form, and
    /// empty sets left out. Where all three are empty, the AS numbers are written as an empty list,
    /// since something has to be named.
    pub fn encode_ref(&self) -> ChecklistEncoder<'_>
        ensures value { result ≡ self.now }
        ensures written { length (checklist_contents self.now) < 2 ^ 32
            → ChecklistForm Der (checklist_octets self.now) self.now }
        ensures read { length (checklist_contents self.now) < 2 ^ 32 → (rest : List ℕ)
            → checklist_at Der (checklist_octets self.now ++ rest) ≡ Some (self.now, rest) }
    {
        // The proof takes from these calls that each field is written in its form.
        let _ = self.as_resources.encode_ref();
        let _ = self.v4_resources.encode_ref(AddressFamily::Ipv4);
        let _ = self.v6_resources.encode_ref(AddressFamily::Ipv6);
        let _ = self.files.reader();
        ChecklistEncoder::new(self)
    }
}
