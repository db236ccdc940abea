//! Entries of a content that is built: what they are written as, and what is wrong with them.

ghost use Rattle.std.specs.Prelude.{◌≡◌, ◌≤◌, ◌<◌, ◌^◌, ◌++◌, ◌∷◌, [], List, IfErr, IfOk, OnOk};
ghost use Rattle.std.specs.Prelude.{IsTrue, false, length, true};
ghost use Rattle.std.specs.Iterator.{IsFinite};
ghost use Rattle.rpki_files.specs.Manifest.Files.{File, MeetsRule};
ghost use Rattle.rpki_faults.specs.Checks.{AllHold};
ghost use Rattle.rpki_files.specs.Manifest.Built.{Gives, name_checks};
ghost use Rattle.rpki_files.specs.Manifest.Taken.{AreNotListed, AreTaken};

use crate::manifest::file::FileAndHash;
use crate::manifest::files::{Files, is_unrepeated};
use crate::name::{is_allowed, is_file_name};
use rpki_basics::{BuildError, BuildFault, ManifestRule};
use rpki_der::{AsOctets, Encode, EncodeError};
use rpki_lists::{EntryList, list_of};
use std::alloc::{AllocError, Global};

/// Entries that were taken so far.
#[derive(Drop)]
pub struct Entries {
    // What they are written as, one after the other.
    octets: Vec<u8>,
    // Whether each name is that of a file.
    named: bool,
    // Whether the rule allows each name.
    allowed: bool,
    // Whether each could be written.
    short: bool,
}

impl Entries {
    // No entries.
    fn new(alloc: Global) -> Entries
        ensures { (rule : ManifestRule) → AreTaken rule result [] }
    {
        Entries {
            octets: Vec::new(alloc),
            named: true,
            allowed: true,
            short: true,
        }
    }

    /// All entries that the iterator gives.
    pub fn take<
        F: AsOctets + Drop,
        H: AsOctets + Drop,
        I: Iterator<Item = FileAndHash<F, H>> + Drop,
    >(alloc: Global, iter: I, rule: ManifestRule) -> Result<Entries, AllocError>
        requires can { I.can_next iter }
        requires ends { IsFinite (I.remaining iter) }
        ensures { IfOk result (λ e. (files : List File)
            × Gives I.next_gives F.meaning H.meaning iter files × AreTaken rule e files) }
    {
        let mut entries = Entries::new(alloc);
        for file in iter {
            entries.add(alloc, rule, file.file.as_octets(), file.hash.as_octets())?;
        }
        Ok(entries)
    }

    // Adds the entry of this name and this hash.
    fn add(
        &mut self,
        alloc: Global,
        rule: ManifestRule,
        name: &[u8],
        hash: &[u8],
    ) -> Result<(), AllocError>
        ensures { OnOk result ((files : List File) → AreTaken rule self.old files
            → AreTaken rule self.new (files ++ record { file = name.now; hash = hash.now } ∷ [])) }
    {
        self.named = self.named && is_file_name(name);
        self.allowed = self.allowed && is_allowed(rule, name);
        match FileAndHash::new(name, hash).encode_ref().to_bytes(alloc) {
            Ok(octets) => self.octets.extend_from_slice(&octets),
            Err(EncodeError::TooLong) => {
                self.short = false;
                Ok(())
            }
            Err(_) => Err(AllocError),
        }
    }

    // Whether each entry could be written, and all of them in fewer than 2^32 octets.
    fn is_short(&self) -> bool
        ensures short { IsTrue result
            → (self.now.short ≡ true) × (length self.now.octets.items < 2 ^ 32) }
        ensures long { result ≡ false → self.now.short ≡ true
            → 2 ^ 32 ≤ length self.now.octets.items }
    {
        self.short && u32::try_from(self.octets.len()).is_ok()
    }

    /// The list of the entries, in their order. Refuses by the first of `BadName`, `BadExtension`
    /// and `TooLong`, then by `RepeatedName`, and by `Memory`.
    pub fn into_list(
        self,
        alloc: Global,
        rule: ManifestRule,
    ) -> Result<EntryList<Files>, BuildError>
        requires { (files : List File) × AreTaken rule self files }
        ensures listed { (files : List File) → AreTaken rule self files
            → IfOk result (λ list. list ≡ files) }
        ensures checked { (files : List File) → AreTaken rule self files
            → OnOk result (AllHold (name_checks rule files)) }
        ensures meets { (files : List File) → AreTaken rule self files
            → OnOk result (MeetsRule rule files) }
        ensures refused { (files : List File) → AreTaken rule self files
            → IfErr result (AreNotListed rule files) }
    {
        if !self.named {
            drop(self);
            return Err(BuildError::Fault(BuildFault::BadName));
        }
        if !self.allowed {
            drop(self);
            return Err(BuildError::Fault(BuildFault::BadExtension));
        }
        if !self.is_short() {
            drop(self);
            return Err(BuildError::TooLong);
        }
        let list = list_of(self.octets)?;
        match is_unrepeated(alloc, rule, &list) {
            Ok(true) => Ok(list),
            Ok(false) => {
                drop(list);
                Err(BuildError::Fault(BuildFault::RepeatedName))
            }
            Err(_) => {
                drop(list);
                Err(BuildError::Memory)
            }
        }
    }
}
