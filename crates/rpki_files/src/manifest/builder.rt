//! Building contents of manifests, and manifests of them (RFC 9286, section 4).

mod entries;
mod signed;

ghost use Rattle.std.specs.Prelude.{◌≡◌, ◌<◌, ◌^◌, IfErr, IfOk, OnOk, length};
ghost use Rattle.std.specs.Iterator.{IsFinite};
ghost use Rattle.rpki_basics.specs.declared.build.BuildError.TheVariants as error;
ghost use Rattle.rpki_basics.specs.declared.limits.ManifestRule.{ManifestRule};
ghost use Rattle.rpki_der.specs.declared.mode.Mode.TheVariants.{Der};
ghost use Rattle.rpki_files.specs.Manifest.Files.{MeetsRule};
ghost use Rattle.rpki_files.specs.Manifest.{IsManifest, ManifestForm};
ghost use Rattle.rpki_files.specs.Manifest.{manifest_contents, manifest_octets};
ghost use Rattle.rpki_files.specs.Manifest.Built.{Gives, IsContentOf, IsNotBuilt};

use crate::manifest::ManifestContent;
use crate::manifest::file::FileAndHash;
use crate::manifest::read::are_in_order;
use entries::Entries;
use rpki_basics::{BuildError, BuildFault, DigestAlgorithm, ManifestRule, Serial, Time};
use rpki_der::{AsOctets, Encode};
use std::alloc::Global;

impl ManifestContent {
    /// A content with this number, these times and these entries, in their order; each hash has no
    /// unused bits, and is not compared with any file (RFC 9286, section 4.2). There is one
    /// algorithm of hashes. The entries come from an iterator that ends.
    ///
    /// Refuses by the first of these: `UpdateOrder` where `this_update` is after `next_update`,
    /// `BadName` where a name is not that of a file, and under `Registered` `BadExtension` where
    /// the type of a file is not registered, and `RepeatedName` where a name stands twice. Refuses
    /// by `TooLong` where an entry, or the content, would have contents of 2^32 octets or more,
    /// which may hide a repeated name, and by `Memory`.
    pub fn new<
        F: AsOctets + Drop,
        H: AsOctets + Drop,
        I: Iterator<Item = FileAndHash<F, H>> + Drop,
    >(
        alloc: Global,
        number: Serial,
        this_update: Time,
        next_update: Time,
        _algorithm: DigestAlgorithm,
        iter: I,
        rule: ManifestRule,
    ) -> Result<ManifestContent, BuildError>
        requires can { I.can_next iter }
        requires ends { IsFinite (I.remaining iter) }
        ensures built { IfOk result (IsContentOf number this_update next_update
            (Gives I.next_gives F.meaning H.meaning iter)) }
        ensures meets { IfOk result (IsManifest rule) }
        ensures short { IfOk result (λ m. length (manifest_contents m) < 2 ^ 32) }
        ensures written { IfOk result (λ m. ManifestForm rule Der (manifest_octets m) m) }
        ensures refused { IfErr result (IsNotBuilt rule (IsContentOf number this_update next_update
            (Gives I.next_gives F.meaning H.meaning iter))) }
    {
        let entries = Entries::take(alloc, iter, rule)?;
        if !are_in_order(this_update, next_update) {
            drop(entries);
            return Err(BuildError::Fault(BuildFault::UpdateOrder));
        }
        let files = entries.into_list(alloc, rule)?;
        short(ManifestContent {
            number,
            this_update,
            next_update,
            files,
        })
    }
}

// The content, if it has few enough octets to be written.
fn short(content: ManifestContent) -> Result<ManifestContent, BuildError>
    ensures same { IfOk result (λ same. same ≡ content) }
    ensures short { OnOk result (length (manifest_contents content) < 2 ^ 32) }
    ensures written { OnOk result ((rule : ManifestRule) → MeetsRule rule content.files
        → ManifestForm rule Der (manifest_octets content) content) }
    ensures too_long { IfErr result (λ e. e ≡ error.TooLong) }
    ensures refused { IfErr result (λ _. ¬ (length (manifest_contents content) < 2 ^ 32)) }
{
    match content.encode_ref().encoded_len() {
        Ok(_) => Ok(content),
        Err(_) => {
            drop(content);
            Err(BuildError::TooLong)
        }
    }
}
