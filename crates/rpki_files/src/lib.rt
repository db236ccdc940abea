//! What lists files: manifests (RFC 9286) and signed checklists (RFC 9323), their contents, and
//! what is checked of the objects that carry these.
#![tactic(auto)]

mod checklist;
pub mod faults;
pub mod laws;
mod manifest;
mod name;
mod version;

pub use checklist::{
    CheckListIter, CheckedEntry, CheckedFiles, ChecklistEncoder, FileNameAndHash, InspectResources,
    ResourceSignedChecklist, Rsc,
};
pub use manifest::{
    FileAndHash, FileEncoder, FileEntry, FileListIter, Files, Manifest, ManifestContent,
    ManifestEncoder, ManifestHash, ManifestHashMismatch, ManifestUriIter, ValidateManifest,
};
pub use name::is_type;
