//! Manifests.

pub use rpki_basics::ManifestRule;
pub use rpki_files::{
    FileAndHash, FileEncoder, FileEntry, FileListIter, Files, Manifest, ManifestContent,
    ManifestEncoder, ManifestHash, ManifestHashMismatch, ManifestUriIter, ValidateManifest,
};

/// What is wrong with a manifest.
pub mod faults {
    pub use rpki_files::faults::{
        BAD_MANIFEST_NAME, FILE_NAME_TWICE, FILE_TYPE_NOT_REGISTERED, UNKNOWN_HASH_ALGORITHM,
        UPDATES_NOT_IN_ORDER, WRONG_VERSION,
    };
}

/// What the definitions of manifests say.
pub mod laws {
    pub use rpki_files::laws::{
        built_manifests_are_valid, file_names, joined_names, manifests,
        octets_after_a_manifest_are_left, refused_manifests, registered_is_any,
    };
}
