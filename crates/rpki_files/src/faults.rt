//! What is wrong with manifests and checklists, in words.

/// A version is not the one of the format (RFC 9286, section 4.2.1; RFC 9323, section 4.1).
pub const WRONG_VERSION: &str = "version is not 0";

/// The algorithm of a manifest's hashes is not SHA-256 (RFC 7935, section 2).
pub const UNKNOWN_HASH_ALGORITHM: &str = "fileHashAlg is not SHA-256";

/// A manifest's thisUpdate is after its nextUpdate (RFC 9286, section 4.2.1).
pub const UPDATES_NOT_IN_ORDER: &str = "thisUpdate is after nextUpdate";

/// A name in a manifest is not in its form (RFC 9286, section 4.2.2).
pub const BAD_MANIFEST_NAME: &str = "file name in fileList is not in its form";

/// A file name's extension is not registered (RFC 9286, section 4.2.2).
pub const FILE_TYPE_NOT_REGISTERED: &str =
    "file name in fileList has an extension that is not registered";

/// A manifest has a file name more than once (RFC 9286, section 4.2.1).
pub const FILE_NAME_TWICE: &str = "file name stands more than once in fileList";

/// A checklist names no resources (RFC 9323, section 4.2).
pub const NO_RESOURCES: &str = "resources names neither AS numbers nor addresses";

/// A name in a checklist has an octet that is not allowed (RFC 9323, section 4.4.1).
pub const BAD_CHECKLIST_NAME: &str = "fileName has a character that is not allowed";
