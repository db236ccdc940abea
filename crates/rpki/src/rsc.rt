//! Signed checklists.

pub use rpki_files::{
    CheckListIter, CheckedEntry, CheckedFiles, ChecklistEncoder, FileNameAndHash, InspectResources,
    ResourceSignedChecklist, Rsc,
};

/// What is wrong with a checklist.
pub mod faults {
    pub use rpki_files::faults::{BAD_CHECKLIST_NAME, NO_RESOURCES, WRONG_VERSION};
}

/// What the definitions of checklists say.
pub mod laws {
    pub use rpki_files::laws::{checklists, covered_checklists, octets_after_a_checklist_are_left};
}
