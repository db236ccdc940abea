//! A relying party: what the valid objects in a copy of the repositories say.
#![tactic(auto)]

mod anchor;
mod cause;
mod copy;
mod files;
mod folder;
mod found;
mod kind;
pub mod laws;
mod list;
mod locator;
mod manifest;
mod memory;
mod pass;
mod payload;
mod payloads;
mod place;
mod places;
mod point;
mod queue;
mod reader;
mod refusals;
mod revoked;
mod run;
mod under;
mod walk;

pub use anchor::{AnchorFault, anchor_of};
pub use cause::{Cause, FileFault, ListFault, ManifestFault};
pub use copy::{Fetched, NoFile, Repository};
pub use folder::{FolderCopy, Folders, MAX_FILE, MAX_PARTS, SystemFolders, is_below, locator_name};
pub use found::{BoxedRefusal, Finding, Found, Refusal};
pub use locator::{RunFault, refuse_unread, run_under};
pub use pass::Pass;
pub use payload::{Held, Origin, Payload, Provider};
pub use payloads::Payloads;
pub use place::Place;
pub use places::{Places, Reading, Told};
pub use refusals::Refusals;
pub use walk::{Unread, Why, walk_from};
