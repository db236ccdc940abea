//! The command line of the programs of the signed objects of the RPKI: what their words ask for, the
//! files that these name, and what a run says, on which stream, and with which exit status.
#![tactic(auto)]

pub mod anchor_words;
pub mod answer;
mod arguments;
mod causes;
pub mod clock;
mod files;
pub mod laws;
pub mod pairs;
mod read_log;
mod runs;
mod store;
pub mod words;

pub use arguments::{Arguments, ProcessArguments, WordsError, words_of};
pub use causes::{Causes, refusal, unread};
pub use files::{Work, answer_anchors, answer_files, answer_tail};
pub use read_log::ReadLog;
pub use runs::{Program, command, texts_of};
pub use store::{FilesAndInput, Reason, Store, StoreError, SystemFiles, Unread, read_all};
