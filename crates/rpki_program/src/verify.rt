//! The program that computes signatures: its options and words, and a module for each command.

pub mod check;
pub mod copies;
pub mod explain;
pub mod files;
pub mod folders;
pub mod inputs;
pub mod items;
pub mod kinds;
pub mod laws;
mod messages;
pub mod options;
pub mod payloads;
mod places;
pub mod report;
pub mod request;
pub mod rta;
pub mod run;
pub mod show;
pub mod system;
pub mod time;
pub mod usage;
pub mod verdicts;
pub mod words;
