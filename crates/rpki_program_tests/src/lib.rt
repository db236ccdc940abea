//! Tests of the programs: of their runs in the module `command`, and in `program` of what words say.
#![tactic(auto)]

#[cfg(test)]
mod command;
#[cfg(test)]
mod program;
