//! Tests of contents: of `rpki_lists`, `rpki_files`, `rpki_routes`, `rpki_tagged` and `rpki_tal`,
//! each in the module of its name.
#![tactic(auto)]

#[cfg(test)]
mod contents;
#[cfg(test)]
mod files;
#[cfg(test)]
mod lists;
#[cfg(test)]
mod routes;
#[cfg(test)]
mod tagged;
#[cfg(test)]
mod tal;
