//! Tests of `rpki_relying_party`.
#![tactic(auto)]

#[cfg(test)]
mod folder;
#[cfg(test)]
mod run;
#[cfg(test)]
mod walk;
