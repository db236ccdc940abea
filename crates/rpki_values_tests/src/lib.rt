//! Tests of the grammar, of sets and of values: of `rpki_der`, `rpki_resources`, `rpki_basics`,
//! `rpki_rsa` and `rpki_attributes`, each in the module of its name.
#![tactic(auto)]

#[cfg(test)]
mod attributes;
#[cfg(test)]
mod basics;
#[cfg(test)]
mod der;
#[cfg(test)]
mod reads;
#[cfg(test)]
mod resources;
#[cfg(test)]
mod rsa;
