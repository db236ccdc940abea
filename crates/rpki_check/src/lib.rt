//! The checks of signed objects of the RPKI as calls from C, which `include/rpki_check.h` declares.
//!
//! A call keeps nothing: what it allocates it frees before it returns, so calls in several threads
//! don't meet. It requires nothing of its caller but what the types of its parameters say.
#![tactic(auto)]

mod attestation;
mod edition;
mod exports;
mod files;
mod grounds;
mod kinds;
mod laws;
mod many;
mod numbers;
mod object;
mod question;
mod refusal;
mod report;
mod room;
mod rows;
#[cfg(test)]
mod tests;
