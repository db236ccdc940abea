//! What a program of the signed objects of the RPKI is asked by its words, and what it answers.
#![tactic(auto)]

pub mod verify;
