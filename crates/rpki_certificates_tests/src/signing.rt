//! Tests of `rpki_signing`, of the kinds that are signed with it, and of the checks in
//! `rpki_signed`: objects that are built, under an issuer whose certificate another program made.
//! Keys and signatures are those of the stand-in.
//!
//! A test hands want of memory on and asserts everything else.

mod checks;
mod given;
mod objects;
