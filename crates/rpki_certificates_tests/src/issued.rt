//! Tests of `rpki_issued`. Certificates are made of values and signed by the stand-in's signer.
//!
//! A test hands want of memory on and asserts everything else. That what is made has the fields
//! that were handed in, and is in its form, is proved.

mod given;
mod made;
mod octets;
