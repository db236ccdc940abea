//! Tests of `rpki_rsa`, each a table of rows that one small function walks.
//!
//! Keys and signatures are those of `openssl` (`tools/rsa_vectors.py`).

mod encodings;
mod keys;
mod kinds;
mod moduli;
mod numbers;
mod others;
mod right;
mod verdicts;
