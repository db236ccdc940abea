//! URIs of objects: rsync and https.

pub use rpki_basics::uri::{Error, Https, Rsync};
