//! Trust anchor locators, as a program that fetches certificates uses them.

ghost use Rattle.std.specs.Prelude.{◌≡◌, ◌+◌, ℕ, List, IfOk, Ok, Some, bytes_eq};
ghost use Rattle.rpki_tal.specs.declared.uri.TalUri.{TalUri};
ghost use Rattle.rpki_tal.specs.Uri.{https_first};
ghost use Rattle.rpki_tal.specs.Faults.{EndsInLine};
ghost use Rattle.rpki_tal.specs.Form.{HasComments};
ghost use Rattle.rpki_tal.specs.Read.{ReadsTal, failed_calls};
ghost use Rattle.rpki_examples.specs.Locators.{IsCutOff};

use rpki::crypto::PublicKey;
use rpki::der::Source;
use rpki::tal::laws::{faults_are_no_locators, faults_are_one};
use rpki::tal::{ReadError, Tal};
use std::alloc::Global;

/// Reads the locator that a source gives, and puts its https URIs first.
pub fn read_https_first<S: Source>(
    alloc: Global,
    name: String,
    source: &mut S,
) -> Result<Tal, ReadError>
    ensures { IfOk result (λ tal. (uris : List TalUri)
        × ReadsTal (S.left source.old) (S.left source.new) (Ok (record tal { uris = uris }))
        × (tal.uris ≡ https_first uris)) }
{
    let mut tal = Tal::read_named(alloc, name, source)?;
    match tal.prefer_https() {
        Ok(()) => Ok(tal),
        Err(error) => {
            drop(tal);
            Err(ReadError::from(error))
        }
    }
}

/// Reads the locator that a source gives. A text that ends within its list of URIs, in a line that
/// lacks its line feed, is refused as one that ends too early, even where that line is a key. `Io`
/// comes exactly where a call of the source has failed.
pub fn read_whole<S: Source>(alloc: Global, name: String, source: &mut S) -> Result<Tal, ReadError>
    ensures read { ReadsTal (S.left source.old) (S.left source.new) result }
    ensures cut { (text list : List ℕ) → S.left source.old ≡ Some text → HasComments text list
        → EndsInLine list → IsCutOff result }
    ensures io { S.failures source.new ≡ S.failures source.old + failed_calls result }
{
    faults_are_no_locators();
    faults_are_one();
    Tal::read_named(alloc, name, source)
}

/// Whether a key is the one that the certificate of the trust anchor has to have.
pub fn is_key_of(tal: &Tal, key: &PublicKey) -> bool
    ensures { result ≡ bytes_eq key.now tal.now.key }
{
    key == tal.key_info()
}
