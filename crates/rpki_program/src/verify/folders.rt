//! The files of a folder, beside those that a manifest or a checklist lists.

ghost use Rattle.std.specs.Prelude.{◌≡◌, IfOk, IfSome, None, OnOk, Some, map, string_bytes};
ghost use Rattle.sha2.specs.Sha256.{sha256};
ghost use Rattle.rpki_cli.specs.Store.{IsRead};
ghost use Rattle.rpki_relying_party.specs.Steps.{Adds, has_key};
ghost use Rattle.rpki_program.specs.Verify.Files.{AreHeld, AreDigests, HasOneMore, IsState, IsStateOf};
ghost use Rattle.rpki_program.specs.Verify.Files.{IsUnnamedState, folder_with, named_of, path_in};
ghost use Rattle.rpki_program.specs.Verify.Files.{status_of, unread_with};

use crate::verify::report::{UNREADABLE, worse};
use bytes::Bytes;
use rpki_basics::Crypto;
use rpki_cli::{Reason, Store, StoreError};
use rpki_der::LowerHex;
use rpki_rsa::Rsa;
use rpki_show::texts::ia5::Ia5;
use std::alloc::{AllocError, Global};
use std::collections::BTreeSet;
use std::fmt::Write;

/// A file that is listed: its name, if it has one, and its hash.
#[derive(Clone, Copy, Drop)]
pub struct Wanted<'c> {
    pub name: Option<&'c [u8]>,
    pub hash: &'c [u8],
}

/// What a folder has of a file that is listed.
#[derive(Clone, Copy, Debug, PartialEq, Eq)]
pub enum State {
    /// One with its name, if it has one, and its hash.
    Held,
    /// One with its name and another hash.
    Differs,
    /// None.
    Missing,
    /// One that can't be read, for this reason.
    Unreadable(Reason),
}

/// What a folder has of all files that are listed, in lines, and the status that goes with it.
#[derive(Debug, Drop)]
pub struct Compared {
    pub lines: String,
    pub status: u8,
}

/// The digests of the files of a folder, and why one can't be read, if one can't.
#[derive(Drop)]
struct Digests {
    known: BTreeSet<Vec<u8>>,
    unread: Option<Reason>,
}

/// A folder and the names of its files.
#[derive(Clone, Copy)]
pub struct Folder<'a> {
    pub path: &'a str,
    pub names: &'a [String],
}

impl State {
    /// Its word.
    fn word(self) -> &'static str {
        match self {
            State::Held => "held",
            State::Differs => "differs",
            State::Missing => "missing",
            State::Unreadable(_) => "unreadable",
        }
    }

    /// Why the file can't be read, after its name, where the system tells it.
    fn reason(self) -> &'static str {
        match self {
            State::Held | State::Differs | State::Missing => "",
            State::Unreadable(reason) => reason.text(),
        }
    }

    /// The status where the folder has this of a file.
    fn status(self) -> u8
        ensures { result ≡ status_of self }
    {
        match self {
            State::Held => 0,
            State::Differs => 1,
            State::Missing => 1,
            State::Unreadable(_) => UNREADABLE,
        }
    }
}

/// What a folder has of files that are listed. A file is read where its name is listed; where a hash
/// is listed without a name, each file of the folder is read, once for all such hashes. Memory holds
/// the largest file, the lines, and in the latter case a digest for each file of the folder; the
/// work beside the reads is in proportion to what is listed, for each such hash times the logarithm
/// of the number of files.
pub fn compare<S: Store>(
    alloc: Global,
    folder: Folder<'_>,
    wanted: &[Wanted<'_>],
    store: &mut S,
) -> Result<Compared, AllocError>
    ensures { IfOk result (λ c. AreHeld (folder_with (S.told store.old) folder.entry)
        (map named_of wanted.now) c.status) }
{
    let mut digests = None;
    let mut lines = String::new(alloc);
    let mut status = 0;
    for i in 0..wanted.len() {
        let state = state_of(alloc, folder, wanted[i], &mut digests, store)?;
        push_state(&mut lines, state, wanted[i])?;
        status = worse(status, state.status());
    }
    Ok(Compared { lines, status })
}

/// Appends the line of a file. The names that an object lists have no characters but letters,
/// digits, `-`, `_` and `.`.
fn push_state(text: &mut String, state: State, wanted: Wanted<'_>) -> Result<(), AllocError> {
    let (word, reason) = (state.word(), state.reason());
    match wanted.name {
        Some(name) => {
            let name = Ia5(name);
            write!(text, "{word} {name}{reason}\n")
        }
        None => {
            let hash = LowerHex(wanted.hash);
            write!(text, "{word} {hash}{reason}\n")
        }
    }
}

/// What a folder has of a file that is listed.
fn state_of<S: Store>(
    alloc: Global,
    folder: Folder<'_>,
    wanted: Wanted<'_>,
    digests: &mut Option<Digests>,
    store: &mut S,
) -> Result<State, AllocError>
    requires { IfSome digests.old (λ d. AreDigests (folder_with (S.told store.old) folder)
        (has_key d.known) d.unread) }
    ensures state { IfOk result (IsState (folder_with (S.told store.old) folder.entry)
        (named_of wanted.entry)) }
    ensures digests { IfSome digests.new (λ d. AreDigests (folder_with (S.told store.old) folder.entry)
        (has_key d.known) d.unread) }
    ensures same { S.told store.new ≡ S.told store.old }
{
    match wanted.name {
        Some(name) => state_named(alloc, folder, name, wanted.hash, store),
        None => state_unnamed(alloc, folder, wanted.hash, digests, store),
    }
}

/// What a folder has of a file with this name and this hash.
fn state_named<S: Store>(
    alloc: Global,
    folder: Folder<'_>,
    name: &[u8],
    hash: &[u8],
    store: &mut S,
) -> Result<State, AllocError>
    ensures state { IfOk result (IsState (folder_with (S.told store.old) folder.entry)
        (Some name.now, hash.now)) }
    ensures same { S.told store.new ≡ S.told store.old }
{
    let Ok(text) = str::from_utf8(name) else {
        return Ok(State::Missing);
    };
    match read_in(alloc, folder, text, store) {
        Err(StoreError::Memory) => Err(AllocError),
        Err(StoreError::Unreadable(Reason::NotFound)) => Ok(State::Missing),
        Err(StoreError::Unreadable(reason)) => Ok(State::Unreadable(reason)),
        Ok(octets) => Ok(state_with(&octets, hash)),
    }
}

/// The octets of the file of a folder with this name.
fn read_in<S: Store>(
    alloc: Global,
    folder: Folder<'_>,
    name: &str,
    store: &mut S,
) -> Result<Bytes, StoreError>
    ensures told { IsRead (S.told store.old (path_in folder.entry.path.now name.now)) result }
    ensures same { S.told store.new ≡ S.told store.old }
{
    match path_of(alloc, folder, name) {
        Err(AllocError) => Err(StoreError::Memory),
        Ok(path) => store.read(alloc, &path),
    }
}

/// The name of the file of a folder with this name.
fn path_of(alloc: Global, folder: Folder<'_>, name: &str) -> Result<String, AllocError>
    ensures { IfOk result (λ path. string_bytes path ≡ path_in folder.entry.path.now name.now) }
{
    let path = folder.path;
    format!(in alloc; "{path}/{name}")
}

/// What a file with these octets is, where one with this hash is wanted.
fn state_with(octets: &Bytes, hash: &[u8]) -> State
    ensures { IsStateOf octets.now hash.now result }
{
    if Rsa.digest(octets.as_slice()).as_slice() == hash {
        State::Held
    } else {
        State::Differs
    }
}

/// What a folder has of a file with this hash and any name. The digests of its files are made where
/// they are not known yet.
fn state_unnamed<S: Store>(
    alloc: Global,
    folder: Folder<'_>,
    hash: &[u8],
    digests: &mut Option<Digests>,
    store: &mut S,
) -> Result<State, AllocError>
    requires { IfSome digests.old (λ d. AreDigests (folder_with (S.told store.old) folder)
        (has_key d.known) d.unread) }
    ensures state { IfOk result (IsState (folder_with (S.told store.old) folder.entry)
        (None, hash.now)) }
    ensures digests { IfSome digests.new (λ d. AreDigests (folder_with (S.told store.old) folder.entry)
        (has_key d.known) d.unread) }
    ensures same { S.told store.new ≡ S.told store.old }
{
    let made = known_or_made(alloc, folder, digests.take(), store)?;
    let state = made.state(hash);
    *digests = Some(made);
    Ok(state)
}

/// The digests of the files of a folder, if they are not known yet.
fn known_or_made<S: Store>(
    alloc: Global,
    folder: Folder<'_>,
    known: Option<Digests>,
    store: &mut S,
) -> Result<Digests, AllocError>
    requires { IfSome known (λ d. AreDigests (folder_with (S.told store.old) folder)
        (has_key d.known) d.unread) }
    ensures digests { IfOk result (λ d. AreDigests (folder_with (S.told store.old) folder.entry)
        (has_key d.known) d.unread) }
    ensures same { S.told store.new ≡ S.told store.old }
{
    match known {
        Some(known) => Ok(known),
        None => digests_of(alloc, folder, store),
    }
}

impl Digests {
    /// What the folder has of a file with this hash and any name.
    fn state(&self, hash: &[u8]) -> State
        ensures { IsUnnamedState (has_key self.now.known hash.now) self.now.unread result }
    {
        if self.known.contains(hash) {
            return State::Held;
        }
        match self.unread {
            None => State::Missing,
            Some(reason) => State::Unreadable(reason),
        }
    }
}

/// The digests of the files of a folder.
fn digests_of<S: Store>(
    alloc: Global,
    folder: Folder<'_>,
    store: &mut S,
) -> Result<Digests, AllocError>
    ensures digests { IfOk result (λ d. AreDigests (folder_with (S.told store.old) folder.entry)
        (has_key d.known) d.unread) }
    ensures same { S.told store.new ≡ S.told store.old }
{
    let mut digests = Digests {
        known: BTreeSet::new(alloc),
        unread: None,
    };
    for i in 0..folder.names.len() {
        add_file(alloc, folder, &folder.names[i], &mut digests, store)?;
    }
    Ok(digests)
}

/// Adds what the file of a folder with this name has.
fn add_file<S: Store>(
    alloc: Global,
    folder: Folder<'_>,
    name: &str,
    digests: &mut Digests,
    store: &mut S,
) -> Result<(), AllocError>
    ensures digests { OnOk result (HasOneMore (folder_with (S.told store.old) folder.entry) name.now
        (has_key digests.old.known) digests.old.unread
        (has_key digests.new.known) digests.new.unread) }
    ensures same { S.told store.new ≡ S.told store.old }
{
    match read_in(alloc, folder, name, store) {
        Err(StoreError::Memory) => Err(AllocError),
        Err(StoreError::Unreadable(reason)) => {
            digests.unread = unread_with(digests.unread, reason);
            Ok(())
        }
        Ok(octets) => push_digest(alloc, &mut digests.known, &octets),
    }
}

/// Why a file can't be read, with one more that can't be for this reason. One that is not there is
/// none.
fn unread_with(unread: Option<Reason>, reason: Reason) -> Option<Reason>
    ensures { result ≡ unread_with unread reason }
{
    match reason {
        Reason::NotFound => unread,
        Reason::NotPermitted | Reason::Folder | Reason::Untold => Some(reason),
    }
}

/// Adds the digest of octets.
fn push_digest(
    alloc: Global,
    known: &mut BTreeSet<Vec<u8>>,
    octets: &Bytes,
) -> Result<(), AllocError>
    ensures { OnOk result (Adds (sha256 octets.now) (has_key known.old) (has_key known.new)) }
{
    let digest = Rsa.digest(octets.as_slice());
    let digest = Vec::from_slice(alloc, digest.as_slice())?;
    add(known, digest)
}

/// Adds a digest.
fn add(known: &mut BTreeSet<Vec<u8>>, digest: Vec<u8>) -> Result<(), AllocError>
    ensures { OnOk result (Adds digest.items (has_key known.old) (has_key known.new)) }
{
    known.insert(digest)?;
    Ok(())
}

/// Appends a line for each file of a folder that is not listed, but for one with the name that this
/// path ends with, in the order of the names. The work is in proportion to all names times the
/// logarithm of how many there are.
pub fn push_unlisted(
    alloc: Global,
    text: &mut String,
    folder: Folder<'_>,
    but: &str,
    wanted: &[Wanted<'_>],
) -> Result<(), AllocError> {
    let mut listed = BTreeSet::new(alloc);
    for file in wanted {
        if let Some(name) = file.name {
            listed.insert(name)?;
        }
    }
    let mut unlisted = BTreeSet::new(alloc);
    for name in folder.names {
        let octets = name.as_bytes();
        if !listed.contains(octets) && name.as_str() != last_name(but) {
            unlisted.insert(octets)?;
        }
    }
    for name in unlisted {
        // A name has any characters: in escapes it stands in its own line.
        write!(text, "unlisted {}\n", name.escape_ascii())?;
    }
    Ok(())
}

/// The name that a path ends with.
fn last_name(path: &str) -> &str {
    match path.rsplit_once('/') {
        None => path,
        Some((_, name)) => name,
    }
}
