//! The files that a question names.

ghost use Rattle.std.specs.Prelude.{◌≡◌, IfOk, Ok};
ghost use Rattle.rpki_cli.specs.Store.{IsRead};
ghost use Rattle.rpki_cli.specs.Words.{texts};
ghost use Rattle.rpki_program.specs.Verify.Inputs.{AreOctets, AreTold, IsOctetsIf, IsQuestionOn};
ghost use Rattle.rpki_program.specs.Verify.Inputs.{text_given};

use crate::verify::request::IssuerFiles;
use bytes::Bytes;
use rpki_basics::Time;
use rpki_cli::{Store, StoreError, Unread, read_all};
use rpki_validation::question::{Manner, Question};
use std::alloc::Global;

/// The octets of the files that a question names.
#[derive(Drop)]
pub struct Inputs {
    pub anchor: Bytes,
    pub chain: Vec<Bytes>,
    pub locator: Option<Bytes>,
    pub lists: Vec<Bytes>,
}

/// Reads the files that a question names: the trust anchor, the CAs, the locator and the lists.
/// Refuses by the first that can't be read, or where memory runs out.
pub fn read_inputs<'a, S: Store>(
    alloc: Global,
    under: &IssuerFiles<'a>,
    store: &mut S,
) -> Result<Inputs, Unread<'a>>
    ensures told { IfOk result (λ inputs. AreTold (S.told store.old) under.now inputs) }
    ensures same { S.told store.new ≡ S.told store.old }
{
    let anchor = read_one(alloc, under.ta, store)?;
    let chain = read_each(alloc, &under.cas, store)?;
    let locator = read_if(alloc, under.tal, store)?;
    let lists = read_each(alloc, &under.crls, store)?;
    Ok(Inputs {
        anchor,
        chain,
        locator,
        lists,
    })
}

/// The octets of the file of this name.
pub fn read_one<'a, S: Store>(
    alloc: Global,
    name: &'a str,
    store: &mut S,
) -> Result<Bytes, Unread<'a>>
    ensures told { IfOk result (λ octets. IsRead (S.told store.old name.now) (Ok octets)) }
    ensures same { S.told store.new ≡ S.told store.old }
{
    match store.read(alloc, name) {
        Ok(octets) => Ok(octets),
        Err(StoreError::Unreadable(reason)) => Err(Unread::Unreadable(name, reason)),
        Err(StoreError::Memory) => Err(Unread::Memory),
    }
}

/// The octets of the files of these names.
pub fn read_each<'a, S: Store>(
    alloc: Global,
    names: &[&'a str],
    store: &mut S,
) -> Result<Vec<Bytes>, Unread<'a>>
    ensures told { IfOk result (λ files. AreOctets (S.told store.old) (texts names.now) files.items) }
    ensures same { S.told store.new ≡ S.told store.old }
{
    match read_all(alloc, names, store) {
        Ok(files) => Ok(files),
        Err(unread) => Err(unread),
    }
}

/// The octets of the file of a name, if there is one.
fn read_if<'a, S: Store>(
    alloc: Global,
    name: Option<&'a str>,
    store: &mut S,
) -> Result<Option<Bytes>, Unread<'a>>
    ensures told { IfOk result (λ octets. IsOctetsIf (S.told store.old) (text_given name.entry)
        octets) }
    ensures same { S.told store.new ≡ S.told store.old }
{
    match name {
        None => Ok(None),
        Some(name) => Ok(Some(read_one(alloc, name, store)?)),
    }
}

/// The question on these inputs, at this moment and in this manner.
pub fn question_of<'s>(inputs: &'s Inputs, moment: Time, manner: Manner) -> Question<'s>
    ensures { IsQuestionOn inputs.now moment manner result }
{
    Question {
        anchor: &inputs.anchor,
        locator: inputs.locator.as_ref(),
        chain: &inputs.chain,
        lists: &inputs.lists,
        moment,
        manner,
    }
}
