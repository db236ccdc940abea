//! What a question is answered on.

ghost use Rattle.std.specs.Prelude.{◌≡◌, IfOk, None};
ghost use Rattle.rpki_basics.specs.Moment.{IsMoment};
ghost use Rattle.rpki_validation.specs.Grounds.{locator_octets};
ghost use Rattle.rpki_check.specs.Grounds.{AreCopies, Asks, IsGrounded, IsPosedGrounded, lent};
ghost use Rattle.rpki_check.specs.Grounds.{moment_in};

use crate::question::{Octets, Question, manner_of, moment_of};
use crate::refusal::{Refusal, told_as};
use bytes::Bytes;
use rpki_basics::Time;
use rpki_validation::grounds;
use rpki_validation::grounds::Grounds;
use rpki_validation::question::Question as Posed;
use std::alloc::{AllocError, Global};

/// The octets of a question, in memory of the call's own.
#[derive(Drop)]
struct Copies {
    anchor: Bytes,
    chain: Vec<Bytes>,
    lists: Vec<Bytes>,
}

/// The grounds of a question, or why it has none.
pub fn grounds_of(alloc: Global, question: &Question<'_>) -> Result<Grounds, Refusal>
    ensures { IsGrounded question.now result }
{
    match moment_of(question.moment) {
        None => Err(Refusal::NoMoment),
        Some(moment) => match copies_of(alloc, question) {
            Err(_) => Err(Refusal::Memory),
            Ok(copies) => {
                let grounds = grounds_posed(alloc, &posed(question, &copies, moment));
                drop(copies);
                grounds
            }
        },
    }
}

/// Copies of the octets of a question.
fn copies_of(alloc: Global, question: &Question<'_>) -> Result<Copies, AllocError>
    ensures { IfOk result (AreCopies question.now) }
{
    let anchor = Bytes::copy_from_slice(alloc, question.anchor)?;
    let chain = copy_each(alloc, question.chain)?;
    let lists = copy_each(alloc, question.lists)?;
    Ok(Copies {
        anchor,
        chain,
        lists,
    })
}

/// A copy of each of these octets.
fn copy_each(alloc: Global, octets: &[Octets<'_>]) -> Result<Vec<Bytes>, AllocError>
    ensures { IfOk result (λ copies. copies.items ≡ lent octets.now) }
{
    let mut copies = Vec::new(alloc);
    for one in octets {
        let copy = Bytes::copy_from_slice(alloc, one.octets)?;
        copies.push(copy)?;
    }
    Ok(copies)
}

/// The question that is asked, of these copies.
fn posed<'a>(question: &Question<'_>, copies: &'a Copies, moment: Time) -> Posed<'a>
    requires copied { AreCopies question.now copies.now }
    requires moment { moment ≡ moment_in question.now.moment }
    requires is_moment { IsMoment moment }
    ensures { Asks question.now result }
{
    Posed {
        anchor: &copies.anchor,
        locator: None,
        chain: &copies.chain,
        lists: &copies.lists,
        moment,
        manner: manner_of(question),
    }
}

/// The grounds of a question without a locator, or why it has none, in the words of C.
fn grounds_posed(alloc: Global, posed: &Posed<'_>) -> Result<Grounds, Refusal>
    requires { locator_octets posed.now ≡ None }
    ensures { IsPosedGrounded posed.now result }
{
    match grounds::grounds_of(alloc, posed) {
        Ok(grounds) => Ok(grounds),
        Err(refusal) => Err(told_as(refusal)),
    }
}
