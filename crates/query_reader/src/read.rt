//! The reader of query texts.

ghost use Rattle.std.specs.Prelude.{◌≡◌, ◌<◌, ◌^◌, length, IfOk, IfErr};
ghost use Rattle.axiom_reader.specs.Numbering.{HasRoom};
ghost use Rattle.query_reader.specs.declared.place.Place.TheVariants as at;
ghost use Rattle.query_reader.specs.Queries.{Explains, GrowsBy, IsQueryOf, KeepsNames, after_marks};
ghost use Rattle.query_reader.specs.Steps.{IsDraft, IsHalt, IsRefusalOf, IsWithin};

use crate::body::read_body;
use crate::draft::{Draft, checked};
use crate::head::read_head;
use crate::refusal::{Halt, QueryRefusal};
use cq_terms::{Cq, Names, Vocab};
use std::alloc::Global;

/// The bytes EF BB BF.
const MARK: [u8; 3] = [0xEF, 0xBB, 0xBF];

/// Reads a query text `?x ?y <- A(?x), P(?x,'an individual')`, whose variables are numbered from 0 by first appearance
/// and whose other names by `vocab`, where new ones are put from left to right.
///
/// Byte order marks at the beginning are skipped, and positions are counted after them. A text that is no query is
/// refused with `BadToken` at its first fault. A query text is refused with `TooManyAtoms` for more than 12 atoms, then
/// with `RepeatedHead` at the first place of the head whose variable stood earlier, then with `HeadNotInBody` at the
/// first whose variable isn't in the body; with `NoMemory` where memory ran out. The names that were put before a
/// refusal stay.
pub fn read_query(alloc: Global, bytes: &[u8], vocab: &mut Vocab) -> Result<Cq, QueryRefusal>
    requires room { HasRoom bytes.now vocab.old }

    ensures exact { IfOk result (λ query. IsQueryOf (after_marks bytes.now) vocab.old vocab.new query) }
    ensures refused { IfErr result (λ refusal. Explains (after_marks bytes.now) refusal) }

    ensures kept { KeepsNames vocab.old vocab.new }
    ensures grown { GrowsBy (length bytes.now) vocab.old vocab.new }
{
    let text = after_marks(bytes);
    match read_draft(alloc, text, vocab) {
        Ok(draft) => checked(draft),
        Err(halt) => Err(refusal_of(halt, text.len())),
    }
}

/// The bytes after every byte order mark at their beginning.
fn after_marks(bytes: &[u8]) -> &[u8]
    ensures exact { result.now ≡ after_marks bytes.now }
{
    let mut rest = bytes;
    while let Some(after) = rest.strip_prefix(MARK.as_slice()) {
        rest = after;
    }
    rest
}

/// Reads a text of the grammar and numbers its names.
fn read_draft(alloc: Global, text: &[u8], vocab: &mut Vocab) -> Result<Draft, Halt>
    requires room { HasRoom text.now vocab.old }

    ensures found { IfOk result (λ draft. IsDraft text.now vocab.old vocab.new draft) }
    ensures halt { IfErr result (λ halt. IsHalt at.Head text.now halt) }

    ensures kept { KeepsNames vocab.old vocab.new }
    ensures grown { GrowsBy (length text.now) vocab.old vocab.new }
{
    let mut variables = Names::new(alloc);
    let (head, rest) = read_head(alloc, text, &mut variables)?;
    let body = read_body(alloc, rest, &mut variables, vocab)?;
    Ok(Draft {
        head: head.terms,
        repeated: head.repeated,
        body,
    })
}

/// The refusal of a text of this length whose reading halts.
fn refusal_of(halt: Halt, size: usize) -> QueryRefusal
    requires fits { size < 2 ^ 32 }
    requires within { IsWithin halt size }

    ensures exact { IsRefusalOf halt size result }
{
    match halt {
        Halt::Fault(fault) => QueryRefusal::BadToken {
            at: (size - fault.left) as u32,
        },
        Halt::NoMemory => QueryRefusal::NoMemory,
    }
}
