//! The reader: line by line, names are put and axioms collected.

ghost use Rattle.std.specs.Prelude.{◌≡◌, ◌≤◌, ◌<◌, ◌^◌, length, IfOk, IfErr, OnOk};
ghost use Rattle.axiom_reader.specs.Meaning.{IsRefused, Reads};
ghost use Rattle.axiom_reader.specs.Numbering.{Grows, HasRoom, Keeps};
ghost use Rattle.axiom_reader.specs.Parts.{IsLineRefused, IsTaken};
ghost use Rattle.axiom_reader.specs.Reading.{most_axioms};

use crate::lines::{Line, first_line, line_of, skip_marks};
use crate::put::put_axiom;
use crate::refusal::AxiomRefusal;
use cq_terms::{Axiom, Vocab};
use std::alloc::Global;

/// How many axioms a text may have.
const MOST_AXIOMS: usize = 20_000;

/// Reads an ontology: answers its axioms in order of lines, and numbers its concept names and role names in `vocab`.
///
/// Byte order marks at the beginning are skipped. A line ends at LF, and a CR before that or at the end of the text isn't
/// part of it. A line of blanks alone, or whose first other character is `#`, gives nothing. Every other line is one
/// axiom: `B < C`, `B < not C`, `role R < S` or `role R < not S`, where `B` and `C` are a name or `some` and a role, and
/// `R` and `S` are a name or `inv` and a name, with spaces or tabs between the words.
///
/// A refusal other than want of memory is the fault of the first line that has one: `NotUtf8`, or else `BadLine` where
/// it has none of these forms. `TooMany` is the fault of the line of axiom 20,001, unless that line has another. After a
/// refusal, names of the text may be numbered.
pub fn read_axioms(
    alloc: Global,
    bytes: &[u8],
    vocab: &mut Vocab,
) -> Result<Vec<Axiom>, AxiomRefusal>
    requires room { HasRoom bytes.now vocab.old }

    ensures exact { IfOk result (λ axioms. Reads bytes.now vocab.old vocab.new axioms.items) }
    ensures refused { IfErr result (λ refusal. IsRefused bytes.now refusal) }
    ensures long { IfOk result (λ axioms. length axioms.items ≤ length bytes.now) }

    ensures kept { Keeps vocab.old vocab.new }
    ensures grown { Grows (length bytes.now) vocab.old vocab.new }
    ensures inds { vocab.new.inds ≡ vocab.old.inds }
{
    let mut axioms = Vec::new(alloc);
    let mut rest = skip_marks(bytes);
    let mut number = 0;
    while !rest.is_empty() {
        let (line, after) = first_line(rest);
        number += 1;
        take_line(line, number, &mut axioms, vocab)?;
        rest = after;
    }
    Ok(axioms)
}

/// Puts the names of a line, if it is an axiom, and the axiom at the end of the list.
fn take_line(
    text: &[u8],
    number: u32,
    axioms: &mut Vec<Axiom>,
    vocab: &mut Vocab,
) -> Result<(), AxiomRefusal>
    requires concepts { length vocab.old.concepts < 2 ^ 31 }
    requires roles { length vocab.old.roles < 2 ^ 31 }
    requires few { length axioms.old.items ≤ most_axioms }

    ensures exact { OnOk result
        (IsTaken text.now vocab.old vocab.new axioms.old.items axioms.new.items) }
    ensures refused { IfErr result
        (λ refusal. IsLineRefused (length axioms.old.items) number text.now refusal) }

    ensures kept { Keeps vocab.old vocab.new }
    ensures grown { Grows (length text.now) vocab.old vocab.new }
    ensures inds { vocab.new.inds ≡ vocab.old.inds }
{
    let named = match line_of(text) {
        Line::Nothing => return Ok(()),
        Line::Axiom(named) => named,
        Line::NotUtf8 => return Err(AxiomRefusal::NotUtf8 { line: number }),
        Line::Bad => return Err(AxiomRefusal::BadLine { line: number }),
    };
    if axioms.len() == MOST_AXIOMS {
        return Err(AxiomRefusal::TooMany);
    }
    let axiom = put_axiom(&named, vocab)?;
    axioms.push(axiom)?;
    Ok(())
}
