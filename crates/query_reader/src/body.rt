//! Reads the body of a query text.

ghost use Rattle.std.specs.Prelude.{length, IfOk, IfErr};
ghost use Rattle.query_reader.specs.declared.place.Place.TheVariants as at;
ghost use Rattle.query_reader.specs.Numbering.{AddsAtMost, KeepsNumbers, numbers_of};
ghost use Rattle.query_reader.specs.Steps.{HasSpace, IsBodyRead, IsHalt};

use crate::atom::atom_at;
use crate::between::atom_end;
use crate::numbering::put_atom;
use crate::refusal::Halt;
use cq_terms::{Names, QAtom, Vocab};
use std::alloc::Global;

/// Reads the body up to the end of the text, puts its names, and answers its atoms by their numbers.
pub(crate) fn read_body(
    alloc: Global,
    text: &[u8],
    variables: &mut Names,
    vocab: &mut Vocab,
) -> Result<Vec<QAtom>, Halt>
    requires room { HasSpace text.now (numbers_of variables.old vocab.old) }

    ensures found { IfOk result (λ atoms. IsBodyRead text.now (numbers_of variables.old vocab.old)
        (numbers_of variables.new vocab.new) atoms.items) }
    ensures halt { IfErr result (λ halt. IsHalt at.AtomName text.now halt) }

    ensures kept { KeepsNumbers (numbers_of variables.old vocab.old)
        (numbers_of variables.new vocab.new) }
    ensures grown { AddsAtMost (length text.now) (numbers_of variables.old vocab.old)
        (numbers_of variables.new vocab.new) }
{
    let mut atoms = Vec::new(alloc);
    let mut rest = text;
    'atoms: loop {
        let (atom, after) = atom_at(rest)?;
        atoms.push(put_atom(alloc, &atom, variables, vocab)?)?;
        let Some(next) = atom_end(after)? else {
            return Ok(atoms);
        };
        rest = next;
    }
}
