//! Numbers the names of atoms.

ghost use Rattle.std.specs.Prelude.{◌≡◌, ◌-◌, ◌<◌, ◌≤◌, ◌^◌, ◌∷◌, length, IfOk, OnOk, string_bytes};
ghost use Rattle.query_reader.specs.Numbering.{AddsAtMost, IsAtomOf, IsBelow, IsTermOf, KeepsNumbers, numbers_of, with_atom, with_term};
ghost use Rattle.query_reader.specs.Parts.{IsTermWritten, IsWritten, atom_view, halved, term_view};
ghost use Rattle.query_reader.specs.Tokens.{doubled};

use crate::atom::{AtomText, TermText};
use cq_terms::{Names, NoMemory, QAtom, Term, Vocab};
use std::alloc::Global;

/// Puts the names of an atom, from left to right, and answers the atom by their numbers.
pub(crate) fn put_atom(
    alloc: Global,
    atom: &AtomText<'_>,
    variables: &mut Names,
    vocab: &mut Vocab,
) -> Result<QAtom, NoMemory>
    requires room { IsBelow (2 ^ 31) (numbers_of variables.old vocab.old) }
    requires written { IsWritten atom.now }

    ensures names { OnOk result (numbers_of variables.new vocab.new
        ≡ with_atom (numbers_of variables.old vocab.old) (atom_view atom.now)) }
    ensures exact { IfOk result
        (λ given. IsAtomOf (numbers_of variables.new vocab.new) (atom_view atom.now) given) }

    ensures kept { KeepsNumbers (numbers_of variables.old vocab.old)
        (numbers_of variables.new vocab.new) }
    ensures grown { AddsAtMost 2 (numbers_of variables.old vocab.old)
        (numbers_of variables.new vocab.new) }
{
    match &atom.second {
        None => {
            let pred = vocab.concepts.put(atom.name)?;
            let at = put_term(alloc, &atom.first, variables, vocab)?;
            Ok(QAtom::Concept { pred, at })
        }
        Some(second) => {
            let pred = vocab.roles.put(atom.name)?;
            let from = put_term(alloc, &atom.first, variables, vocab)?;
            let to = put_term(alloc, second, variables, vocab)?;
            Ok(QAtom::Link { pred, from, to })
        }
    }
}

/// Puts the name of a term, and answers the term by its number.
fn put_term(
    alloc: Global,
    term: &TermText<'_>,
    variables: &mut Names,
    vocab: &mut Vocab,
) -> Result<Term, NoMemory>
    requires room { IsBelow (2 ^ 32 - 1) (numbers_of variables.old vocab.old) }
    requires written { IsTermWritten term.now }

    ensures names { OnOk result (numbers_of variables.new vocab.new
        ≡ with_term (numbers_of variables.old vocab.old) (term_view term.now)) }
    ensures exact { IfOk result
        (λ given. IsTermOf (numbers_of variables.new vocab.new) (term_view term.now) given) }

    ensures kept { KeepsNumbers (numbers_of variables.old vocab.old)
        (numbers_of variables.new vocab.new) }
    ensures grown { AddsAtMost 1 (numbers_of variables.old vocab.old)
        (numbers_of variables.new vocab.new) }
{
    match term {
        TermText::Variable(letters) => Ok(Term::Var(variables.put(letters)?)),
        TermText::Constant(written) => {
            let meant = unquoted(alloc, written)?;
            Ok(Term::Ind(vocab.inds.put(meant.as_str())?))
        }
    }
}

/// The text of a constant, from the inside of it as it is written.
fn unquoted(alloc: Global, written: &str) -> Result<String, NoMemory>
    requires written { written.now ≡ doubled (halved written.now) }

    ensures exact { IfOk result (λ meant. string_bytes meant ≡ halved written.now) }
{
    let bytes = halved_bytes(alloc, written.as_bytes())?;
    Ok(String::from_utf8(bytes).unwrap())
}

/// The bytes, with one quote for two.
fn halved_bytes(alloc: Global, written: &[u8]) -> Result<Vec<u8>, NoMemory>
    ensures exact { IfOk result (λ bytes. bytes.items ≡ halved written.now) }
{
    let mut bytes = Vec::new(alloc);
    let mut rest = written;
    while let Some((first, later)) = rest.split_first() {
        bytes.push(*first)?;
        rest = behind_byte(*first, later);
    }
    Ok(bytes)
}

/// What follows the byte at the front: of a quote the second one is left out.
fn behind_byte(first: u8, later: &[u8]) -> &[u8]
    ensures exact { halved (first ∷ later.now) ≡ first ∷ halved result.now }
    ensures shorter { length result.now ≤ length later.now }
{
    match later.split_first() {
        Some((_, after)) if first == b'\'' => after,
        _ => later,
    }
}
