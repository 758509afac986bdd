//! Terms and atoms of a query as JSON.

ghost use Rattle.std.specs.Prelude.{◌≡◌, ◌++◌, OnOk, IfOk, string_bytes, option_map};
ghost use Rattle.serde_json.specs.View.{view};
ghost use Rattle.serde_json.specs.Written.{compact_text};
ghost use Rattle.report_fields.specs.Atoms.{term_data, terms_data, concept_data, link_data, atom_data, atoms_data, term_of, term_in, concept_of, link_of, atom_of_kind, atom_of, terms_at, atoms_at};

use crate::fields::{id_in, id_of, items_at, put_comma_if, put_id, put_ids, word_in};
use cq_terms::{NoMemory, QAtom, Term};
use serde_json::Value;
use std::alloc::{AllocError, Global};

/// Appends a term: a number for a variable, an array of a number for an individual, null for `_`.
fn put_term(out: &mut String, term: Term) -> Result<(), AllocError>
    ensures exact { OnOk result (string_bytes out.new
        ≡ string_bytes out.old ++ compact_text (term_data term)) }
{
    match term {
        Term::Var(number) => put_id(out, number),
        Term::Ind(number) => put_ids(out, &[number]),
        Term::Any => out.push_str("null"),
    }
}

/// Appends an atom: an array of `c` or `r`, the predicate, and the terms.
fn put_atom(out: &mut String, atom: &QAtom) -> Result<(), AllocError>
    ensures exact { OnOk result (string_bytes out.new
        ≡ string_bytes out.old ++ compact_text (atom_data atom.now)) }
{
    match *atom {
        QAtom::Concept { pred, at } => put_concept(out, pred, at),
        QAtom::Link { pred, from, to } => put_link(out, pred, from, to),
    }
}

#[tactic(auto, unfolding(json::specs::Print::escape_byte))]
fn put_concept(out: &mut String, pred: u32, at: Term) -> Result<(), AllocError>
    ensures exact { OnOk result (string_bytes out.new
        ≡ string_bytes out.old ++ compact_text (concept_data pred at)) }
{
    out.push_str(r#"["c","#)?;
    put_id(out, pred)?;
    out.push(',')?;
    put_term(out, at)?;
    out.push(']')?;
    Ok(())
}

#[tactic(auto, unfolding(json::specs::Print::escape_byte))]
fn put_link(out: &mut String, pred: u32, from: Term, to: Term) -> Result<(), AllocError>
    ensures exact { OnOk result (string_bytes out.new
        ≡ string_bytes out.old ++ compact_text (link_data pred from to)) }
{
    out.push_str(r#"["r","#)?;
    put_id(out, pred)?;
    out.push(',')?;
    put_term(out, from)?;
    out.push(',')?;
    put_term(out, to)?;
    out.push(']')?;
    Ok(())
}

/// Appends an array of terms.
pub fn put_terms(out: &mut String, terms: &[Term]) -> Result<(), AllocError>
    ensures exact { OnOk result (string_bytes out.new
        ≡ string_bytes out.old ++ compact_text (terms_data terms.now)) }
{
    out.push('[')?;
    let mut later = false;
    for term in terms {
        put_comma_if(out, later)?;
        put_term(out, *term)?;
        later = true;
    }
    out.push(']')?;
    Ok(())
}

/// Appends an array of atoms.
pub fn put_atoms(out: &mut String, atoms: &[QAtom]) -> Result<(), AllocError>
    ensures exact { OnOk result (string_bytes out.new
        ≡ string_bytes out.old ++ compact_text (atoms_data atoms.now)) }
{
    out.push('[')?;
    let mut later = false;
    for atom in atoms {
        put_comma_if(out, later)?;
        put_atom(out, atom)?;
        later = true;
    }
    out.push(']')?;
    Ok(())
}

/// The value as a term.
fn term_of(value: &Value) -> Option<Term>
    ensures exact { result ≡ term_of (view value.now) }
{
    if value.is_null() {
        Some(Term::Any)
    } else if value.is_array() {
        Some(Term::Ind(id_in(value, 0)?))
    } else {
        Some(Term::Var(id_of(value)?))
    }
}

/// The term at a place of an array.
fn term_in(value: &Value, place: usize) -> Option<Term>
    ensures exact { result ≡ term_in place (view value.now) }
{
    term_of(value.get(place)?)
}

/// The value as an atom of a concept.
fn concept_of(value: &Value) -> Option<QAtom>
    ensures exact { result ≡ concept_of (view value.now) }
{
    let pred = id_in(value, 1)?;
    let at = term_in(value, 2)?;
    Some(QAtom::Concept { pred, at })
}

/// The value as an atom of a role.
fn link_of(value: &Value) -> Option<QAtom>
    ensures exact { result ≡ link_of (view value.now) }
{
    let pred = id_in(value, 1)?;
    let from = term_in(value, 2)?;
    let to = term_in(value, 3)?;
    Some(QAtom::Link { pred, from, to })
}

/// The value as an atom of the kind that the word names.
fn atom_of_kind(word: &str, value: &Value) -> Option<QAtom>
    ensures exact { result ≡ atom_of_kind word.now (view value.now) }
{
    match word {
        "c" => concept_of(value),
        "r" => link_of(value),
        _ => None,
    }
}

/// The value as an atom.
fn atom_of(value: &Value) -> Option<QAtom>
    ensures exact { result ≡ atom_of (view value.now) }
{
    atom_of_kind(word_in(value, 0)?, value)
}

/// The terms in the array under a key.
pub fn terms_at(alloc: Global, value: &Value, key: &str) -> Result<Option<Vec<Term>>, NoMemory>
    ensures exact { IfOk result
        (λ o. option_map (λ terms. terms.items) o ≡ terms_at key.now (view value.now)) }
{
    let Some(items) = items_at(value, key) else {
        return Ok(None);
    };
    let mut terms = Vec::new(alloc);
    for item in items {
        match term_of(item) {
            Some(term) => terms.push(term)?,
            None => return Ok(None),
        }
    }
    Ok(Some(terms))
}

/// The atoms in the array under a key.
pub fn atoms_at(alloc: Global, value: &Value, key: &str) -> Result<Option<Vec<QAtom>>, NoMemory>
    ensures exact { IfOk result
        (λ o. option_map (λ atoms. atoms.items) o ≡ atoms_at key.now (view value.now)) }
{
    let Some(items) = items_at(value, key) else {
        return Ok(None);
    };
    let mut atoms = Vec::new(alloc);
    for item in items {
        match atom_of(item) {
            Some(atom) => atoms.push(atom)?,
            None => return Ok(None),
        }
    }
    Ok(Some(atoms))
}
