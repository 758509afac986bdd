//! The files of an input as texts.

use crate::inputs::{Drawing, Facts, Kind};
use plain_chase::{Asked, Atom, Axiom, Basic, Place, Preferred, Query, Role};
use std::alloc::{AllocError, Global};

/// The names of concepts, roles, individuals and variables, by their numbers. The individuals aren't in the order of their names.
const CONCEPTS: [&str; 3] = ["A", "B", "C"];

const ROLES: [&str; 2] = ["P", "R"];

const INDIVIDUALS: [&str; 3] = ["c", "a", "b"];

const CONSTANTS: [&str; 3] = ["'c'", "'a'", "'b'"];

const VARIABLES: [&str; 3] = ["?x", "?y", "?z"];

/// An input with its texts.
#[derive(Drop)]
pub(crate) struct Input {
    pub(crate) facts: Facts,
    pub(crate) query: Query,
    pub(crate) texts: Texts,
}

/// The ontology, the facts, the priority and the query.
#[derive(Drop)]
pub(crate) struct Texts {
    pub(crate) ontology: String,
    pub(crate) facts: String,
    pub(crate) priority: String,
    pub(crate) query: String,
}

impl Input {
    /// The input of the kind and the seed.
    pub(crate) fn draw(alloc: Global, kind: &Kind, seed: usize) -> Result<Input, AllocError> {
        let mut drawing = Drawing::new(kind, seed);
        let mut facts = drawing.facts(alloc, kind)?;
        let query = drawing.query(alloc, &facts.table)?;
        facts.table.individuals = drawing.individuals;
        let texts = Texts::of(alloc, &facts, &query)?;
        Ok(Input {
            facts,
            query,
            texts,
        })
    }
}

impl Texts {
    /// The texts of the input.
    fn of(alloc: Global, facts: &Facts, query: &Query) -> Result<Texts, AllocError> {
        Ok(Texts {
            ontology: ontology(alloc, &facts.table.axioms)?,
            facts: records(alloc, facts)?,
            priority: priority(alloc, facts)?,
            query: query_text(alloc, query)?,
        })
    }
}

/// Puts pieces behind the text.
pub(crate) fn put_pieces(text: &mut String, pieces: &[&str]) -> Result<(), AllocError> {
    for piece in pieces {
        text.push_str(piece)?;
    }
    Ok(())
}

/// The text of the number in the list, which has one for each number that is drawn.
fn text_at(texts: &[&'static str], number: usize) -> &'static str {
    match texts.get(number) {
        Some(text) => text,
        None => "",
    }
}

/// The name of a concept.
fn concept(number: usize) -> &'static str {
    text_at(&CONCEPTS, number)
}

/// The name of a role.
fn role_name(number: usize) -> &'static str {
    text_at(&ROLES, number)
}

/// The name of an individual.
fn individual(number: usize) -> &'static str {
    text_at(&INDIVIDUALS, number)
}

/// The axioms, a line each.
fn ontology(alloc: Global, axioms: &[Axiom]) -> Result<String, AllocError> {
    let mut text = String::new(alloc);
    for axiom in axioms {
        put_pieces(&mut text, &axiom_pieces(*axiom))?;
    }
    Ok(text)
}

/// The pieces of the line of an axiom.
fn axiom_pieces(axiom: Axiom) -> [&'static str; 6] {
    match axiom {
        Axiom::Sub { left, right } => line_of(" < ", basic_pieces(left), basic_pieces(right)),
        Axiom::Disjoint { left, right } => {
            line_of(" < not ", basic_pieces(left), basic_pieces(right))
        }
        Axiom::SubRole { left, right } => role_line(" < ", left, right),
        Axiom::DisjointRole { left, right } => role_line(" < not ", left, right),
    }
}

/// The pieces of a line with the word between the sides.
fn line_of(
    between: &'static str,
    left: [&'static str; 2],
    right: [&'static str; 2],
) -> [&'static str; 6] {
    [left[0], left[1], between, right[0], right[1], "\n"]
}

/// The pieces of a line on roles with the word between the sides.
fn role_line(between: &'static str, left: Role, right: Role) -> [&'static str; 6] {
    let start = if left.is_inverse {
        "role inv "
    } else {
        "role "
    };
    let after = if right.is_inverse { "inv " } else { "" };
    let (first, second) = (role_name(left.name), role_name(right.name));
    line_of(between, [start, first], [after, second])
}

/// The pieces of a basic concept.
fn basic_pieces(basic: Basic) -> [&'static str; 2] {
    match basic {
        Basic::Concept(number) => ["", concept(number)],
        Basic::Exists(role) => {
            let start = if role.is_inverse {
                "some inv "
            } else {
                "some "
            };
            [start, role_name(role.name)]
        }
    }
}

/// The records of the facts.
fn records(alloc: Global, facts: &Facts) -> Result<String, AllocError> {
    let mut text = String::new(alloc);
    for number in &facts.records {
        if let Some(fact) = facts.table.facts.get(*number) {
            put_pieces(&mut text, &record_pieces(*fact))?;
        }
    }
    Ok(text)
}

/// The pieces of the record of a fact.
fn record_pieces(fact: Atom) -> [&'static str; 6] {
    match fact {
        Atom::Concept { name, term } => [concept(name), ",", individual(term), "", "", "\n"],
        Atom::Link { name, from, to } => [
            role_name(name),
            ",",
            individual(from),
            ",",
            individual(to),
            "\n",
        ],
    }
}

/// The text of a fact as a refusal tells it.
pub(crate) fn fact_text(alloc: Global, fact: Atom) -> Result<String, AllocError> {
    let mut text = String::new(alloc);
    put_pieces(&mut text, &fact_pieces(fact))?;
    Ok(text)
}

/// The pieces of the text of a fact.
fn fact_pieces(fact: Atom) -> [&'static str; 6] {
    match fact {
        Atom::Concept { name, term } => [concept(name), "(", individual(term), "", "", ")"],
        Atom::Link { name, from, to } => [
            role_name(name),
            "(",
            individual(from),
            ",",
            individual(to),
            ")",
        ],
    }
}

/// The priority, by the numbers of records: of the better fact the first record, of the other the last.
fn priority(alloc: Global, facts: &Facts) -> Result<String, AllocError> {
    let mut text = String::new(alloc);
    for pair in &facts.table.pairs {
        put_pair(alloc, &facts.records, *pair, &mut text)?;
    }
    Ok(text)
}

/// Puts the record of the pair behind the text.
fn put_pair(
    alloc: Global,
    records: &[usize],
    pair: Preferred,
    text: &mut String,
) -> Result<(), AllocError> {
    let (first, last) = (
        first_record(records, pair.upper),
        last_record(records, pair.lower),
    );
    text.push_str(&format!(in alloc; "{first},{last}\n")?)
}

/// The number of the first record of the fact.
fn first_record(records: &[usize], fact: usize) -> usize {
    for (place, number) in records.iter().enumerate() {
        if *number == fact {
            return place.saturating_add(1);
        }
    }
    0
}

/// The number of the last record of the fact.
fn last_record(records: &[usize], fact: usize) -> usize {
    let mut last = 0;
    for (place, number) in records.iter().enumerate() {
        if *number == fact {
            last = place.saturating_add(1);
        }
    }
    last
}

/// The text of the query.
fn query_text(alloc: Global, query: &Query) -> Result<String, AllocError> {
    let mut text = String::new(alloc);
    let [first, second] = query.head;
    put_pieces(&mut text, &[head_piece(first), " ", head_piece(second)])?;
    let mut before = " <- ";
    for asked in &query.body {
        text.push_str(before)?;
        put_pieces(&mut text, &asked_pieces(*asked))?;
        before = ", ";
    }
    Ok(text)
}

/// The piece for a place of the head.
fn head_piece(variable: Option<usize>) -> &'static str {
    match variable {
        Some(number) => text_at(&VARIABLES, number),
        None => "",
    }
}

/// The pieces of an atom of the query.
fn asked_pieces(asked: Asked) -> [&'static str; 6] {
    match asked {
        Asked::Concept { name, at } => [concept(name), "(", place(at), "", "", ")"],
        Asked::Link { name, from, to } => [role_name(name), "(", place(from), ",", place(to), ")"],
    }
}

/// The piece for a place of an atom.
fn place(place: Place) -> &'static str {
    match place {
        Place::Variable(number) => text_at(&VARIABLES, number),
        Place::Individual(number) => text_at(&CONSTANTS, number),
    }
}
