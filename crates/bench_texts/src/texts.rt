//! The four texts.

ghost use Rattle.std.specs.Prelude.{◌≡◌, ◌≤◌, IfOk, OnOk, string_bytes};
ghost use Rattle.bench_texts.specs.Groups.{line_of};
ghost use Rattle.bench_texts.specs.Lines.{lines};
ghost use Rattle.bench_texts.specs.Texts.{AreBenchTexts, ontology_text};

use crate::group::{Group, push_lines};
use cq_terms::NoMemory;
use std::alloc::{AllocError, Global};

/// The texts of an input, each as a file of it would have them.
#[derive(Debug, Drop)]
pub struct Texts {
    /// 103 axioms over 40 concepts and 30 roles.
    pub ontology: String,
    /// For each individual its link and up to two concepts.
    pub facts: String,
    /// One pair for each fifth individual.
    pub priority: String,
    /// A query of two atoms.
    pub query: String,
}

/// The four texts of a generated input over `size` individuals. The same size has the same texts.
pub fn bench_texts(alloc: Global, size: u32) -> Result<Texts, NoMemory>
    requires most { size ≤ 20000 }

    ensures exact { IfOk result (λ texts. AreBenchTexts size texts) }
{
    let ontology = ontology(alloc)?;
    let facts = all_lines(alloc, Group::Person, size)?;
    let priority = all_lines(alloc, Group::Preference, size)?;
    let query = String::from_str(alloc, "?x <- K30(?x), R0(?x,?y)\n")?;
    Ok(Texts {
        ontology,
        facts,
        priority,
        query,
    })
}

/// The lines of the group for each individual.
fn all_lines(alloc: Global, group: Group, size: u32) -> Result<String, AllocError>
    requires most { size ≤ 20000 }

    ensures exact { IfOk result (λ text. string_bytes text ≡ lines (line_of group) 0 size) }
{
    let mut text = String::new(alloc);
    push_lines(&mut text, group, 0, size)?;
    Ok(text)
}

fn ontology(alloc: Global) -> Result<String, AllocError>
    ensures exact { IfOk result (λ text. string_bytes text ≡ ontology_text) }
{
    let mut text = String::new(alloc);
    push_lines(&mut text, Group::Opposed, 0, 10)?;
    push_lines(&mut text, Group::Narrower, 0, 10)?;
    push_lines(&mut text, Group::NarrowerOpposed, 0, 10)?;
    push_lines(&mut text, Group::Registered, 0, 5)?;
    push_lines(&mut text, Group::Registered, 10, 4)?;
    push_lines(&mut text, Group::Registered, 31, 9)?;
    push_lines(&mut text, Group::Target, 0, 30)?;
    push_lines(&mut text, Group::NarrowerRole, 15, 15)?;
    push_lines(&mut text, Group::Linked, 0, 10)?;
    Ok(text)
}
