//! The knowledge bases of the reports, and who is asked for.

ghost use Rattle.std.specs.Prelude.{◌≡◌, ◌<◌, All, IfOk, length};
ghost use Rattle.cq_terms.specs.Knowledge.{AreDistinct};

use cq_terms::{Axiom, Basic, Cq, Fact, Kb, NoMemory, Pair, QAtom, Term};
use std::alloc::Global;

/// Which knowledge base a report is on.
#[derive(Clone, Copy)]
pub enum Register {
    /// Prof < Staff and Staff < not Student, with Prof(ann) and Student(ann); asked is who is in Staff.
    Staff,
    /// A and B, A and C, B and C, B and D, C and D are disjoint; the facts are A(ann), B(ann), C(ann), D(ann) and A(bob). B(ann) is
    /// preferred to C(ann), and D(ann) to B(ann); asked is who is in A.
    Crowd,
    /// The same, with C(ann) preferred to D(ann) as well.
    CrowdInACycle,
    /// No fact; asked is who is in A.
    Empty,
    /// A(ann) alone; asked is who is in A.
    Plain,
    /// A < not A, with A(ann); asked is who is in A.
    Spy,
}

/// The knowledge base.
pub fn knowledge(alloc: Global, register: Register) -> Result<Kb, NoMemory> {
    match register {
        Register::Staff => staff(alloc),
        Register::Crowd => crowd(alloc, false),
        Register::CrowdInACycle => crowd(alloc, true),
        Register::Empty => Ok(Kb::new(Vec::new(alloc), Vec::new(alloc), Vec::new(alloc))),
        Register::Plain => plain(alloc),
        Register::Spy => spy(alloc),
    }
}

/// Who is in the concept that is asked for.
pub fn query_of(alloc: Global, register: Register) -> Result<Cq, NoMemory> {
    match register {
        Register::Staff => members_of(alloc, 1),
        _ => members_of(alloc, 0),
    }
}

// Who is in the concept.
fn members_of(alloc: Global, concept: u32) -> Result<Cq, NoMemory> {
    let head = vec![in alloc; Term::Var(0)]?;
    let body = vec![in alloc;
        QAtom::Concept {
            pred: concept,
            at: Term::Var(0)
        },
    ]?;
    Ok(Cq::new(head, body))
}

fn staff(alloc: Global) -> Result<Kb, NoMemory> {
    let axioms = vec![in alloc;
        Axiom::Sub {
            left: Basic::Concept(0),
            right: Basic::Concept(1)
        },
        apart(1, 2),
    ]?;
    let facts = vec![in alloc;
        Fact::Concept { pred: 0, ind: 0 },
        Fact::Concept { pred: 2, ind: 0 },
    ]?;
    Ok(Kb::new(axioms, facts, Vec::new(alloc)))
}

fn crowd(alloc: Global, is_cycle: bool) -> Result<Kb, NoMemory> {
    let axioms = vec![in alloc;
        apart(0, 1),
        apart(0, 2),
        apart(1, 2),
        apart(1, 3),
        apart(2, 3),
    ]?;
    let facts = crowd_facts(alloc)?;
    let pairs = crowd_pairs(alloc, is_cycle)?;
    Ok(Kb::new(axioms, facts, pairs))
}

fn crowd_facts(alloc: Global) -> Result<Vec<Fact>, NoMemory>
    ensures distinct { IfOk result (λ facts. AreDistinct facts.items) }
    ensures five { IfOk result (λ facts. length facts.items ≡ 5) }
{
    let facts = vec![in alloc;
        Fact::Concept { pred: 0, ind: 0 },
        Fact::Concept { pred: 1, ind: 0 },
        Fact::Concept { pred: 2, ind: 0 },
        Fact::Concept { pred: 3, ind: 0 },
        Fact::Concept { pred: 0, ind: 1 },
    ]?;
    Ok(facts)
}

fn crowd_pairs(alloc: Global, is_cycle: bool) -> Result<Vec<Pair>, NoMemory>
    ensures within { IfOk result (λ pairs. All (λ p. (p.upper < 5) × (p.lower < 5)) pairs.items) }
{
    let mut pairs = vec![in alloc; Pair { upper: 1, lower: 2 }, Pair { upper: 3, lower: 1 }]?;
    if is_cycle {
        pairs.push(Pair { upper: 2, lower: 3 })?;
    }
    Ok(pairs)
}

fn plain(alloc: Global) -> Result<Kb, NoMemory> {
    let facts = vec![in alloc; Fact::Concept { pred: 0, ind: 0 }]?;
    Ok(Kb::new(Vec::new(alloc), facts, Vec::new(alloc)))
}

fn spy(alloc: Global) -> Result<Kb, NoMemory> {
    let axioms = vec![in alloc; apart(0, 0)]?;
    let facts = vec![in alloc; Fact::Concept { pred: 0, ind: 0 }]?;
    Ok(Kb::new(axioms, facts, Vec::new(alloc)))
}

// Nothing is in both concept names.
fn apart(left: u32, right: u32) -> Axiom {
    Axiom::Disjoint {
        left: Basic::Concept(left),
        right: Basic::Concept(right),
    }
}
