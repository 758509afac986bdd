//! Variables bound to individuals.

ghost use Rattle.std.specs.Prelude.{◌≡◌, ◌↔◌, ℕ, [], IfOk, IfSome, IfNone};
ghost use Rattle.cq_terms.specs.Query.{StandsIn};
ghost use Rattle.query_matching.specs.Bindings.{Agrees, AreConsistent, IsBound, TermIs, AtomIs, IsVar, MayBeSeveral, Binds};

use cq_terms::{Fact, NoMemory, QAtom, Term};
use std::alloc::Global;

/// A variable with its individual.
#[derive(Clone, Copy, Debug)]
pub struct Binding {
    /// The number of the variable.
    pub variable: u32,
    /// The number of the individual.
    pub individual: u32,
}

/// What the atoms so far became: their variables' individuals, and the numbers of their facts.
#[derive(Debug, Drop)]
pub struct Walk {
    /// The variables that are bound.
    pub bindings: Vec<Binding>,
    /// The numbers of the facts.
    pub path: Vec<u32>,
}

impl Walk {
    /// The walk of no atoms.
    pub fn new(alloc: Global) -> Walk
        ensures bindings { result.bindings.items ≡ [] }
        ensures path { result.path.items ≡ [] }
    {
        Walk {
            bindings: Vec::new(alloc),
            path: Vec::new(alloc),
        }
    }
}

/// The individual of a variable, or `None` where it isn't bound.
fn lookup(bindings: &[Binding], variable: u32) -> Option<u32>
    ensures found { IfSome result (λ c. (v : ℕ → ℕ) → Agrees bindings.now v → c ≡ v variable) }
    ensures bound { IfSome result (λ _. IsBound bindings.now variable) }
    ensures none { IfNone result (¬ IsBound bindings.now variable) }
{
    for binding in bindings {
        if binding.variable == variable {
            return Some(binding.individual);
        }
    }
    None
}

/// The individual that a term has to be, or `None` where it may be several.
pub fn known(bindings: &[Binding], term: Term) -> Option<u32>
    ensures found { IfSome result (λ c. (v : ℕ → ℕ) (d : ℕ) → Agrees bindings.now v → TermIs v term d ↔ (d ≡ c)) }
    ensures several { IfNone result (MayBeSeveral bindings.now term) }
{
    match term {
        Term::Var(variable) => lookup(bindings, variable),
        Term::Ind(individual) => Some(individual),
        Term::Any => None,
    }
}

/// Binds what the atom needs to be the fact, and answers whether it may be. Where it may not be, something may be bound
/// behind the old bindings.
pub fn bind_atom(bindings: &mut Vec<Binding>, atom: QAtom, fact: Fact) -> Result<bool, NoMemory>
    requires consistent { AreConsistent bindings.old.items }

    ensures exact { IfOk result (Binds (λ v. AtomIs v atom fact) (λ l. StandsIn l atom) bindings.old.items bindings.new.items) }
{
    match (atom, fact) {
        (QAtom::Concept { pred, at }, Fact::Concept { pred: of, ind }) if pred == of => {
            bind_term(bindings, at, ind)
        }
        (
            QAtom::Link { pred, from, to },
            Fact::Link {
                pred: of,
                from: first,
                to: second,
            },
        ) if pred == of => {
            if !bind_term(bindings, from, first)? {
                return Ok(false);
            }
            bind_term(bindings, to, second)
        }
        _ => Ok(false),
    }
}

/// Binds what the term needs to be the individual, and answers whether it may be.
pub fn bind_term(bindings: &mut Vec<Binding>, term: Term, individual: u32) -> Result<bool, NoMemory>
    requires consistent { AreConsistent bindings.old.items }

    ensures exact { IfOk result (Binds (λ v. TermIs v term individual) (IsVar term) bindings.old.items bindings.new.items) }
{
    match term {
        Term::Var(variable) => bind_variable(bindings, variable, individual),
        Term::Ind(named) => Ok(named == individual),
        Term::Any => Ok(true),
    }
}

/// Binds the variable, and answers whether it may be the individual.
fn bind_variable(
    bindings: &mut Vec<Binding>,
    variable: u32,
    individual: u32,
) -> Result<bool, NoMemory>
    requires consistent { AreConsistent bindings.old.items }

    ensures exact { IfOk result
        (Binds (λ v. TermIs v (Term.Var variable) individual) (IsVar (Term.Var variable)) bindings.old.items bindings.new.items) }
{
    if let Some(bound) = lookup(bindings, variable) {
        return Ok(bound == individual);
    }
    bindings.push(Binding {
        variable,
        individual,
    })?;
    Ok(true)
}
