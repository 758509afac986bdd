//! The closure, breadth first: the moves on each member in order, and each new query behind the members.

ghost use Rattle.std.specs.Prelude.{◌≡◌, ◌≢◌, ◌+◌, ◌<◌, ◌≤◌, ◌^◌, ◌∷◌, [], None, IfOk, OnOk, Err, List, length, slice_get, All};
ghost use Rattle.cq_terms.specs.declared.axioms.Axiom.{Axiom};
ghost use Rattle.cq_terms.specs.Query.{Query};
ghost use Rattle.cq_meaning.specs.Rewriting.{IsClosure};
ghost use Rattle.cq_steps.specs.declared.closure.Member.{Member};
ghost use Rattle.cq_steps.specs.Moves.{AreSuccessors};
ghost use Rattle.cq_steps.specs.Closing.{AreDerived, Closes, queries_of};
ghost use Rattle.perfect_ref.specs.BreadthFirst.{IsBreadthFirst, HasMoreThan, MatchesTell};
ghost use Rattle.perfect_ref.specs.Search.{codes_of, IsNoted, AreKept, AreFound, AreBehind, IsTurn};

use crate::code::code_of;
use crate::member_codes::MemberCodes;
use crate::refusal::CloseRefusal;
use cq_meaning::closure_is_exact;
use cq_steps::{Closure, Member, Move, closing_list_is_closure, normal, successors};
use cq_terms::{Axiom, Cq};
use std::alloc::Global;

/// A closure as far as it was found: the members so far, and their codes.
#[derive(Drop)]
struct PartialClosure {
    closure: Closure,
    codes: MemberCodes,
}

/// The first member alone.
fn start(alloc: Global, query: Cq) -> Result<PartialClosure, CloseRefusal>
    ensures tied { IfOk result (λ found. found.codes ≡ codes_of found.closure) }
    ensures exact { IfOk result (λ found. found.closure ≡ record { query = query; step = None } ∷ []) }
    ensures refused { result ≢ Err CloseRefusal.TooManyCqs }
{
    let code = code_of(alloc, &query)?;
    let mut codes = MemberCodes::new(alloc);
    codes.add(code)?;
    let closure = Closure::first(alloc, query)?;
    Ok(PartialClosure { closure, codes })
}

/// Appends the query that a step made, where it is new.
fn note(
    alloc: Global,
    found: &mut PartialClosure,
    query: Cq,
    step: (u32, Move),
    limit: u32,
) -> Result<(), CloseRefusal>
    requires tied { found.old.codes ≡ codes_of found.old.closure }
    requires earlier { step.0 < length found.old.closure }

    ensures tied { OnOk result (found.new.codes ≡ codes_of found.new.closure) }
    ensures exact { OnOk result
        (IsNoted limit found.old.closure (record { query = query; step = Some step }) found.new.closure) }
    ensures refused { result ≡ Err CloseRefusal.TooManyCqs
        → All (λ m. m.query ≢ query) found.old.closure × (limit ≤ length found.old.closure) }
{
    let code = code_of(alloc, &query)?;
    if found.codes.holds(&code) {
        return Ok(());
    }
    if found.closure.members().len() >= limit as usize {
        return Err(CloseRefusal::TooManyCqs);
    }
    found.closure.push(Member {
        query,
        step: Some(step),
    })?;
    found.codes.add(code)?;
    Ok(())
}

/// Appends the results of the moves on the member at place `from` that are new.
fn note_all(
    alloc: Global,
    found: &mut PartialClosure,
    moves: Vec<(Move, Cq)>,
    from: u32,
    limit: u32,
) -> Result<(), CloseRefusal>
    requires tied { found.old.codes ≡ codes_of found.old.closure }
    requires place { from < length found.old.closure }

    ensures tied { OnOk result (found.new.codes ≡ codes_of found.new.closure) }
    ensures kept { OnOk result (AreKept found.old.closure found.new.closure) }
    ensures found { (axioms : List Axiom) (p : Member) → IsTurn axioms limit from p moves.items found.old.closure
        → OnOk result (AreFound axioms limit (from + 1) found.new.closure) }
    ensures behind { (axioms : List Axiom) (p : Member) → IsTurn axioms limit from p moves.items found.old.closure
        → OnOk result (AreBehind (from + 1) found.new.closure) }
    ensures refused { (axioms : List Axiom) (p : Member) (q : Query) → IsTurn axioms limit from p moves.items found.old.closure
        → AreDerived axioms q found.old.closure → result ≡ Err CloseRefusal.TooManyCqs → HasMoreThan axioms q limit }
{
    for (step, query) in moves {
        note(alloc, found, query, (from, step), limit)?;
    }
    Ok(())
}

/// The turn of the member at place `from`: each move on it is tried.
fn handle(
    alloc: Global,
    found: &mut PartialClosure,
    axioms: &[Axiom],
    from: u32,
    limit: u32,
) -> Result<(), CloseRefusal>
    requires axioms_fit { length axioms.now < 2 ^ 31 }
    requires tied { found.old.codes ≡ codes_of found.old.closure }
    requires place { from < length found.old.closure }
    requires found { AreFound axioms.now limit from found.old.closure }
    requires behind { AreBehind from found.old.closure }

    ensures tied { OnOk result (found.new.codes ≡ codes_of found.new.closure) }
    ensures kept { OnOk result (AreKept found.old.closure found.new.closure) }
    ensures found { OnOk result (AreFound axioms.now limit (from + 1) found.new.closure) }
    ensures behind { OnOk result (AreBehind (from + 1) found.new.closure) }
    ensures refused { (q : Query) → AreDerived axioms.now q found.old.closure → result ≡ Err CloseRefusal.TooManyCqs
        → HasMoreThan axioms.now q limit }
{
    let members = found.closure.members();
    let moves = successors(alloc, &members[from as usize].query, axioms)?;
    note_all(alloc, found, moves, from, limit)
}

/// The turns of all members, one after the other.
fn handle_all(
    alloc: Global,
    found: &mut PartialClosure,
    axioms: &[Axiom],
    limit: u32,
) -> Result<(), CloseRefusal>
    requires axioms_fit { length axioms.now < 2 ^ 31 }
    requires tied { found.old.codes ≡ codes_of found.old.closure }
    requires found { AreFound axioms.now limit 0 found.old.closure }
    requires behind { AreBehind 0 found.old.closure }

    ensures kept { OnOk result (AreKept found.old.closure found.new.closure) }
    ensures found { OnOk result (AreFound axioms.now limit (length found.new.closure) found.new.closure) }
    ensures refused { (q : Query) → AreDerived axioms.now q found.old.closure → result ≡ Err CloseRefusal.TooManyCqs
        → HasMoreThan axioms.now q limit }
{
    let mut from: u32 = 0;
    while (from as usize) < found.closure.members().len() {
        handle(alloc, found, axioms, from, limit)?;
        from += 1;
    }
    Ok(())
}

/// The closure of the query's normal form, breadth first: the moves on each member in the order of `successors`, and each
/// query that is new behind the members. It takes time in the number of moves on all members.
///
/// ```
/// // Each captain is a sailor, so that a query for sailors finds captains too.
/// let (captain, sailor) = (Basic::Concept(0), Basic::Concept(1));
/// let axioms = [Axiom::Sub {
///     left: captain,
///     right: sailor,
/// }];
/// let x = Term::Var(0);
/// let head = Vec::from_slice(alloc, &[x])?;
/// let body = Vec::from_slice(alloc, &[QAtom::Concept { pred: 1, at: x }])?;
/// let closure = close(alloc, &Cq::new(head, body), &axioms, 1_000)?;
/// ```
///
/// The closure has two members: the query for sailors, and one for captains.
pub fn close(
    alloc: Global,
    query: &Cq,
    axioms: &[Axiom],
    limit: u32,
) -> Result<Closure, CloseRefusal>
    requires atoms_fit { length query.now.body < 2 ^ 31 }
    requires axioms_fit { length axioms.now < 2 ^ 31 }

    ensures exact { IfOk result (λ c. IsClosure axioms.now query.now (queries_of c)) }
    ensures closes { IfOk result (λ c. Closes axioms.now query.now c) }
    ensures order { IfOk result (λ c. IsBreadthFirst axioms.now c) }
    ensures few { IfOk result (λ c. length c ≤ limit) }
    ensures refused { result ≡ Err CloseRefusal.TooManyCqs → HasMoreThan axioms.now query.now limit }

    // What the closure is for.
    ensures entails { IfOk result (λ c. MatchesTell axioms.now query.now c) }
{
    if limit == 0 {
        return Err(CloseRefusal::TooManyCqs);
    }
    let mut found = start(alloc, normal(alloc, query)?)?;
    handle_all(alloc, &mut found, axioms, limit)?;
    closing_list_is_closure();
    closure_is_exact();
    let PartialClosure {
        closure,
        codes: _codes,
    } = found;
    let _ = closure.members();
    Ok(closure)
}
