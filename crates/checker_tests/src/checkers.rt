//! A small unsatisfiable set of clauses, worked by hand, and random ones beside propagation by passes.

ghost use Rattle.std.specs.Prelude.{◌≡◌, ◌<◌, ◌≤◌, ◌^◌, ◌+◌, ℕ, IfOk, OnOk};
ghost use Rattle.rup_check.specs.State.{IsLive, with_clause};

use clause_meaning::{are_below, opposite};
use cq_terms::NoMemory;
use rup_check::*;
use std::alloc::Global;
use std::process::Abort;
use std::test::Fail;

/// Adds a clause over so many variables, which must get the number.
fn put(
    rt: &impl Abort,
    checker: &mut Checker,
    variables: u32,
    clause: &[u32],
    number: u64,
) -> Result<(), Fail>
    requires variables { checker.old.variables ≡ variables }
    requires few { checker.old.next < 2 ^ 32 }
    ensures { OnOk result (checker.new ≡ with_clause checker.old clause.now) }
{
    assert!(rt; are_below(variables, clause));
    let given = checker.add(clause)?;
    assert_eq!(rt; given, number);
    Ok(())
}

/// Whether the checker, over so many variables, refutes the literals.
fn refutes(rt: &impl Abort, checker: &mut Checker, variables: u32, assume: &[u32]) -> bool
    requires { checker.old.variables ≡ variables }
    ensures { checker.new ≡ checker.old }
{
    assert!(rt; are_below(variables, assume));
    checker.refutes(assume)
}

/// A checker over two variables with the four clauses of both.
fn four(rt: &impl Abort, alloc: Global) -> Result<Checker, Fail>
    ensures variables { IfOk result (λ checker. checker.variables ≡ 2) }
    ensures next { IfOk result (λ checker. checker.next ≡ 4) }
{
    let mut checker = Checker::new(alloc, 2)?;
    put(rt, &mut checker, 2, &[0, 2], 0)?;
    put(rt, &mut checker, 2, &[0, 3], 1)?;
    put(rt, &mut checker, 2, &[1, 2], 2)?;
    put(rt, &mut checker, 2, &[1, 3], 3)?;
    Ok(checker)
}

/// Both variables in each of the four ways. No clause has one literal, so propagation begins only at an assumption.
#[test]
fn four_clauses_need_one_more(rt: HostRuntime) -> Result<(), Fail> {
    let mut checker = four(&rt, rt.alloc())?;
    assert!(rt; !refutes(&rt, &mut checker, 2, &[]));
    assert!(rt; refutes(&rt, &mut checker, 2, &[0]));
    assert!(rt; checker.is_superset_of_live(&[0, 2]));
    assert!(rt; !checker.is_superset_of_live(&[0]));
    put(&rt, &mut checker, 2, &[1], 4)?;
    assert!(rt; refutes(&rt, &mut checker, 2, &[]));
    Ok(())
}

/// A forgotten clause takes no further part, and a false one is the empty one.
#[test]
fn forgotten_clause_is_gone(rt: HostRuntime) -> Result<(), Fail> {
    let mut checker = Checker::new(rt.alloc(), 2)?;
    checker.add(&[])?;
    assert!(rt; refutes(&rt, &mut checker, 2, &[]));
    assert!(rt; checker.is_superset_of_live(&[]));
    checker.forget(0);
    assert!(rt; !refutes(&rt, &mut checker, 2, &[]));
    assert!(rt; !checker.is_superset_of_live(&[0, 2]));
    assert!(rt; refutes(&rt, &mut checker, 2, &[2, 3]));
    Ok(())
}

/// A checker over two variables with the clause of one literal, number 0, and one that then forces the other variable, number 1.
fn forcing(rt: &impl Abort, alloc: Global) -> Result<Checker, Fail>
    ensures variables { IfOk result (λ checker. checker.variables ≡ 2) }
    ensures next { IfOk result (λ checker. checker.next ≡ 2) }
    ensures live { IfOk result (λ checker. IsLive checker.live 0) }
{
    let mut checker = Checker::new(alloc, 2)?;
    put(rt, &mut checker, 2, &[0], 0)?;
    put(rt, &mut checker, 2, &[1, 2], 1)?;
    Ok(checker)
}

/// What the settled clauses force is known, until one of them is forgotten.
#[test]
fn settled_clause_is_forgotten(rt: HostRuntime) -> Result<(), Fail> {
    let mut checker = forcing(&rt, rt.alloc())?;
    checker.settle()?;
    assert!(rt; refutes(&rt, &mut checker, 2, &[3]));
    assert!(rt; !refutes(&rt, &mut checker, 2, &[2]));
    checker.forget(0);
    assert!(rt; !refutes(&rt, &mut checker, 2, &[3]));
    assert!(rt; refutes(&rt, &mut checker, 2, &[0, 3]));
    Ok(())
}

/// A clause that comes after settling clashes with what the settled ones force.
#[test]
fn later_clause_is_looked_at(rt: HostRuntime) -> Result<(), Fail> {
    let mut checker = forcing(&rt, rt.alloc())?;
    checker.settle()?;
    assert!(rt; !refutes(&rt, &mut checker, 2, &[]));
    put(&rt, &mut checker, 2, &[1, 3], 2)?;
    assert!(rt; refutes(&rt, &mut checker, 2, &[]));
    Ok(())
}

/// The next number of a sequence that looks random (Marsaglia 2003).
fn next(seed: &mut u64) -> u64 {
    *seed = *seed ^ (*seed << 13);
    *seed = *seed ^ (*seed >> 7);
    *seed = *seed ^ (*seed << 17);
    *seed
}

/// The next number, brought below a bound.
fn next_below(seed: &mut u64, bound: u32) -> u32
    requires { 0 < bound }
    ensures { result < bound }
{
    (next(seed) % bound as u64) as u32
}

/// Random literals over so many variables, that may repeat: two or three of them, and now and then none or one.
fn some_literals(alloc: Global, variables: u32, seed: &mut u64) -> Result<Vec<u32>, NoMemory>
    requires some { 0 < variables }
    requires few { variables ≤ 8 }
{
    let least = if next_below(seed, 8) == 0 { 0 } else { 2 };
    let length = least + next_below(seed, 2);
    let mut literals = Vec::new(alloc);
    for _ in 0..length {
        literals.push(next_below(seed, 2 * variables))?;
    }
    Ok(literals)
}

/// Whether the literal stands in the list.
fn has(literals: &[u32], literal: u32) -> bool {
    literals.iter().any(|l| *l == literal)
}

/// Whether the opposites of all literals of the clause are known, but for that of one literal.
fn is_false_but_for(clause: &[u32], known: &[u32], literal: Option<u32>) -> bool {
    for l in clause {
        if Some(*l) != literal && !has(known, opposite(*l)) {
            return false;
        }
    }
    true
}

/// The literal that the clause forces, where it isn't known.
fn forced(clause: &[u32], known: &[u32]) -> Option<u32> {
    for literal in clause {
        if !has(known, *literal) && is_false_but_for(clause, known, Some(*literal)) {
            return Some(*literal);
        }
    }
    None
}

/// Adds what clauses force, in one pass over them; whether there was something.
fn pass(clauses: &[Vec<u32>], known: &mut Vec<u32>) -> Result<bool, NoMemory> {
    let mut grows = false;
    for clause in clauses {
        if let Some(literal) = forced(clause, known) {
            known.push(literal)?;
            grows = true;
        }
    }
    Ok(grows)
}

/// The literals, and what the clauses force by them, by passes until there is nothing new.
fn closure(
    alloc: Global,
    clauses: &[Vec<u32>],
    variables: u32,
    literals: &[u32],
) -> Result<Vec<u32>, NoMemory>
    requires { variables ≤ 8 }
{
    let mut known = Vec::from_slice(alloc, literals)?;
    for _ in 0..2 * variables {
        if !pass(clauses, &mut known)? {
            return Ok(known);
        }
    }
    Ok(known)
}

/// Whether some clause is false under the known literals.
fn has_false(clauses: &[Vec<u32>], known: &[u32]) -> bool {
    for clause in clauses {
        if is_false_but_for(clause, known, None) {
            return true;
        }
    }
    false
}

/// Whether two of the literals are opposite.
fn has_opposites(literals: &[u32]) -> bool {
    for literal in literals {
        if has(literals, opposite(*literal)) {
            return true;
        }
    }
    false
}

/// Whether the large clause has all literals of the small one.
fn is_within(small: &[u32], large: &[u32]) -> bool {
    for literal in small {
        if !has(large, *literal) {
            return false;
        }
    }
    true
}

/// Whether some clause is within the literals.
fn has_within(clauses: &[Vec<u32>], literals: &[u32]) -> bool {
    for clause in clauses {
        if is_within(clause, literals) {
            return true;
        }
    }
    false
}

/// Settles the checker, once in three times.
fn settle_at_times(checker: &mut Checker, seed: &mut u64) -> Result<(), NoMemory>
    ensures { checker.new ≡ checker.old }
{
    if next_below(seed, 3) == 0 {
        checker.settle()
    } else {
        Ok(())
    }
}

/// Compares the answers on some literals with those by passes over the clauses.
fn compare(
    rt: &impl Abort,
    alloc: Global,
    checker: &mut Checker,
    variables: u32,
    clauses: &[Vec<u32>],
    seed: &mut u64,
) -> Result<(), Fail>
    requires variables { checker.old.variables ≡ variables }
    requires some { 0 < variables }
    requires few { variables ≤ 8 }
    ensures { OnOk result (checker.new ≡ checker.old) }
{
    settle_at_times(checker, seed)?;
    let literals = some_literals(alloc, variables, seed)?;
    let known = closure(alloc, clauses, variables, &literals)?;
    let clashes = has_false(clauses, &known) || has_opposites(&known);
    assert_eq!(rt; refutes(rt, checker, variables, &literals), clashes);
    assert_eq!(rt;
        checker.is_superset_of_live(&literals),
        has_within(clauses, &literals)
    );
    Ok(())
}

/// Adds a random clause, and compares twice.
fn put_some(
    rt: &impl Abort,
    alloc: Global,
    checker: &mut Checker,
    variables: u32,
    clauses: &mut Vec<Vec<u32>>,
    number: u64,
    seed: &mut u64,
) -> Result<(), Fail>
    requires variables { checker.old.variables ≡ variables }
    requires few { checker.old.next < 2 ^ 32 }
    requires some { 0 < variables }
    requires eight { variables ≤ 8 }
    ensures variables { OnOk result (checker.new.variables ≡ variables) }
    ensures next { OnOk result (checker.new.next ≡ checker.old.next + 1) }
    ensures live { OnOk result (IsLive checker.new.live checker.old.next) }
    ensures kept { OnOk result ((n : ℕ) → IsLive checker.old.live n → IsLive checker.new.live n) }
{
    let clause = some_literals(alloc, variables, seed)?;
    put(rt, checker, variables, &clause, number)?;
    clauses.push(clause)?;
    compare(rt, alloc, checker, variables, clauses, seed)?;
    compare(rt, alloc, checker, variables, clauses, seed)?;
    Ok(())
}

/// Adds two random clauses. Half of the times the first is forgotten again.
fn put_two(
    rt: &impl Abort,
    alloc: Global,
    checker: &mut Checker,
    variables: u32,
    clauses: &mut Vec<Vec<u32>>,
    number: u64,
    seed: &mut u64,
) -> Result<(), Fail>
    requires variables { checker.old.variables ≡ variables }
    requires number { number ≡ checker.old.next }
    requires few { number < 2 ^ 31 }
    requires some { 0 < variables }
    requires eight { variables ≤ 8 }
    ensures variables { OnOk result (checker.new.variables ≡ variables) }
    ensures next { OnOk result (checker.new.next ≡ number + 2) }
{
    let place = clauses.len();
    put_some(rt, alloc, checker, variables, clauses, number, seed)?;
    put_some(rt, alloc, checker, variables, clauses, number + 1, seed)?;
    if next_below(seed, 2) == 0 && place < clauses.len() {
        checker.forget(number);
        clauses.swap_remove(place);
    }
    compare(rt, alloc, checker, variables, clauses, seed)?;
    Ok(())
}

/// Twelve random clauses over so many variables, of which some are forgotten on the way.
fn put_twelve(rt: &impl Abort, alloc: Global, variables: u32, seed: &mut u64) -> Result<(), Fail>
    requires some { 0 < variables }
    requires eight { variables ≤ 8 }
{
    let mut checker = Checker::new(alloc, variables)?;
    let mut clauses = Vec::new(alloc);
    for i in 0..6 {
        put_two(
            rt,
            alloc,
            &mut checker,
            variables,
            &mut clauses,
            2 * i,
            seed,
        )?;
    }
    Ok(())
}

/// Random clauses over four to eight variables.
#[test]
fn refutations_are_those_by_passes(rt: HostRuntime) -> Result<(), Fail> {
    let mut seed = 88172645463325252;
    for i in 0..200 {
        put_twelve(&rt, rt.alloc(), 4 + i % 5, &mut seed)?;
    }
    Ok(())
}
