//! Clauses over two and four variables that are added, dropped and searched, and logs that fail at a call.

ghost use Rattle.std.specs.Prelude.{◌≡◌, ◌≢◌, ◌<◌, ◌≤◌, ◌+◌, ◌-◌, [], ◌∷◌, None, IfOk, OnOk};
ghost use Rattle.clause_meaning.specs.Literals.{AreBelow, HaveDistinctVariables};
ghost use Rattle.clause_meaning.specs.Learning.{is_in, IsOneSided};
ghost use Rattle.cdcl_core.specs.Trials.{IsSmall, IsFresh, IsParted};

use cdcl_core::*;
use clause_meaning::variable_of;
use cq_terms::NoMemory;
use proof_logs::{LogFault, MemLog, ProofLog};
use std::alloc::Global;
use std::process::Abort;
use std::test::Fail;

/// Adds a clause of two literals over two variables.
#[tactic(auto, using(clause_meaning::proofs::FewLiterals::distinct_two, clause_meaning::proofs::FewLiterals::below_two))]
fn put(rt: &impl Abort, solver: &mut Solver, a: u32, b: u32) -> Result<(), Fail>
    requires { IsFresh 2 solver.old }
    ensures { OnOk result (IsFresh 2 solver.new) }
{
    assert!(rt; variable_of(a) < 2);
    assert!(rt; variable_of(b) < 2);
    assert!(rt; variable_of(a) != variable_of(b));
    add(solver, &[a, b])?;
    Ok(())
}

/// Adds a clause.
fn add(solver: &mut Solver, clause: &[u32]) -> Result<(), NoMemory>
    requires fresh { IsFresh 2 solver.old }
    requires some { clause.now ≢ [] }
    requires in_range { AreBelow 2 clause.now }
    requires distinct { HaveDistinctVariables clause.now }

    ensures { OnOk result (IsFresh 2 solver.new) }
{
    solver.add_clause(clause)
}

/// A solver over two variables.
#[tactic(auto, using(crate::proofs::SolversTestLemmas::fresh_new))]
fn two(alloc: Global) -> Result<Solver, NoMemory>
    ensures { IfOk result (λ solver. IsFresh 2 solver) }
{
    let solver = Solver::new(alloc, 2)?;
    Ok(solver)
}

/// The four clauses over two variables, which leave no model.
fn four(rt: &impl Abort, alloc: Global) -> Result<Solver, Fail>
    ensures { IfOk result (λ solver. IsFresh 2 solver) }
{
    let mut solver = two(alloc)?;
    put(rt, &mut solver, 0, 2)?;
    put(rt, &mut solver, 0, 3)?;
    put(rt, &mut solver, 1, 2)?;
    put(rt, &mut solver, 1, 3)?;
    Ok(solver)
}

/// Searches over both variables.
fn search_both(
    solver: &mut Solver,
    assume: &[u32],
    limit: u64,
    log: &mut MemLog,
) -> Result<Outcome, SolveFault>
    requires fresh { IsFresh 2 solver.old }
    requires in_range { AreBelow 2 assume.now }
    requires few { limit ≤ 5 }
    requires whole { log.old.torn ≡ None }

    ensures fresh { limit ≡ 0 → IsFresh 2 solver.new }
    ensures whole { OnOk result (log.new.torn ≡ None) }
{
    let mut budget = Budget { limit, used: 0 };
    solver.solve(&[0, 1], assume, &mut budget, log)
}

/// Searches with one assumption, and without budget.
#[tactic(auto, using(clause_meaning::proofs::FewLiterals::below_one))]
fn search_with(
    rt: &impl Abort,
    solver: &mut Solver,
    literal: u32,
    log: &mut MemLog,
) -> Result<Outcome, SolveFault>
    requires fresh { IsFresh 2 solver.old }
    requires whole { log.old.torn ≡ None }

    ensures fresh { IsFresh 2 solver.new }
    ensures whole { OnOk result (log.new.torn ≡ None) }
{
    assert!(rt; variable_of(literal) < 2);
    search_both(solver, &[literal], 0, log)
}

/// Searches with one assumption, and without budget, which must end so.
fn expect_with(
    rt: &impl Abort,
    solver: &mut Solver,
    literal: u32,
    log: &mut MemLog,
    expected: Outcome,
)
    requires fresh { IsFresh 2 solver.old }
    requires whole { log.old.torn ≡ None }

    ensures fresh { IsFresh 2 solver.new }
    ensures whole { log.new.torn ≡ None }
{
    match search_with(rt, solver, literal, log) {
        Ok(outcome) => assert!(rt; outcome == expected),
        Err(_) => panic!(rt; "a fault"),
    }
}

/// Given clauses have no numbers, and each call succeeds where memory is ample.
#[test]
fn given_clauses_have_no_numbers(rt: HostRuntime) -> Result<(), Fail> {
    let mut solver = two(rt.alloc())?;
    put(&rt, &mut solver, 2, 0)?;
    put(&rt, &mut solver, 0, 3)?;
    solver.close(1);
    solver.compact();
    assert!(rt; solver.learned_live() == 0);
    assert!(rt; solver.learned_numbers()?.is_empty());
    Ok(())
}

/// A log that is to fail at its second call keeps the first clause.
#[test]
fn a_log_fails_at_its_call(rt: HostRuntime) -> Result<(), Fail> {
    let mut log = MemLog::new(rt.alloc(), Some(1));
    assert!(rt; log.learned(4, &[0]).is_ok());
    assert!(rt; log.learned(5, &[1, 2]) == Err(LogFault::Failed));
    assert!(rt; log.clauses().len() == 1);
    assert!(rt; log.clauses()[0].as_slice() == [0].as_slice());
    Ok(())
}

/// The four clauses need one learned unit, and an assumption needs none.
#[test]
fn four_clauses_are_refuted_by_one_unit(rt: HostRuntime) -> Result<(), Fail> {
    let mut solver = four(&rt, rt.alloc())?;
    let mut log = MemLog::new(rt.alloc(), None);
    match search_both(&mut solver, &[], 0, &mut log) {
        Ok(outcome) => assert!(rt; outcome == Outcome::Spent),
        Err(_) => panic!(rt; "a fault"),
    }
    match search_with(&rt, &mut solver, 1, &mut log) {
        Ok(outcome) => assert!(rt; outcome == Outcome::Refuted),
        Err(_) => panic!(rt; "a fault"),
    }
    assert!(rt; log.clauses().is_empty());
    assert!(rt; search_both(&mut solver, &[], 5, &mut log) == Ok(Outcome::Refuted));
    assert!(rt; log.clauses().len() == 1);
    assert!(rt; log.clauses()[0].len() == 1);
    assert!(rt; solver.learned_live() == 1);
    assert!(rt; solver.learned_numbers()?.as_slice() == [0].as_slice());
    Ok(())
}

/// Where the log fails at its first call, no clause is learned.
#[test]
fn a_failing_log_leaves_no_learned_clause(rt: HostRuntime) -> Result<(), Fail> {
    let mut solver = four(&rt, rt.alloc())?;
    let mut log = MemLog::new(rt.alloc(), Some(0));
    assert!(rt; search_both(&mut solver, &[], 5, &mut log) == Err(SolveFault::Log));
    assert!(rt; log.clauses().is_empty());
    assert!(rt; solver.learned_live() == 0);
    Ok(())
}

/// Two clauses leave variable 1 to be present; variable 0 is absent unless it is assumed, and no variable beyond is present.
#[test]
fn a_model_is_found(rt: HostRuntime) -> Result<(), Fail> {
    let mut solver = two(rt.alloc())?;
    put(&rt, &mut solver, 0, 2)?;
    put(&rt, &mut solver, 1, 2)?;
    let mut log = MemLog::new(rt.alloc(), None);
    expect_with(&rt, &mut solver, 0, &mut log, Outcome::Model);
    assert_eq!(rt; values(&solver), 0b0011);
    expect_with(&rt, &mut solver, 3, &mut log, Outcome::Refuted);
    assert_eq!(rt; values(&solver), 0);
    Ok(())
}

/// The next number of a sequence that looks random (Marsaglia 2003).
fn next(seed: &mut u64) -> u64 {
    *seed = *seed ^ (*seed << 13);
    *seed = *seed ^ (*seed >> 7);
    *seed = *seed ^ (*seed << 17);
    *seed
}

/// A random literal of one of four variables.
fn some_literal(seed: &mut u64) -> u32
    ensures { result < 8 }
{
    (next(seed) % 8) as u32
}

/// A solver over four variables.
#[tactic(auto, using(crate::proofs::SolversTestLemmas::fresh_new))]
fn over_four(alloc: Global) -> Result<Solver, NoMemory>
    ensures { IfOk result (λ solver. IsFresh 4 solver) }
{
    let solver = Solver::new(alloc, 4)?;
    Ok(solver)
}

/// Adds a clause over four variables.
fn add_to_four(solver: &mut Solver, clause: &[u32]) -> Result<(), NoMemory>
    requires fresh { IsFresh 4 solver.old }
    requires some { clause.now ≢ [] }
    requires in_range { AreBelow 4 clause.now }
    requires distinct { HaveDistinctVariables clause.now }

    ensures { OnOk result (IsFresh 4 solver.new) }
{
    solver.add_clause(clause)
}

/// Adds a clause of three literals over four variables.
#[tactic(auto, using(clause_meaning::proofs::FewLiterals::distinct_three, clause_meaning::proofs::FewLiterals::below_three))]
fn put_three(rt: &impl Abort, solver: &mut Solver, a: u32, b: u32, c: u32) -> Result<(), Fail>
    requires { IsFresh 4 solver.old }
    ensures { OnOk result (IsFresh 4 solver.new) }
{
    assert!(rt; variable_of(a) < 4);
    assert!(rt; variable_of(b) < 4);
    assert!(rt; variable_of(c) < 4);
    assert!(rt; variable_of(a) != variable_of(b));
    assert!(rt; variable_of(a) != variable_of(c));
    assert!(rt; variable_of(b) != variable_of(c));
    add_to_four(solver, &[a, b, c])?;
    Ok(())
}

/// Adds a clause of two literals over four variables.
#[tactic(auto, using(clause_meaning::proofs::FewLiterals::distinct_two, clause_meaning::proofs::FewLiterals::below_two))]
fn put_pair(rt: &impl Abort, solver: &mut Solver, a: u32, b: u32) -> Result<(), Fail>
    requires { IsFresh 4 solver.old }
    ensures { OnOk result (IsFresh 4 solver.new) }
{
    assert!(rt; variable_of(a) < 4);
    assert!(rt; variable_of(b) < 4);
    assert!(rt; variable_of(a) != variable_of(b));
    add_to_four(solver, &[a, b])?;
    Ok(())
}

/// Searches over the four variables.
fn search_four(
    solver: &mut Solver,
    assume: &[u32],
    budget: &mut Budget,
    log: &mut MemLog,
) -> Result<Outcome, SolveFault>
    requires small { IsSmall 4 solver.old }
    requires in_range { AreBelow 4 assume.now }
    requires few { solver.old.next ≤ 100 }
    requires within { budget.old.used ≤ budget.old.limit }
    requires limit { budget.old.limit ≤ 100 }
    requires whole { log.old.torn ≡ None }

    ensures small { IsSmall 4 solver.new }
    ensures learned { solver.new.next ≤ solver.old.next + (budget.old.limit - budget.old.used) }
    ensures limit { budget.new.limit ≡ budget.old.limit }
    ensures within { budget.new.used ≤ budget.new.limit }
    ensures whole { OnOk result (log.new.torn ≡ None) }
{
    solver.solve(&[0, 1, 2, 3], assume, budget, log)
}

/// Whether the assignment, a bit for each variable, makes the literal true.
fn is_true(assignment: u32, literal: u32) -> bool
    requires { literal < 8 }
{
    ((assignment >> (literal / 2)) & 1 == 1) == (literal % 2 == 0)
}

/// Whether the assignment makes some of the literals true.
fn satisfies(assignment: u32, clause: &[u32]) -> bool {
    clause
        .iter()
        .any(|literal| *literal < 8 && is_true(assignment, *literal))
}

/// Whether the assignment satisfies all clauses.
fn satisfies_all(assignment: u32, clauses: &[Vec<u32>]) -> bool {
    for clause in clauses {
        if !satisfies(assignment, clause) {
            return false;
        }
    }
    true
}

/// Whether one of the sixteen assignments satisfies all clauses.
fn can_be_satisfied(clauses: &[Vec<u32>]) -> bool {
    for assignment in 0..16 {
        if satisfies_all(assignment, clauses) {
            return true;
        }
    }
    false
}

/// The values that the solver tells, a bit for each variable.
fn values(solver: &Solver) -> u32 {
    let mut assignment = 0;
    for variable in 0..4 {
        if solver.value(variable) {
            assignment = assignment | (1 << variable);
        }
    }
    assignment
}

/// Adds a random clause of two or three literals, unless two of them are of one variable.
fn put_some(
    rt: &impl Abort,
    alloc: Global,
    solver: &mut Solver,
    clauses: &mut Vec<Vec<u32>>,
    seed: &mut u64,
) -> Result<(), Fail>
    requires { IsFresh 4 solver.old }
    ensures { OnOk result (IsFresh 4 solver.new) }
{
    let a = some_literal(seed);
    let b = some_literal(seed);
    let c = some_literal(seed);
    if a / 2 == b / 2 {
        return Ok(());
    }
    if a / 2 == c / 2 || b / 2 == c / 2 {
        put_pair(rt, solver, a, b)?;
        clauses.push(Vec::from_slice(alloc, &[a, b])?)?;
        return Ok(());
    }
    put_three(rt, solver, a, b, c)?;
    clauses.push(Vec::from_slice(alloc, &[a, b, c])?)?;
    Ok(())
}

/// Searches with an assumption, and looks at all assignments.
#[tactic(auto, using(clause_meaning::proofs::FewLiterals::below_one))]
fn compare(
    rt: &impl Abort,
    alloc: Global,
    solver: &mut Solver,
    clauses: &mut Vec<Vec<u32>>,
    literal: u32,
) -> Result<(), Fail>
    requires { IsFresh 4 solver.old }
{
    assert!(rt; variable_of(literal) < 4);
    let mut budget = Budget {
        limit: 100,
        used: 0,
    };
    let mut log = MemLog::new(alloc, None);
    let outcome = search_four(solver, &[literal], &mut budget, &mut log);
    clauses.push(Vec::from_slice(alloc, &[literal])?)?;
    if can_be_satisfied(clauses) {
        assert!(rt; outcome == Ok(Outcome::Model));
        assert!(rt; satisfies_all(values(solver), clauses));
    } else {
        assert!(rt; outcome == Ok(Outcome::Refuted));
    }
    Ok(())
}

/// Some random clauses over four variables, and a search among them.
fn search_some(rt: &impl Abort, alloc: Global, seed: &mut u64) -> Result<(), Fail> {
    let mut solver = over_four(alloc)?;
    let mut clauses = Vec::new(alloc);
    for _ in 0..16 {
        put_some(rt, alloc, &mut solver, &mut clauses, seed)?;
    }
    compare(rt, alloc, &mut solver, &mut clauses, some_literal(seed))
}

/// A search ends as a look at all assignments does.
#[test]
fn outcomes_are_those_by_all_assignments(rt: HostRuntime) -> Result<(), Fail> {
    let mut seed = 88172645463325252;
    for _ in 0..200 {
        search_some(&rt, rt.alloc(), &mut seed)?;
    }
    Ok(())
}

/// The eight clauses over three variables. A search learns three clauses from them: after two guesses one of two literals, and
/// then two units, each after one guess.
fn eight(rt: &impl Abort, alloc: Global) -> Result<Solver, Fail>
    ensures { IfOk result (λ solver. IsFresh 4 solver) }
{
    let mut solver = over_four(alloc)?;
    for i in 0..8 {
        put_three(rt, &mut solver, i & 1, 2 + (i >> 1 & 1), 4 + (i >> 2 & 1))?;
    }
    Ok(solver)
}

/// A search that used up its budget goes on with more.
#[test]
fn a_spent_search_goes_on(rt: HostRuntime) -> Result<(), Fail> {
    let mut solver = eight(&rt, rt.alloc())?;
    let mut log = MemLog::new(rt.alloc(), None);
    let mut budget = Budget { limit: 1, used: 0 };
    match search_four(&mut solver, &[], &mut budget, &mut log) {
        Ok(outcome) => assert!(rt; outcome == Outcome::Spent),
        Err(_) => panic!(rt; "a fault"),
    }
    assert!(rt; budget.used == 1 && solver.learned_live() == 1);
    budget.limit = 50;
    assert!(rt; search_four(&mut solver, &[], &mut budget, &mut log) == Ok(Outcome::Refuted));
    assert!(rt; budget.used == 3 && log.clauses().len() == 3);
    assert!(rt; solver.learned_numbers()?.as_slice() == [0, 1, 2].as_slice());
    Ok(())
}

/// Searches among the eight clauses with a log that fails at a call of that number.
fn search_failing(rt: &impl Abort, alloc: Global, call: u64) -> Result<(), Fail> {
    let mut solver = eight(rt, alloc)?;
    let mut log = MemLog::new(alloc, Some(call));
    let mut budget = Budget { limit: 50, used: 0 };
    let outcome = search_four(&mut solver, &[], &mut budget, &mut log);
    if call < 3 {
        assert!(rt; outcome == Err(SolveFault::Log));
    } else {
        assert!(rt; outcome == Ok(Outcome::Refuted));
    }
    assert_eq!(rt; solver.learned_live(), call.min(3));
    assert_eq!(rt; solver.learned_numbers()?.len() as u64, call.min(3));
    assert_eq!(rt; log.clauses().len() as u64, call.min(3));
    assert_eq!(rt; budget.used, call.min(3));
    Ok(())
}

/// The live learned clauses are those that the log took, at whichever call it fails.
#[test]
fn each_call_of_the_log_fails_in_turn(rt: HostRuntime) -> Result<(), Fail> {
    for call in 0..5 {
        search_failing(&rt, rt.alloc(), call)?;
    }
    Ok(())
}

/// Adds a clause that is on one side of the border behind the first two of four variables.
fn add_parted(solver: &mut Solver, clause: &[u32]) -> Result<(), NoMemory>
    requires parted { IsParted solver.old }
    requires some { clause.now ≢ [] }
    requires in_range { AreBelow 4 clause.now }
    requires distinct { HaveDistinctVariables clause.now }
    requires side { IsOneSided (is_in (0 ∷ 1 ∷ [])) clause.now }

    ensures { OnOk result (IsParted solver.new) }
{
    solver.add_clause(clause)
}

/// Adds a clause of two literals over the first two of four variables.
#[tactic(auto, using(clause_meaning::proofs::FewLiterals::distinct_two, clause_meaning::proofs::FewLiterals::below_two, crate::proofs::SolversTestLemmas::first_sided))]
fn put_first(rt: &impl Abort, solver: &mut Solver, a: u32, b: u32) -> Result<(), Fail>
    requires { IsParted solver.old }
    ensures { OnOk result (IsParted solver.new) }
{
    assert!(rt; variable_of(a) < 2);
    assert!(rt; variable_of(b) < 2);
    assert!(rt; variable_of(a) != variable_of(b));
    add_parted(solver, &[a, b])?;
    Ok(())
}

/// Adds a clause of two literals over the other two.
#[tactic(auto, using(clause_meaning::proofs::FewLiterals::distinct_two, clause_meaning::proofs::FewLiterals::below_two, crate::proofs::SolversTestLemmas::last_sided))]
fn put_last(rt: &impl Abort, solver: &mut Solver, a: u32, b: u32) -> Result<(), Fail>
    requires { IsParted solver.old }
    ensures { OnOk result (IsParted solver.new) }
{
    assert!(rt; variable_of(a) < 4);
    assert!(rt; variable_of(b) < 4);
    assert!(rt; variable_of(a) >= 2);
    assert!(rt; variable_of(b) >= 2);
    assert!(rt; variable_of(a) != variable_of(b));
    add_parted(solver, &[a, b])?;
    Ok(())
}

/// Searches over the first two variables.
fn search_first(solver: &mut Solver, log: &mut MemLog) -> Result<Outcome, SolveFault>
    requires parted { IsParted solver.old }
    requires whole { log.old.torn ≡ None }
{
    let mut budget = Budget { limit: 5, used: 0 };
    solver.solve(&[0, 1], &[], &mut budget, log)
}

/// The clauses over the first two variables have a model in which variable 1 is present, though those over the other two have none, and so
/// nothing is said of these.
#[test]
fn a_scope_stands_beside_other_clauses(rt: HostRuntime) -> Result<(), Fail> {
    let mut solver = Solver::new(rt.alloc(), 4)?;
    put_first(&rt, &mut solver, 0, 2)?;
    put_first(&rt, &mut solver, 1, 2)?;
    put_last(&rt, &mut solver, 4, 6)?;
    put_last(&rt, &mut solver, 4, 7)?;
    put_last(&rt, &mut solver, 5, 6)?;
    put_last(&rt, &mut solver, 5, 7)?;
    let mut log = MemLog::new(rt.alloc(), None);
    assert!(rt; search_first(&mut solver, &mut log) == Ok(Outcome::Model));
    assert!(rt; solver.value(1) && !solver.value(2) && !solver.value(3));
    assert!(rt; log.clauses().is_empty());
    Ok(())
}
