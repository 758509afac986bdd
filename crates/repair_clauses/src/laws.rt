//! What satisfies the clauses, each law as the contract of a function that does nothing.
ghost use Rattle.repair_clauses.specs.Laws.{SatisfiedByChosen, SatisfiedByChosenWithin, ClosedSetsSeparate, CauseIsExcluded};

/// An assignment satisfies the base clauses of all facts exactly where its present facts are a chosen repair (after Bienvenu and
/// Bourgaux 2022).
pub fn satisfied_by_chosen_repairs()
    ensures { SatisfiedByChosen }
{}

/// An assignment satisfies the base clauses of facts that are closed under conflict, as those of a component, exactly where its
/// present ones among these facts are chosen within them.
pub fn satisfied_by_chosen_facts()
    ensures { SatisfiedByChosenWithin }
{}

/// No base clause has facts both inside and outside a set that is closed under conflict.
pub fn closed_sets_separate_clauses()
    ensures { ClosedSetsSeparate }
{}

/// The clause of a cause is satisfied exactly where a true selector says that the present facts don't contain the cause.
pub fn cause_clause_excludes_the_cause()
    ensures { CauseIsExcluded }
{}
