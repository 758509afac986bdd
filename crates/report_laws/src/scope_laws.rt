//! The laws of scopes, each as the contract of a function that does nothing: what keeps to the scope of an answer, and that the rules of
//! its tries may be read over the clauses of the scope alone.

ghost use Rattle.report_laws.specs.Bounds.{BoundExists, ConflictsTellBounds};
ghost use Rattle.report_laws.specs.SolverSteps.{SolverStepsAreRight};
ghost use Rattle.report_laws.specs.ScopeLaws.{ApartOrMarked, BaseClausesAreApart, CauseClausesAreInside, ComponentsAreScope, ForgettingKeeps, FreeFactsHaveUnits, OpenFactsConflict, OpenLiteralsMayBeLearned, ScopeBegins, ScopeDecidesLive, ScopeEnds, ScopeGivesRules, ScopeHasBaseClauses, LoadedClausesDecide, ScopeSeparatesLive, ScopeStays, SelectorIsAbsent, SelectorIsOwn, StartsCarryApart};

/// The facts of the components of causes are a scope, ascending with each selector behind them.
pub fn components_are_scope()
    ensures { ComponentsAreScope }
{}

/// No base clause has variables both in a list of facts that is closed under conflict and outside it, nor has one both in a scope and
/// outside it.
pub fn base_clauses_are_apart()
    ensures { BaseClausesAreApart }
{}

/// The base clauses of the facts of a scope are base clauses inside it.
pub fn scope_has_base_clauses()
    ensures { ScopeHasBaseClauses }
{}

/// The clauses of the causes are inside a scope, and so is all that a try may assume.
pub fn cause_clauses_are_inside()
    ensures { CauseClausesAreInside }
{}

/// Where an answer begins, learned clauses that are apart keep to each scope of its candidate.
pub fn scope_begins()
    ensures { ScopeBegins }
{}

/// A learned clause that keeps to the scope leaves all that live keep to it, and no other line of a try changes this.
pub fn scope_stays()
    ensures { ScopeStays }
{}

/// A clause over the scope keeps to it where, unless it has the selector, it is apart.
pub fn apart_or_marked()
    ensures { ApartOrMarked }
{}

/// The learned clauses that an answer leaves are apart.
pub fn scope_ends()
    ensures { ScopeEnds }
{}

/// Forgetting leaves the learned clauses true and apart.
pub fn forgetting_keeps()
    ensures { ForgettingKeeps }
{}

/// The scope separates the live clauses, and each of these that hasn't the selector is apart.
pub fn scope_separates_live()
    ensures { ScopeSeparatesLive }
{}

/// A learned clause has a selector exactly where it has that of the open answer.
pub fn selector_is_own()
    ensures { SelectorIsOwn }
{}

/// Where lines tell a start, its learned clauses are apart exactly where theirs are.
pub fn starts_carry_apart()
    ensures { StartsCarryApart }
{}

/// No live clause of an open answer has its selector present.
pub fn selector_is_absent()
    ensures { SelectorIsAbsent }
{}

/// Where no live clause of an open answer crosses the border of a scope, those inside refute within it exactly what all refute.
pub fn scope_decides_live()
    ensures { ScopeDecidesLive }
{}

/// Live clauses among which are those of the scope say over the scope what all live clauses say.
pub fn loaded_clauses_decide()
    ensures { LoadedClausesDecide }
{}

/// So the rules of a try may be read over the clauses of the scope.
pub fn scope_gives_rules()
    ensures { ScopeGivesRules }
{}

/// A fact in no conflict has a unit base clause in every mode.
pub fn free_facts_have_units()
    ensures { FreeFactsHaveUnits }
{}

/// A literal of a fact is of one in a conflict where clauses with the fact's unit base clauses leave it open.
pub fn open_facts_conflict()
    ensures { OpenFactsConflict }
{}

/// A clause over the components and the absent selector has literals that may be learned where all of them are left open.
pub fn open_literals_may_be_learned()
    ensures { OpenLiteralsMayBeLearned }
{}

/// The components of causes and the bound of a candidate, read over the conflicts of a knowledge base, are those of the knowledge base.
pub fn conflicts_tell_bounds()
    ensures { ConflictsTellBounds }
{}

/// Causes of facts of the table have a list of what conflicts reach from them, and a bound.
pub fn bound_exists()
    ensures { BoundExists }
{}

/// Beside an open answer the steps of a solver that has its clauses are right: what it learns may be learned, and what it says of the
/// assumptions of a try ends the try.
pub fn solver_steps_are_right()
    ensures { SolverStepsAreRight }
{}
