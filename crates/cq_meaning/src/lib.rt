//! What the engine's answers mean: the chase, entailment, conflicts, repairs, verdicts and candidates, with the laws over
//! them. The definitions stand in `specs/`; each law is the contract of a function that does nothing.
#![tactic(auto)]

ghost use Rattle.cq_meaning.specs.Examples.{StaffVerdicts, NullIsInconsistent};
ghost use Rattle.cq_meaning.specs.Laws.{EachAtomDescends, EachAtomDescendsByNumber, ConsistentByPairs, MinimalInconsistentHasTwo, ExtendsToRepair, LocalForm, ChosenExists, CoreExtends, ConceptNameVerdicts, ConceptNameConflicts};
ghost use Rattle.cq_meaning.specs.RewritingLaws.{NormalIsReached, NormalIsUnique, NormalAgain, MatchIsEntailed, EntailedHasMatch, ClosureIsExact, ClosureExists, EntailedBySupports, CandidatesHaveSupports, CausesAreSupports, ConsistentByQueries, ConsistentByQueriesInTable, SelfInconsistentIsForbidden, ConflictIsForbidden, ConsistentByLists};
ghost use Rattle.cq_meaning.specs.VerdictLaws.{EntailedByCauses, CausesTellVerdicts};

/// Each atom of a stage of the chase descends from one fact (after Calvanese and others 2007).
pub fn each_atom_descends()
    ensures { EachAtomDescends }
{}

/// Each atom of a stage of the chase of a part of a table descends from one fact of it.
pub fn each_atom_descends_by_number()
    ensures { EachAtomDescendsByNumber }
{}

/// A set of facts is consistent exactly where it has no self-inconsistent fact and no two facts that conflict.
pub fn consistent_by_pairs()
    ensures { ConsistentByPairs }
{}

/// A set of facts that is not consistent, but is without any one of its facts, has one fact or two.
pub fn minimal_inconsistent_has_two()
    ensures { MinimalInconsistentHasTwo }
{}

/// A consistent set of facts lies in a repair.
pub fn extends_to_repair()
    ensures { ExtendsToRepair }
{}

/// A set is a chosen repair exactly where it is consistent and each self-consistent fact outside it conflicts with one
/// inside to which it isn't better (after Bienvenu and Bourgaux 2022).
pub fn local_form()
    ensures { LocalForm }
{}

/// Under an acyclic priority there is a chosen repair.
pub fn chosen_exists()
    ensures { ChosenExists }
{}

/// A core lies in a chosen repair that has nothing of what the core drops, under an acyclic priority.
pub fn core_extends()
    ensures { CoreExtends }
{}

/// The counted rounds reach the normal form: neither step changes anything any more, and the body is in order.
pub fn normal_is_reached()
    ensures { NormalIsReached }
{}

/// A query has one normal form, in whatever order the two steps are taken.
pub fn normal_is_unique()
    ensures { NormalIsUnique }
{}

/// A query in normal form is its own normal form.
pub fn normal_again()
    ensures { NormalAgain }
{}

/// Rewriting is sound: what a query of the closure matches is entailed over the chase (after Calvanese and others 2007).
pub fn match_is_entailed()
    ensures { MatchIsEntailed }
{}

/// Rewriting is complete: what is entailed over the chase, some query of the closure matches (after Calvanese and others
/// 2007).
pub fn entailed_has_match()
    ensures { EntailedHasMatch }
{}

/// Over a list that is the closure of a query, what its queries match is exactly what is entailed.
pub fn closure_is_exact()
    ensures { ClosureIsExact }
{}

/// Every query has a closure.
pub fn closure_exists()
    ensures { ClosureExists }
{}

/// A part of a table entails a tuple exactly where it has a support of it.
pub fn entailed_by_supports()
    ensures { EntailedBySupports }
{}

/// A table entails a tuple exactly where there is a support of it.
pub fn candidates_have_supports()
    ensures { CandidatesHaveSupports }
{}

/// The causes of a tuple are its consistent supports that contain no smaller support.
pub fn causes_are_supports()
    ensures { CausesAreSupports }
{}

/// A consistent part of a table entails a tuple exactly where it has a cause of it.
pub fn entailed_by_causes()
    ensures { EntailedByCauses }
{}

/// A tuple is brave, AR or IAR exactly where some chosen repair, each one, or what all have has a cause of it, under an
/// acyclic priority.
pub fn causes_tell_verdicts()
    ensures { CausesTellVerdicts }
{}

/// Facts are consistent exactly where they entail the query of no disjointness.
pub fn consistent_by_queries()
    ensures { ConsistentByQueries }
{}

/// A part of a table is consistent exactly where it entails the query of no disjointness.
pub fn consistent_by_queries_in_table()
    ensures { ConsistentByQueriesInTable }
{}

/// A fact is self-inconsistent exactly where a query of the closure of a disjointness matches with it alone.
pub fn self_inconsistent_is_forbidden()
    ensures { SelfInconsistentIsForbidden }
{}

/// Two facts conflict exactly where neither is self-inconsistent and a query of the closure of a disjointness matches with
/// exactly the two.
pub fn conflict_is_forbidden()
    ensures { ConflictIsForbidden }
{}

/// Over the exact lists of conflicts, a set is consistent exactly where it has no self-inconsistent fact and no pair.
pub fn consistent_by_lists()
    ensures { ConsistentByLists }
{}

/// Under axioms and facts of concept names alone, the inclusions and disjointnesses above the names of the facts tell who
/// is in a concept by all facts, by one fact and by some repair.
pub fn concept_name_verdicts()
    ensures { ConceptNameVerdicts }
{}

/// Under axioms and facts of concept names alone, two facts conflict exactly where they put one individual in satisfiable
/// names with a disjointness above them.
pub fn concept_name_conflicts()
    ensures { ConceptNameConflicts }
{}

/// The verdicts of the staff register, from the definitions.
pub fn staff_verdicts()
    ensures { StaffVerdicts }
{}

/// A fact that is self-inconsistent by a null, from the definitions.
pub fn null_is_inconsistent()
    ensures { NullIsInconsistent }
{}
