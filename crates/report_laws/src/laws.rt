//! The laws of reports, each as the contract of a function that does nothing.

ghost use Rattle.report_laws.specs.AtStanding.{RulesAreKept};
ghost use Rattle.report_laws.specs.BlockLaws.{DisjointnessBlocksAreClosures, QueryBlockIsClosure, SupportsAreMatches};
ghost use Rattle.report_laws.specs.ClauseLaws.{BaseClausesOfPriority, BaseClausesSayChosen, InputHasPriority, PriorityHasInput};
ghost use Rattle.report_laws.specs.ComponentLaws.{LawsOfComponents};
ghost use Rattle.report_laws.specs.ConflictLaws.{ClashesAreConflictLists, PriorityTellsConflicts};
ghost use Rattle.report_laws.specs.Counting.{ClausesAreFew, CoresAreFew, TriesAreFew};
ghost use Rattle.report_laws.specs.CycleLaws.{LawsOfCycles};
ghost use Rattle.report_laws.specs.Deciding.{AllModeDecides, LargeBudgetDecides, TriesAreEasy};
ghost use Rattle.report_laws.specs.HitLaws.{LawsOfHits};
ghost use Rattle.report_laws.specs.Judging.{LinesAreJudged};
ghost use Rattle.report_laws.specs.Laws.{AcceptedByTheRest, AcceptedIsTrue, AcceptedPieces, BrokenByTheRest, BrokenOnce, ConfirmedIsTrue, LiveClausesAreTrue, RightLinesAreTrue, VerdictsAreTrue};
ghost use Rattle.report_laws.specs.ListLaws.{LawsOfLists};
ghost use Rattle.report_laws.specs.LiveLists.{LawsOfLiveLists};
ghost use Rattle.report_laws.specs.Reports.{AcceptedReportIsOfLines, AcceptedReportIsTrue, BrokenReportIsOfLines, JudgedByLines, ReportsAreJudgedOnce};
ghost use Rattle.report_laws.specs.Settling.{TestsTellEvidence};
ghost use Rattle.report_laws.specs.Standing.{LawsOfStanding};
ghost use Rattle.report_laws.specs.Summaries.{AnswersAreCounted, OpenAnswersAreCounted, OpenSaidAreCounted, SaidAreCounted};

/// After right lines each live clause is true of every chosen repair, whichever answer it was learned for.
pub fn live_clauses_are_true()
    ensures { LiveClausesAreTrue }
{}

/// In an open answer after right lines each verdict that its lines settle is true, under an acyclic priority.
pub fn verdicts_are_true()
    ensures { VerdictsAreTrue }
{}

/// Right lines say nothing false, in a report on one query and in a session, under an acyclic priority.
pub fn right_lines_are_true()
    ensures { RightLinesAreTrue }
{}

/// An accepted report tells the candidates in order, and nothing false of them, under an acyclic priority.
pub fn accepted_is_true()
    ensures { AcceptedIsTrue }
{}

/// What is accepted, where no cycle is told, tells the candidates in order and nothing false of them, whoever wrote it.
pub fn confirmed_is_true()
    ensures { ConfirmedIsTrue }
{}

/// A report that is broken first at a line by a rule isn't accepted, and no other line and no other rule are the first. That one of
/// the two comes is not said here: `reports_are_judged_once` says that neither is impossible.
pub fn broken_once()
    ensures { BrokenOnce }
{}

/// The pieces of lines are accepted exactly where the lines are.
pub fn accepted_pieces()
    ensures { AcceptedPieces }
{}

/// After right lines, where the rest of the pieces is broken first, the whole is, at the same line by the same rule.
pub fn broken_by_the_rest()
    ensures { BrokenByTheRest }
{}

/// After right lines, where the rest of the pieces is accepted, the whole is.
pub fn accepted_by_the_rest()
    ensures { AcceptedByTheRest }
{}

/// In an accepted report no question of a candidate is left open whose budget is at least 3 to the power of one more than the facts in
/// conflicts of the candidate's components.
pub fn large_budget_decides()
    ensures { LargeBudgetDecides }
{}

/// In an accepted report of mode `All` brave and IAR are always decided, and AR for a candidate with at most one cause, whatever the
/// budget is.
pub fn all_mode_decides()
    ensures { AllModeDecides }
{}

/// Over all repairs each brave try is easy, and each IAR try on a fact in a conflict.
pub fn tries_are_easy()
    ensures { TriesAreEasy }
{}

/// Each input has its priority in each mode: exactly its conflicts, and exactly its relation "better".
pub fn input_has_priority()
    ensures { InputHasPriority }
{}

/// The base clauses of an input are those of each priority that is the input's in the mode, as `Better` is seen.
pub fn base_clauses_of_priority()
    ensures { BaseClausesOfPriority }
{}

/// An assignment satisfies the base clauses exactly where its present facts are a chosen repair, also where the priority has cycles
/// (after Bienvenu and Bourgaux 2022).
pub fn base_clauses_say_chosen()
    ensures { BaseClausesSayChosen }
{}

/// Each priority is that of some knowledge base: what is said of each input with a priority is said of no empty kind.
pub fn priority_has_input()
    ensures { PriorityHasInput }
{}

/// After right lines, past the block of a disjointness, the block is the closure of its query.
pub fn disjointness_blocks_are_closures()
    ensures { DisjointnessBlocksAreClosures }
{}

/// After right lines the query's block, once it is closed, is the closure of the query.
pub fn query_block_is_closure()
    ensures { QueryBlockIsClosure }
{}

/// Over a closure the supports of a tuple are what its members match with exactly.
pub fn supports_are_matches()
    ensures { SupportsAreMatches }
{}

/// After right lines an open answer has at most one try for each of its causes, one for each fact of a cause, and one more.
pub fn tries_are_few()
    ensures { TriesAreFew }
{}

/// After right lines an open answer has learned at most the budget in each of its three questions.
pub fn clauses_are_few()
    ensures { ClausesAreFew }
{}

/// After right lines a try of an open answer has at most one core line.
pub fn cores_are_few()
    ensures { CoresAreFew }
{}

/// Ordered clashes that are the conflicts of a knowledge base tell its conflicts in the order of the lines.
pub fn clashes_are_conflict_lists()
    ensures { ClashesAreConflictLists }
{}

/// Where the priority of a knowledge base is over conflicts, these are those of the knowledge base.
pub fn priority_tells_conflicts()
    ensures { PriorityTellsConflicts }
{}

/// After right lines the answers with yes are at most those for which the question holds, and these at most the ones with yes and the
/// ones left open.
pub fn answers_are_counted()
    ensures { AnswersAreCounted }
{}

/// After right lines the answers with an open verdict are at most the candidates whose bound is above the budget.
pub fn open_answers_are_counted()
    ensures { OpenAnswersAreCounted }
{}

/// The same of answers that no report tells, each yes and each no of which is true.
pub fn said_are_counted()
    ensures { SaidAreCounted }
{}

/// The answers with an open verdict are at most the tuples that pass, where each of them is of such a one.
pub fn open_said_are_counted()
    ensures { OpenSaidAreCounted }
{}

/// There is one list of conflicts of a table, one of causes of a tuple, and one of candidates of a query.
pub fn exact_lists_are_one()
    ensures { LawsOfLists }
{}

/// A report is accepted exactly where its bytes are those of well-formed lines that are accepted.
pub fn accepted_report_is_of_lines()
    ensures { AcceptedReportIsOfLines }
{}

/// A report is broken first at a line by a rule exactly where the well-formed lines before it are right and what is left breaks the rule.
pub fn broken_report_is_of_lines()
    ensures { BrokenReportIsOfLines }
{}

/// A broken report isn't accepted, and is broken first at one line by one rule; that it is neither can't be.
pub fn reports_are_judged_once()
    ensures { ReportsAreJudgedOnce }
{}

/// Where each line after right lines is right or breaks a rule, each report is accepted or broken first at a line.
pub fn judged_by_lines()
    ensures { JudgedByLines }
{}

/// What is kept of the lines so far: each further line changes it in a way that is told, and it tells what the rules ask.
pub fn laws_of_standing()
    ensures { LawsOfStanding }
{}

/// The tests over the lists of an open answer tell what its lines show, settle and leave open.
pub fn tests_tell_evidence()
    ensures { TestsTellEvidence }
{}

/// The live clauses as a list: base clauses fact by fact, those of the open answer's causes, and the learned ones; a list of them tells what
/// the live clauses refute.
pub fn laws_of_live_lists()
    ensures { LawsOfLiveLists }
{}

/// When pieces tell a cycle and when none; of two beginnings of the same pieces one goes on behind the other.
pub fn laws_of_cycles()
    ensures { LawsOfCycles }
{}

/// What is kept of right lines says of each rule what the lines say.
pub fn rules_at_standing()
    ensures { RulesAreKept }
{}

/// What is kept of right lines, with what a reader found out itself, tells whether a line is right and which rule it breaks.
pub fn lines_are_judged()
    ensures { LinesAreJudged }
{}

/// What the members of closed blocks match tells the conflicts and the candidates with their causes.
pub fn laws_of_hits()
    ensures { LawsOfHits }
{}

/// The query's block is a closure, and the facts of which a learned clause may speak are those that the graph of conflicts reaches.
pub fn laws_of_components()
    ensures { LawsOfComponents }
{}

/// An accepted report that tells no cycle tells the candidates in order and nothing false of them, whoever wrote it.
pub fn accepted_report_is_true()
    ensures { AcceptedReportIsTrue }
{}
