//! The laws of one open answer, each as the contract of a function that does nothing. Their premises are on the answer's own lines
//! and on what it starts from.

ghost use Rattle.report_laws.specs.DeskAnswers.{AddedLinesAnswer, AddedLinesLearn, AnsweredInAllMode, AnsweredKeeps, AnsweredIsDecided, AnsweredIsTrue};
ghost use Rattle.report_laws.specs.OverPriority.{OverPriorityAllDecides, OverPriorityBudgetDecides};
ghost use Rattle.report_laws.specs.OpenLaws.{AnswersKeepOptions, AnswersKeepTruth, CoresGoOn, InsideIsRight, OpenAllModeDecides, OpenBudgetDecides, OpenClausesAreTrue, OpenVerdictsAreTrue, ReadingExists, RightLinesHold, RightLinesNumberCores, RightLinesOpenAnswers, StartIsTold, StartsCarry};

/// In an open answer whose lines are right each live clause is true of every chosen repair, where its candidate is in place and the
/// learned clauses that it starts with are true.
pub fn open_clauses_are_true()
    ensures { OpenClausesAreTrue }
{}

/// In such an answer, where the cores that it starts with are cores, each verdict that its lines settle is true, under an acyclic
/// priority.
pub fn open_verdicts_are_true()
    ensures { OpenVerdictsAreTrue }
{}

/// For a candidate in place some assignment reads a chosen repair.
pub fn some_reading()
    ensures { ReadingExists }
{}

/// What an answer leaves is true, whether or not its candidate was in place.
pub fn answers_keep_truth()
    ensures { AnswersKeepTruth }
{}

/// An open answer leaves no question open where the budget is at least 3 to the power of one more than the facts in conflicts of the
/// candidate's components.
pub fn open_budget_decides()
    ensures { OpenBudgetDecides }
{}

/// Over all repairs an open answer decides brave and IAR, and AR where there is at most one cause, whatever the budget is.
pub fn open_all_mode_decides()
    ensures { OpenAllModeDecides }
{}

/// After right lines an open answer is right by itself, its candidate is in place, and it starts with what is true.
pub fn right_lines_open_answers()
    ensures { RightLinesOpenAnswers }
{}

/// After right lines, where no answer is open, the learned clauses that live are true of every chosen repair, and the cores are cores.
pub fn right_lines_hold()
    ensures { RightLinesHold }
{}

/// A line of a try that is right inside its answer is right where its number is the next.
pub fn inside_is_right()
    ensures { InsideIsRight }
{}

/// Whatever an answer starts with is told by some lines: so the laws of open answers hold where no report tells its lines, too.
pub fn start_is_told()
    ensures { StartIsTold }
{}

/// Where lines tell a start, its learned clauses hold exactly where theirs do.
pub fn starts_carry()
    ensures { StartsCarry }
{}

/// Over a priority alone, with no input at hand, an open answer leaves no question open where the budget is at least the bound of its
/// candidate.
pub fn over_priority_budget_decides()
    ensures { OverPriorityBudgetDecides }
{}

/// Over a priority in which nothing is better, with no input at hand, an open answer decides brave and IAR, and AR where there is at most
/// one cause.
pub fn over_priority_all_decides()
    ensures { OverPriorityAllDecides }
{}

/// Core lines stay numbered below their count, and unique, where the next line has the next number.
pub fn cores_go_on()
    ensures { CoresGoOn }
{}

/// After right lines core lines are numbered below their count, and unique: a number names one core.
pub fn right_lines_number_cores()
    ensures { RightLinesNumberCores }
{}

/// An answer is open after its lines, and keeps the options and the query of its start.
pub fn answers_keep_options()
    ensures { AnswersKeepOptions }
{}

/// Lines that are right inside the answer behind an `ask` line are a right answer, which starts and asks as that line says.
pub fn added_lines_answer()
    ensures { AddedLinesAnswer }
{}

/// What one call answers over a priority, with lines that are right behind any that tell its start: each yes and each no is true for each
/// input with the priority in which the candidate is in place, whether or not a report tells the lines.
pub fn answered_is_true()
    ensures { AnsweredIsTrue }
{}

/// Such a call leaves no question open where the budget is at least the bound of its candidate, in place or not.
pub fn answered_is_decided()
    ensures { AnsweredIsDecided }
{}

/// Over all repairs it never leaves brave and IAR open, nor AR where there is at most one cause.
pub fn answered_in_all_mode()
    ensures { AnsweredInAllMode }
{}

/// Such lines learn what their `learn` lines say, behind what lived before them.
pub fn added_lines_learn()
    ensures { AddedLinesLearn }
{}

/// What such a call leaves is true of every chosen repair, in place or not, and apart where all of it keeps to a scope.
pub fn answered_keeps()
    ensures { AnsweredKeeps }
{}
