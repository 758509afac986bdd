//! The laws of reports that are accepted, each as the contract of a function that does nothing.

ghost use Rattle.cqapri_cli.specs.Counts.{SummaryIsRight};
ghost use Rattle.cqapri_cli.specs.ReportLaws.{AcceptedIsRight, OpenIsCounted, RightLinesSpend};

use report_laws::{
    accepted_is_true, accepted_report_is_of_lines, conflicts_tell_bounds, exact_lists_are_one,
    laws_of_cycles,
};
use report_text::laws_of_pieces;

/// Right lines leave a question open only after its whole budget of new clauses was learned.
pub fn right_lines_spend()
    ensures { RightLinesSpend }
{}

/// Accepted lines are a right report, where the priority of their repairs is acyclic.
pub fn accepted_is_right()
    ensures { AcceptedIsRight }
{
    accepted_is_true();
    accepted_report_is_of_lines();
    laws_of_cycles();
    laws_of_pieces();
    right_lines_spend();
}

/// The last of accepted lines counts no open answer exactly where there is none.
pub fn open_is_counted()
    ensures { OpenIsCounted }
{}

/// The counts of a classification of what is prepared are those of right verdicts.
pub fn summary_is_right()
    ensures { SummaryIsRight }
{
    conflicts_tell_bounds();
    exact_lists_are_one();
}
