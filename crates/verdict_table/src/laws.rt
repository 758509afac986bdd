//! The law of whole reports.

ghost use Rattle.verdict_table.specs.Whole.{WholeReportsAreTaken};

/// A report has no bad line exactly where it is lines, of which the last, and no other, is an end.
pub fn whole_reports_are_taken()
    ensures { WholeReportsAreTaken }
{}
