//! Worked reports, whose acceptance is proved from the definitions. Each law is the contract of a function that does nothing.

ghost use Rattle.report_laws.specs.Examples.{StaffReports};
ghost use Rattle.report_laws.specs.LearningExample.{LearningReports};

use cq_meaning::staff_verdicts;

/// The worked report on the staff register is accepted, and each altered one is broken at its line by its rule.
pub fn staff_reports()
    ensures { StaffReports }
{
    staff_verdicts();
}

/// The worked report that learns and forgets clauses, with a try that is spent and tries that end refuted, is accepted, and each altered
/// one is broken at its line by its rule.
pub fn learning_reports()
    ensures { LearningReports }
{}
