//! Where the conflict lines are over, none is missing.

ghost use Rattle.std.specs.Prelude.{◌≡◌, ◌↔◌, ℕ, List, IsTrue, length};
ghost use Rattle.report_rules.specs.Inputs.{OneQuery};
ghost use Rattle.report_laws.specs.AtStanding.{LeavesNoneOutAt};
ghost use Rattle.refutation_confirmer.specs.Kinds.{IsBehindConflicts};

use report_standing::Standing;
use report_text::Line;

/// Whether a line of the kind stands behind all conflict lines.
pub fn is_behind_conflicts(line: &Line) -> bool
    ensures exact { IsTrue result ↔ IsBehindConflicts line.now }
{
    matches!(
        line,
        Line::Forget { .. } | Line::Ask { .. } | Line::End { .. }
    )
}

/// Whether all of so many conflicts are told.
pub fn has_told_all(standing: &Standing, conflicts: usize) -> bool
    ensures exact { IsTrue result ↔ (standing.now.told ≡ conflicts) }
{
    standing.told() == conflicts as u64
}
