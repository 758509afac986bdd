//! Where a line leaves a report, and the rule of its kind.

ghost use Rattle.std.specs.Prelude.{◌≡◌, ◌∷◌, List};
ghost use Rattle.report_text.specs.declared.line.Line.{Line};
ghost use Rattle.report_rules.specs.Order.{place_of};
ghost use Rattle.report_rules.specs.Broken.{rule_of};

use crate::place::Place;
use crate::rule::Rule;
use report_text::Line;

/// Where the line leaves a report, whatever stands before it.
pub fn place_after(line: &Line) -> Place
    ensures exact { (before : List Line) → result ≡ place_of (line.now ∷ before) }
{
    match line {
        Line::Head { .. } => Place::AfterHead,
        Line::Cq { origin, .. } => Place::InBlock(*origin),
        Line::Conflict { .. } => Place::InConflicts,
        Line::Ask { .. } | Line::Done { .. } => Place::InAnswer,
        Line::Try { .. } | Line::Learn { .. } => Place::InTry,
        Line::Core { .. } => Place::AfterCore,
        Line::Forget { .. } => Place::AfterForget,
        Line::Answer { .. } => Place::AfterAnswer,
        Line::End { .. } => Place::AtEnd,
    }
}

/// The rule of the line's own kind.
pub fn own_rule(line: &Line) -> Rule
    ensures exact { result ≡ rule_of line.now }
{
    match line {
        Line::Head { .. } => Rule::Head,
        Line::Cq { .. } => Rule::Cq,
        Line::Conflict { .. } => Rule::Conflict,
        Line::Ask { .. } => Rule::Ask,
        Line::Try { .. } => Rule::Try,
        Line::Learn { .. } => Rule::Learn,
        Line::Core { .. } => Rule::Core,
        Line::Done { .. } => Rule::Done,
        Line::Forget { .. } => Rule::Forget,
        Line::Answer { .. } => Rule::Answer,
        Line::End { .. } => Rule::End,
    }
}
