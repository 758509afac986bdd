//! Whether a direct core shows what a try asks.

ghost use Rattle.std.specs.Prelude.{◌≡◌, ◌↔◌, ◌<◌, ℕ, All, Contains, IsTrue, IfOk, length, map};
ghost use Rattle.clause_meaning.specs.Literals.{variable_of};
ghost use Rattle.cq_terms.specs.Lists.{IsAscending};
ghost use Rattle.cq_meaning.specs.Conflicts.{Conflict};
ghost use Rattle.priority_graph.specs.Priority.{IsOver};
ghost use Rattle.report_rules.specs.TryRules.{HasDirectCore};
ghost use Rattle.report_laws.specs.AtStanding.{IsEasyAt, facts_of};
ghost use Rattle.plain_finding.specs.EasyParts.{AreInTable, HasRivalCore, TellsOver};

use crate::standing::Standing;
use cq_terms::{Conflicts, NoMemory};
use plain_finding::{is_easy_absence, is_easy_cause};
use priority_graph::Better;
use report_text::Question;
use std::alloc::Global;

impl Standing {
    /// Whether a direct core shows what is asked: that of the assumed facts, or of a rival of the one that is assumed to be absent.
    pub fn is_easy(
        &self,
        alloc: Global,
        conflicts: &Conflicts,
        better: &Better,
    ) -> Result<bool, NoMemory>
        requires over { IsOver better.now conflicts.now }

        ensures exact { IfOk result (TellsOver conflicts.now better.now
            (λ kb mode. IsEasyAt kb mode self.now.question (facts_of self.now.assumed))) }
    {
        match self.question {
            Question::Brave => is_easy_cause(alloc, conflicts, better, self.assumed.as_slice()),
            Question::Iar => is_easy_absence(alloc, conflicts, better, self.assumed.as_slice()),
            Question::Ar => Ok(false),
        }
    }
}
