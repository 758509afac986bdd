//! The rule of a `core` line.

ghost use Rattle.std.specs.Prelude.{◌≡◌, ◌↔◌, ◌<◌, ◌⊎◌, ℕ, All, Contains, IsTrue};
ghost use Rattle.cq_terms.specs.Knowledge.{Knowledge};
ghost use Rattle.cq_terms.specs.Lists.{IsAscending};
ghost use Rattle.cq_meaning.specs.ConflictGraphs.{AreConflictsOf};
ghost use Rattle.priority_graph.specs.Cores.{IsBlocked, IsCore};
ghost use Rattle.priority_graph.specs.Priority.{IsOver};
ghost use Rattle.report_laws.specs.AtStanding.{CoreAt};
ghost use Rattle.plain_finding.specs.CoreParts.{DropsRivals, IsApart};

use crate::standing::Standing;
use cq_terms::Conflicts;
use plain_finding::{are_facts, is_core};
use priority_graph::Better;

impl Standing {
    /// Whether the core has the next number, and the ascending facts that it keeps and drops are a core.
    pub fn is_right_core(
        &self,
        conflicts: &Conflicts,
        better: &Better,
        number: u64,
        kept: &[u32],
        dropped: &[u32],
    ) -> bool
        requires over { IsOver better.now conflicts.now }

        ensures exact { (kb : Knowledge) → AreConflictsOf kb conflicts.now
            → (IsTrue result ↔ CoreAt kb better.now self.now number kept.now dropped.now) }
    {
        let facts = conflicts.facts();
        number == self.cores.len() as u64
            && are_facts(kept, facts)
            && are_facts(dropped, facts)
            && is_core(conflicts, better, kept, dropped)
    }
}
