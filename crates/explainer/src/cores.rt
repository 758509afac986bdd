//! Cores from present facts, grown from what they have to keep and drop.

ghost use Rattle.std.specs.Prelude.{◌<◌, ◌++◌, All, Contains, IfOk};
ghost use Rattle.cq_terms.specs.Lists.{IsAscending};
ghost use Rattle.priority_graph.specs.Priority.{IsOver};
ghost use Rattle.explainer.specs.Wanted.{IsCoreFor, LiesInChosen, SatisfiesComponents};

use crate::growth::Growing;
use cq_terms::{Conflicts, Ids, NoMemory};
use priority_graph::{Better, core_lies_in_chosen};
use std::alloc::Global;

/// A core: facts that some chosen repair has, and facts that this repair doesn't have.
#[derive(Debug, Drop)]
pub struct Core {
    /// The facts that are kept, ascending.
    pub kept: Ids,
    /// The facts that are dropped, ascending.
    pub dropped: Ids,
}

/// A core that keeps present facts, `start` among them, and drops `drop` and what conflicts with a kept fact. The present facts
/// are those of a model of the base clauses. The core is small: beside `start` it keeps a fact only where a dropped one
/// needs it, one that isn't self-inconsistent and that no kept fact blocked (Bienvenu and Bourgaux 2022). The cost grows with the
/// conflicts of the kept facts, of `drop`, and of the dropped facts that are better than a kept one; no list has the size of the table.
pub fn core_of(
    alloc: Global,
    present: &[u32],
    start: &[u32],
    drop: &[u32],
    conflicts: &Conflicts,
    better: &Better,
) -> Result<Core, NoMemory>
    requires over { IsOver better.now conflicts.now }
    requires ascending { IsAscending present.now }
    requires known { All (λ i. i < conflicts.now.facts) (start.now ++ drop.now) }
    requires inside { All (Contains present.now) start.now }
    requires outside { All (λ i. ¬ Contains present.now i) drop.now }
    requires satisfied { SatisfiesComponents
        better.now conflicts.now present.now (start.now ++ drop.now) }

    ensures ascending { IfOk result (λ core. IsAscending core.kept × IsAscending core.dropped) }
    ensures exact { IfOk result
        (λ core. IsCoreFor better.now present.now start.now drop.now core.kept core.dropped) }

    // What the core is for.
    ensures chosen { IfOk result (λ core. LiesInChosen better.now core.kept core.dropped) }
{
    let grown = grown(alloc, present, start, drop, conflicts, better)?;
    let kept = grown.kept.sorted(alloc)?;
    let dropped = grown.dropped.sorted(alloc)?;
    let _order = better.linear();
    core_lies_in_chosen();
    Ok(Core { kept, dropped })
}

/// The kept and dropped facts of the core, in the order in which they were found.
fn grown(
    alloc: Global,
    present: &[u32],
    start: &[u32],
    drop: &[u32],
    conflicts: &Conflicts,
    better: &Better,
) -> Result<Growing, NoMemory>
    requires over { IsOver better.now conflicts.now }
    requires ascending { IsAscending present.now }
    requires known { All (λ i. i < conflicts.now.facts) (start.now ++ drop.now) }
    requires inside { All (Contains present.now) start.now }
    requires outside { All (λ i. ¬ Contains present.now i) drop.now }
    requires satisfied { SatisfiesComponents
        better.now conflicts.now present.now (start.now ++ drop.now) }

    ensures exact { IfOk result
        (λ core. IsCoreFor better.now present.now start.now drop.now core.kept core.dropped) }
{
    let _order = better.linear();
    let mut core = Growing::from_start(alloc, start)?;
    core.drop_each(conflicts, better, present, drop)?;
    let mut next = 0;
    while next < core.count() {
        core.drop_rivals(conflicts, better, present, core.kept_at(next))?;
        next += 1;
    }
    Ok(core)
}
