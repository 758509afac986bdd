//! The component of a fact: all that chains of conflicts reach from it.

ghost use Rattle.std.specs.Prelude.{◌≡◌, ◌≢◌, ◌<◌, ◌∷◌, [], length, All, AllPairs, Contains, IfOk, OnOk, false, replicate, slice_index};
ghost use Rattle.cq_terms.specs.Conflicts.{AreInConflict};
ghost use Rattle.repair_clauses.specs.Components.{IsClosedUnder, IsComponent};
ghost use Rattle.repair_encoder.specs.Walks.{AreSeen, Visits};

use cq_terms::{Conflicts, Ids, NoMemory};
use std::alloc::Global;

/// The facts that a chain of conflicts reaches from the fact, ascending, itself among them. The cost grows with the conflicts of
/// these facts, with sorting them, and with one mark for each fact of the table.
pub fn component(alloc: Global, conflicts: &Conflicts, fact: u32) -> Result<Ids, NoMemory>
    requires known { fact < conflicts.now.facts }

    ensures exact { IfOk result (IsComponent conflicts.now fact) }
    ensures closed { IfOk result (λ facts. IsClosedUnder (AreInConflict conflicts.now.clashes) (Contains facts)) }
    ensures known { IfOk result (All (λ f. f < conflicts.now.facts)) }
{
    let mut walk = Walk {
        seen: unmarked(alloc, conflicts.facts())?,
        reached: Vec::new(alloc),
    };
    walk.see(fact)?;
    let mut next = 0;
    while next < walk.len() {
        walk.visit(conflicts.of(walk.at(next)))?;
        next += 1;
    }
    let reached = walk.reached;
    Ids::sorted(alloc, reached.as_slice())
}

/// A walk over facts, each of which is marked once it is reached.
#[derive(Drop)]
struct Walk {
    seen: Vec<bool>,
    reached: Vec<u32>,
}

impl Walk {
    /// How many facts are reached.
    fn len(&self) -> usize
        ensures { result ≡ length self.now.reached.items }
    {
        self.reached.len()
    }

    /// The fact that was reached at the place.
    fn at(&self, place: usize) -> u32
        requires inside { place < length self.now.reached.items }

        ensures { result ≡ slice_index self.now.reached.items place }
    {
        self.reached[place]
    }

    /// Appends each of the facts that wasn't reached before.
    fn visit(&mut self, facts: &[u32]) -> Result<(), NoMemory>
        requires kept { AreSeen self.old.seen.items self.old.reached.items }
        requires known { All (λ i. i < length self.old.seen.items) facts.now }

        ensures kept { OnOk result (AreSeen self.new.seen.items self.new.reached.items) }
        ensures marks { OnOk result (length self.new.seen.items ≡ length self.old.seen.items) }
        ensures exact { OnOk result (Visits self.old.reached.items self.new.reached.items facts.now) }
    {
        for fact in facts {
            self.see(*fact)?;
        }
        Ok(())
    }

    /// Appends the fact unless it was reached before.
    fn see(&mut self, fact: u32) -> Result<(), NoMemory>
        requires kept { AreSeen self.old.seen.items self.old.reached.items }
        requires known { fact < length self.old.seen.items }

        ensures kept { OnOk result (AreSeen self.new.seen.items self.new.reached.items) }
        ensures marks { OnOk result (length self.new.seen.items ≡ length self.old.seen.items) }
        ensures exact { OnOk result (Visits self.old.reached.items self.new.reached.items (fact ∷ [])) }
    {
        if self.seen[fact as usize] {
            return Ok(());
        }
        self.seen[fact as usize] = true;
        self.reached.push(fact)?;
        Ok(())
    }
}

/// As many marks as there are facts, none of them set.
fn unmarked(alloc: Global, facts: u32) -> Result<Vec<bool>, NoMemory>
    ensures exact { IfOk result (λ marks. marks.items ≡ replicate facts false) }
{
    let marks = vec![in alloc; false; facts as usize]?;
    Ok(marks)
}
