//! The facts of which a learned clause may speak.

ghost use Rattle.std.specs.Prelude.{◌≡◌, ◌↔◌, ◌<◌, ◌*◌, ◌+◌, ◌∷◌, [], ℕ, All, IsTrue, IfOk, OnOk, length, slice_index};
ghost use Rattle.cq_meaning.specs.ConflictGraphs.{AreConflictsOf};
ghost use Rattle.cq_terms.specs.Knowledge.{Knowledge};
ghost use Rattle.report_rules.specs.ConflictLists.{AreConflictFacts};
ghost use Rattle.report_laws.specs.ComponentLaws as components;
ghost use Rattle.plain_finding.specs.Walks.{AreSeen, Visits};

use clause_meaning::variable_of;
use cq_terms::{Conflicts, Ids, NoMemory, has_sorted};
use std::alloc::Global;
use std::marker::Model;

/// Facts, ascending.
#[derive(Drop)]
pub struct Learnable {
    facts: Ids,
}

impl Model for Learnable {
    ghost use Rattle.std.specs.Prelude.{List, ℕ};
    ghost use Rattle.cq_terms.specs.Lists.{IsAscending};

    ghost Value = { List ℕ };

    ghost view = { λ a. a.facts };

    ghost invariant = { λ a. IsAscending a.facts };
}

impl Learnable {
    /// Whether a learned clause may have the literal: it speaks of one of the facts, or says that the selector is absent.
    fn has(&self, selector: u64, literal: u32) -> bool
        ensures exact { result ≡ components.may_learn selector self.now literal }
    {
        has_sorted(self.facts.as_slice(), variable_of(literal)) || is_absent_of(literal, selector)
    }

    /// Whether a learned clause may have each of the literals.
    pub fn has_all(&self, selector: u64, clause: &[u32]) -> bool
        ensures exact { IsTrue result ↔ All (λ l. IsTrue (components.may_learn selector self.now l)) clause.now }
    {
        for literal in clause {
            if !self.has(selector, *literal) {
                return false;
            }
        }
        true
    }
}

/// The facts in conflicts of the components of the causes. The cost grows with the conflicts of these facts, with sorting them, and with one
/// mark for each fact of the table.
pub fn learnable_facts(
    alloc: Global,
    conflicts: &Conflicts,
    causes: &[Ids],
) -> Result<Learnable, NoMemory>
    ensures exact { IfOk result (λ facts. (kb : Knowledge) → AreConflictsOf kb conflicts.now
        → AreConflictFacts kb causes.now facts) }
{
    let mut walk = Walk::new(alloc, conflicts)?;
    for cause in causes {
        walk.visit(conflicts, cause.as_slice())?;
    }
    let mut next = 0;
    while next < walk.len() {
        walk.visit(conflicts, conflicts.of(walk.at(next)))?;
        next += 1;
    }
    let facts = Ids::sorted(alloc, walk.reached.as_slice())?;
    Ok(Learnable { facts })
}

/// A walk over facts in conflicts, each of which is marked once it is reached.
#[derive(Drop)]
struct Walk {
    seen: Vec<bool>,
    reached: Vec<u32>,
}

impl Walk {
    /// A walk that has reached no fact.
    fn new(alloc: Global, conflicts: &Conflicts) -> Result<Walk, NoMemory>
        ensures none { IfOk result (λ walk. walk.reached.items ≡ []) }
        ensures kept { IfOk result (λ walk. AreSeen walk.seen.items walk.reached.items) }
        ensures marks { IfOk result (λ walk. length walk.seen.items ≡ conflicts.now.facts) }
    {
        let seen = vec![in alloc; false; conflicts.facts() as usize]?;
        Ok(Walk {
            seen,
            reached: Vec::new(alloc),
        })
    }

    /// How many facts are reached.
    fn len(&self) -> usize
        ensures { result ≡ length self.now.reached.items }
    {
        self.reached.len()
    }

    /// The fact that was reached at the place.
    fn at(&self, place: usize) -> u32
        requires inside { place < length self.now.reached.items }

        ensures { result ≡ slice_index self.now.reached.items place }
    {
        self.reached[place]
    }

    /// Reaches each of the facts that is in a conflict and wasn't reached before.
    fn visit(&mut self, conflicts: &Conflicts, facts: &[u32]) -> Result<(), NoMemory>
        requires kept { AreSeen self.old.seen.items self.old.reached.items }
        requires marks { length self.old.seen.items ≡ conflicts.now.facts }

        ensures kept { OnOk result (AreSeen self.new.seen.items self.new.reached.items) }
        ensures marks { OnOk result (length self.new.seen.items ≡ conflicts.now.facts) }
        ensures exact { OnOk result (Visits conflicts.now.clashes conflicts.now.facts
            self.old.reached.items self.new.reached.items facts.now) }
    {
        for fact in facts {
            self.see(conflicts, *fact)?;
        }
        Ok(())
    }

    /// Reaches the fact unless it is in no conflict or was reached before.
    fn see(&mut self, conflicts: &Conflicts, fact: u32) -> Result<(), NoMemory>
        requires kept { AreSeen self.old.seen.items self.old.reached.items }
        requires marks { length self.old.seen.items ≡ conflicts.now.facts }

        ensures kept { OnOk result (AreSeen self.new.seen.items self.new.reached.items) }
        ensures marks { OnOk result (length self.new.seen.items ≡ conflicts.now.facts) }
        ensures exact { OnOk result (Visits conflicts.now.clashes conflicts.now.facts
            self.old.reached.items self.new.reached.items (fact ∷ [])) }
    {
        if fact >= conflicts.facts() {
            return Ok(());
        }
        if conflicts.of(fact).is_empty() {
            return Ok(());
        }
        if self.seen[fact as usize] {
            return Ok(());
        }
        self.seen[fact as usize] = true;
        self.reached.push(fact)?;
        Ok(())
    }
}

/// Whether the literal says that the variable is absent.
fn is_absent_of(literal: u32, variable: u64) -> bool
    ensures exact { IsTrue result ↔ (literal ≡ 2 * variable + 1) }
{
    literal % 2 == 1 && u64::from(literal / 2) == variable
}
