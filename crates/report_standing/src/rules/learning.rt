//! The rule of a `learn` line.

ghost use Rattle.std.specs.Prelude.{◌≡◌, ◌↔◌, ◌<◌, ◌+◌, ℕ, List, Contains, IsTrue, IfOk, length, map};
ghost use Rattle.clause_meaning.specs.Literals.{AreBelow, opposite_of};
ghost use Rattle.clause_meaning.specs.Refutation.{Refutes};
ghost use Rattle.report_rules.specs.ConflictLists.{AreConflictFacts};
ghost use Rattle.report_laws.specs.AtStanding.{LearnAt};
ghost use Rattle.report_laws.specs.Standing.{learned_in};
ghost use Rattle.plain_finding.specs.Kept.{HasLive};
ghost use Rattle.report_standing.specs.RuleParts.{MayHave};

use crate::standing::Standing;
use clause_meaning::opposite;
use cq_terms::{Ids, Kb, NoMemory};
use plain_finding::{Clauses, Learnable};
use report_parts::ascend_by_variable;
use report_text::Question;
use std::alloc::Global;

/// The opposites of the literals.
fn opposites(alloc: Global, clause: &[u32]) -> Result<Ids, NoMemory>
    ensures exact { IfOk result (λ literals. literals ≡ map opposite_of clause.now) }
{
    let mut literals = Ids::new(alloc);
    for literal in clause {
        literals.push(opposite(*literal))?;
    }
    Ok(literals)
}

/// Whether the clause follows from the live ones: they refute the opposites of its literals.
fn follows(alloc: Global, clauses: &mut Clauses, clause: &[u32]) -> Result<bool, NoMemory>
    requires in_range { AreBelow clauses.old.variables clause.now }

    ensures exact { IfOk result (λ right. (live : List (List ℕ)) → HasLive clauses.old live
        → (IsTrue right ↔ Refutes (Contains live) (Contains (map opposite_of clause.now)))) }
    ensures unchanged { clauses.new ≡ clauses.old }
{
    let against = opposites(alloc, clause)?;
    Ok(clauses.refutes(against.as_slice()))
}

impl Standing {
    /// How many clauses were learned in the question.
    pub fn learned_in(&self, question: Question) -> u64
        ensures exact { result ≡ learned_in self.now question }
    {
        match question {
            Question::Brave => self.in_brave,
            Question::Iar => self.in_iar,
            Question::Ar => self.in_ar,
        }
    }

    /// Whether the clause has the next number, is within the budget, and speaks of what it may, each variable once.
    fn may_have(&self, kb: &Kb, learnable: &Learnable, number: u64, clause: &[u32]) -> bool
        ensures exact { IsTrue result ↔ MayHave kb.now learnable.now self.now number clause.now }
    {
        if number != self.learn_lines {
            return false;
        }
        if self.learned_in(self.question) >= self.budget {
            return false;
        }
        if clause.is_empty() {
            return false;
        }
        ascend_by_variable(clause) && learnable.has_all(self.selector(kb), clause)
    }

    /// Whether the clause is new and follows from the live ones, while the budget lasts and the assumptions stand. `learnable` are
    /// the facts in conflicts of the candidate's components.
    pub fn is_right_clause(
        &self,
        alloc: Global,
        kb: &Kb,
        clauses: &mut Clauses,
        learnable: &Learnable,
        number: u64,
        clause: &[u32],
    ) -> Result<bool, NoMemory>
        requires assumed { AreBelow clauses.old.variables self.now.assumed }
        requires within { length kb.now.facts + self.now.asked.candidate < clauses.old.variables }

        ensures exact { IfOk result (λ right. (live : List (List ℕ)) → HasLive clauses.old live
            → AreConflictFacts kb.now self.now.asked.causes learnable.now
            → (IsTrue right ↔ LearnAt kb.now live self.now number clause.now)) }
        ensures unchanged { clauses.new ≡ clauses.old }
    {
        if !self.may_have(kb, learnable, number, clause) {
            return Ok(false);
        }
        if !clauses.speaks_of(clause) {
            return Ok(false);
        }
        if clauses.is_superset_of_live(clause) {
            return Ok(false);
        }
        if !follows(alloc, clauses, clause)? {
            return Ok(false);
        }
        Ok(!clauses.refutes(self.assumed.as_slice()))
    }
}
