//! The core of given facts with all that conflict with them, where it is one.

ghost use Rattle.std.specs.Prelude.{◌≡◌, ◌<◌, ◌↔◌, ◌⊎◌, ℕ, None, length, All, Contains, IsTrue, IfOk, IfSome};
ghost use Rattle.cq_terms.specs.Lists.{IsAscending};
ghost use Rattle.priority_graph.specs.Priority.{IsBetter, Conflict};
ghost use Rattle.priority_graph.specs.Cores.{ConflictsWith, IsBlocked, IsCore, IsDirect, IsFree};

use crate::Better;
use cq_terms::{Ids, NoMemory, has_sorted};

impl Better {
    /// Answers the facts that conflict with a fact of `kept`, ascending, where these dropped and `kept` kept are a core,
    /// and `None` exactly where they aren't. The cost grows with the conflicts of the kept facts alone.
    pub fn direct(&self, kept: &[u32]) -> Result<Option<Ids>, NoMemory>
        requires ascending { IsAscending kept.now }
        requires known { All (λ i. i < self.now.facts) kept.now }
        requires free { IsFree self.now (Contains kept.now) }

        ensures found { IfOk result (λ answer. IfSome answer (IsDirect self.now kept.now)) }
        ensures none { IfOk result
            (λ answer. answer ≡ None → ¬ IsCore self.now (Contains kept.now) (ConflictsWith self.now kept.now)) }
    {
        let _ = &self.facts;
        let dropped = self.ascending_rivals(kept)?;
        if self.are_blocked(dropped.as_slice(), kept) {
            Ok(Some(dropped))
        } else {
            Ok(None)
        }
    }

    /// Answers the facts that conflict with a kept one, ascending.
    fn ascending_rivals(&self, kept: &[u32]) -> Result<Ids, NoMemory>
        requires known { All (λ i. i < self.now.facts) kept.now }

        ensures ascending { IfOk result IsAscending }
        ensures exact { IfOk result (λ rivals. (j : ℕ) → Contains rivals j ↔ ConflictsWith self.now kept.now j) }
        ensures known { IfOk result (All (λ j. j < self.now.facts)) }
    {
        let rivals = self.rivals(kept)?;
        Ids::sorted(*self.order.allocator(), rivals.as_slice())
    }

    /// Answers the facts that conflict with a kept one, some more than once.
    fn rivals(&self, kept: &[u32]) -> Result<Vec<u32>, NoMemory>
        requires known { All (λ i. i < self.now.facts) kept.now }

        ensures exact { IfOk result
            (λ rivals. (j : ℕ) → Contains rivals.items j ↔ ConflictsWith self.now kept.now j) }
        ensures known { IfOk result (λ rivals. All (λ j. j < self.now.facts) rivals.items) }
    {
        let mut rivals = Vec::new(*self.order.allocator());
        for fact in kept {
            rivals.extend_from_slice(self.worse(*fact))?;
            rivals.extend_from_slice(self.blockers(*fact))?;
        }
        Ok(rivals)
    }

    /// Whether each of the facts conflicts with a kept one to which it isn't better.
    fn are_blocked(&self, facts: &[u32], kept: &[u32]) -> bool
        requires known { All (λ i. i < self.now.facts) facts.now }

        ensures exact { IsTrue result ↔ All (IsBlocked self.now (Contains kept.now)) facts.now }
    {
        for fact in facts {
            if !self.is_blocked(*fact, kept) {
                return false;
            }
        }
        true
    }

    /// Whether the fact conflicts with a kept one to which it isn't better.
    fn is_blocked(&self, fact: u32, kept: &[u32]) -> bool
        requires known { fact < self.now.facts }

        ensures exact { IsTrue result ↔ IsBlocked self.now (Contains kept.now) fact }
    {
        let blockers = self.blockers(fact);
        for other in kept {
            if has_sorted(blockers, *other) {
                return true;
            }
        }
        false
    }
}
