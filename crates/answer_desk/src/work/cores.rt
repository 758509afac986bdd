//! Cores that show what a try looks for: direct ones, and those within a model.

ghost use Rattle.std.specs.Prelude.{◌≡◌, ◌<◌, ◌-◌, ◌++◌, ◌∷◌, [], List, ℕ, None, Some, length, take, filter, All, Contains, IfOk, IfSome};
ghost use Rattle.clause_meaning.specs.Refutation.{IsWithin};
ghost use Rattle.cdcl_core.specs.State.{value_in};
ghost use Rattle.cq_terms.specs.Conflicts.{AreInConflict};
ghost use Rattle.cq_terms.specs.Lists.{IsAscending};
ghost use Rattle.explainer.specs.Wanted.{SatisfiesComponents};
ghost use Rattle.priority_graph.specs.Cores.{ConflictsWith, IsCore, IsDirect, IsFree};
ghost use Rattle.priority_graph.specs.Priority.{IsOver};
ghost use Rattle.answer_evidence.specs.Aims.{IsCoreOver, IsHard, IsKnown, IsOver as IsAimOver, Shows, assumed_for};
ghost use Rattle.answer_desk.specs.Models.{HasModel};
ghost use Rattle.answer_evidence.specs.Sets.{EachMeets};
ghost use Rattle.explainer.specs.Missing.{AreMissing, SomeIsPresent};
ghost use Rattle.answer_desk.specs.Openings.{DropsDirectly, IsOpen};

use crate::work::Work;
use answer_evidence::{Aim, Opening};
use cq_terms::{IdLists, Ids, NoMemory};
use explainer::{Core, core_of, missing};

impl Work<'_> {
    /// A direct core that shows what is looked for: that of the cause, or that of a fact that conflicts with the fact.
    pub(super) fn direct_core(&self, aim: &Aim<'_>) -> Result<Option<Core>, NoMemory>
        requires over { IsOver self.now.better.now self.now.conflicts.now }
        requires known { IsKnown self.now.better.now aim.now }

        ensures found { IfOk result (λ answer. IfSome answer (λ core.
            IsCoreOver self.now.better.now core.kept core.dropped × Shows aim.now core.kept core.dropped)) }
        ensures none { IfOk result (λ answer. answer ≡ None → IsHard self.now.better.now self.now.conflicts.now aim.now) }
    {
        let _order = self.better.linear();
        match aim {
            Aim::WithCause(cause) => self.direct_of(cause),
            Aim::WithoutFact(fact) => self.direct_against(*fact),
            Aim::WithoutCauses(_) => Ok(None),
        }
    }

    /// The direct core of the least fact that conflicts with the fact and has one.
    fn direct_against(&self, fact: u32) -> Result<Option<Core>, NoMemory>
        requires over { IsOver self.now.better.now self.now.conflicts.now }
        requires known { fact < self.now.conflicts.now.facts }

        ensures found { IfOk result (λ answer. IfSome answer (DropsDirectly self.now.better.now self.now.conflicts.now fact)) }
        ensures none { IfOk result (λ answer. answer ≡ None → (j : ℕ) → AreInConflict self.now.conflicts.now.clashes fact j
            → ¬ IsCore self.now.better.now (Contains (j ∷ [])) (ConflictsWith self.now.better.now (j ∷ []))) }
    {
        let _order = self.better.linear();
        for rival in self.conflicts.of(fact) {
            if let Some(core) = self.direct_of(&[*rival])? {
                return Ok(Some(core));
            }
        }
        Ok(None)
    }

    /// The direct core of the facts, where they have one.
    fn direct_of(&self, facts: &[u32]) -> Result<Option<Core>, NoMemory>
        requires ascending { IsAscending facts.now }
        requires known { All (λ i. i < self.now.better.now.facts) facts.now }
        requires free { IsFree self.now.better.now (Contains facts.now) }

        ensures found { IfOk result (λ answer. IfSome answer (λ core.
            (core.kept ≡ facts.now) × IsDirect self.now.better.now core.kept core.dropped)) }
        ensures none { IfOk result (λ answer. answer ≡ None
            → ¬ IsCore self.now.better.now (Contains facts.now) (ConflictsWith self.now.better.now facts.now)) }
    {
        let Some(dropped) = self.better.direct(facts)? else {
            return Ok(None);
        };
        let kept = Ids::from_slice(self.alloc, facts)?;
        Ok(Some(Core { kept, dropped }))
    }

    /// A core within the model that was found, which shows what was looked for.
    pub(super) fn core_of_model(
        &self,
        opening: &Opening,
        causes: &[Ids],
        aim: &Aim<'_>,
    ) -> Result<Core, NoMemory>
        requires open { IsOpen self.now.conflicts.now self.now.better.now self.now.solver opening.now causes.now }
        requires over { IsAimOver causes.now aim.now }
        requires model { HasModel self.now.solver opening.now.scope.items (assumed_for aim.now opening.now.selector) }

        ensures exact { IfOk result (λ core. IsCoreOver self.now.better.now core.kept core.dropped × Shows aim.now core.kept core.dropped) }
    {
        let _order = self.better.linear();
        let present = self.present(opening)?;
        let present = present.as_slice();
        match aim {
            Aim::WithCause(cause) => self.core_within(present, cause, &[]),
            Aim::WithoutFact(fact) => self.core_within(present, &[], &[*fact]),
            Aim::WithoutCauses(all) => self.core_without(present, all),
        }
    }

    /// A core within the present facts, which drops a fact of every cause.
    fn core_without(&self, present: &[u32], causes: &IdLists) -> Result<Core, NoMemory>
        requires over { IsOver self.now.better.now self.now.conflicts.now }
        requires ascending { IsAscending present.now }
        requires present_known { All (λ i. i < self.now.better.now.facts) present.now }
        requires known { All (λ cause. All (λ i. i < self.now.conflicts.now.facts) cause) causes.now }
        requires none_whole { ¬ SomeIsPresent causes.now present.now }
        requires satisfied { (facts : List ℕ) → AreMissing causes.now present.now facts
            → SatisfiesComponents self.now.better.now self.now.conflicts.now present.now facts }

        ensures exact { IfOk result (λ core. IsCoreOver self.now.better.now core.kept core.dropped × EachMeets causes.now core.dropped) }
    {
        let Some(drop) = missing(self.alloc, causes, present)? else {
            unreachable!()
        };
        self.core_within(present, &[], drop.as_slice())
    }

    /// A core within the present facts, which keeps and drops the given ones.
    fn core_within(&self, present: &[u32], start: &[u32], drop: &[u32]) -> Result<Core, NoMemory>
        requires over { IsOver self.now.better.now self.now.conflicts.now }
        requires ascending { IsAscending present.now }
        requires present_known { All (λ i. i < self.now.better.now.facts) present.now }
        requires known { All (λ i. i < self.now.conflicts.now.facts) (start.now ++ drop.now) }
        requires inside { All (Contains present.now) start.now }
        requires outside { All (λ i. ¬ Contains present.now i) drop.now }
        requires satisfied { SatisfiesComponents self.now.better.now self.now.conflicts.now present.now (start.now ++ drop.now) }

        ensures exact { IfOk result (λ core. IsCoreOver self.now.better.now core.kept core.dropped
            × IsWithin start.now core.kept × IsWithin drop.now core.dropped) }
    {
        core_of(
            self.alloc,
            present,
            start,
            drop,
            self.conflicts,
            self.better,
        )
    }

    /// The facts of the scope that are present in the model that was found.
    fn present(&self, opening: &Opening) -> Result<Vec<u32>, NoMemory>
        requires some { 0 < length opening.now.scope.items }

        ensures exact { IfOk result (λ present. (values : List ℕ) → self.now.solver.values ≡ Some values
            → present.items ≡ filter (value_in values) (take (length opening.now.scope.items - 1) opening.now.scope.items)) }
    {
        let mut present = Vec::new(self.alloc);
        for fact in opening.facts() {
            if self.solver.value(*fact) {
                present.push(*fact)?;
            }
        }
        Ok(present)
    }
}
