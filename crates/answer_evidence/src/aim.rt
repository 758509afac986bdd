//! What a try looks for: a chosen repair that shows the answer of its question.

ghost use Rattle.std.specs.Prelude.{◌≡◌, ◌<◌, ◌^◌, All, IfOk};
ghost use Rattle.answer_evidence.specs.Aims.{assumed_for, asked_for, IsFewFor};

use crate::copies::present_literals;
use cq_terms::{IdLists, Ids, NoMemory};
use report_text::Question;
use std::alloc::Global;

/// The chosen repair that a try looks for.
#[derive(Clone, Copy)]
pub enum Aim<'c> {
    /// One with all facts of a cause, which shows that brave is yes.
    WithCause(&'c [u32]),
    /// One without a fact of a cause, by which the fact is not in all of them.
    WithoutFact(u32),
    /// One without a fact of each cause, which shows that AR is no.
    WithoutCauses(&'c IdLists),
}

impl Aim<'_> {
    /// The question of the try.
    pub fn question(&self) -> Question
        ensures { result ≡ asked_for self.now }
    {
        match self {
            Aim::WithCause(_) => Question::Brave,
            Aim::WithoutFact(_) => Question::Iar,
            Aim::WithoutCauses(_) => Question::Ar,
        }
    }

    /// What the try assumes, by the variable of the candidate.
    pub fn assumed(&self, alloc: Global, selector: u32) -> Result<Ids, NoMemory>
        requires few { IsFewFor self.now }
        requires selector { selector < 2 ^ 31 }

        ensures exact { IfOk result (λ literals. literals ≡ assumed_for self.now selector) }
    {
        match self {
            Aim::WithCause(cause) => present_literals(alloc, cause),
            Aim::WithoutFact(fact) => Ids::from_slice(alloc, &[2 * *fact + 1]),
            Aim::WithoutCauses(_) => Ids::from_slice(alloc, &[2 * selector]),
        }
    }
}
