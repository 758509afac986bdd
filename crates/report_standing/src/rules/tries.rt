//! The rule of a `try` line.

ghost use Rattle.std.specs.Prelude.{◌≡◌, ◌∷◌, [], map, not};
ghost use Rattle.std.specs.List.{list_any, list_all};
ghost use Rattle.std.specs.Str.{bytes_eq};
ghost use Rattle.repair_clauses.specs.BaseClauses.{absent, present};
ghost use Rattle.report_laws.specs.AtStanding as at_standing;
ghost use Rattle.report_laws.specs.AtStanding.{evidence_at};

use crate::standing::Standing;
use cq_terms::{Ids, Kb};
use report_parts::{EndedTry, are_present, is_absent_alone, is_present_alone};
use report_text::Question;

/// Whether each of the ended tries doesn't come behind the question's turn.
fn are_in_turn(ended: &[EndedTry], question: Question) -> bool
    ensures exact { result ≡ list_all (at_standing.is_in_turn question) ended.now }
{
    ended.iter().all(|tried| tried.is_in_turn(question))
}

/// Whether one of the ended tries asked the question under the assumptions.
fn has_such_try(ended: &[EndedTry], question: Question, assume: &[u32]) -> bool
    ensures exact { result ≡ list_any (at_standing.is_such_try question assume.now) ended.now }
{
    ended
        .iter()
        .any(|tried| tried.is_such_try(question, assume))
}

/// Whether the literals say that a whole cause is present.
fn is_one_cause(causes: &[Ids], assume: &[u32]) -> bool
    ensures exact { result ≡ list_any (λ cause. bytes_eq assume.now (map present cause)) causes.now }
{
    causes
        .iter()
        .any(|cause| are_present(assume, cause.as_slice()))
}

/// Whether the one literal says that a fact of the cause is absent.
fn is_one_absence(cause: &[u32], assume: &[u32]) -> bool
    ensures exact { result ≡ list_any (λ i. bytes_eq assume.now (absent i ∷ [])) cause.now }
{
    cause.iter().any(|fact| is_absent_alone(assume, *fact))
}

/// Whether the one literal says that a fact of a cause is absent.
fn is_absence_of_one(causes: &[Ids], assume: &[u32]) -> bool
    ensures exact { result ≡ list_any (λ cause. list_any (λ i. bytes_eq assume.now (absent i ∷ [])) cause) causes.now }
{
    causes
        .iter()
        .any(|cause| is_one_absence(cause.as_slice(), assume))
}

impl Standing {
    /// Whether the question may be tried under the assumptions.
    fn may_assume(&self, kb: &Kb, question: Question, assume: &[u32]) -> bool
        ensures exact { result ≡ at_standing.may_assume (evidence_at kb.now self.now []) question assume.now }
    {
        match question {
            Question::Brave => is_one_cause(self.asked.causes.as_slice(), assume),
            Question::Iar => is_absence_of_one(self.asked.causes.as_slice(), assume),
            Question::Ar => is_present_alone(assume, self.selector(kb)),
        }
    }

    /// Whether the question is open and in its turn, and the assumptions are new and may be made.
    pub fn is_right_try(&self, kb: &Kb, question: Question, assume: &[u32]) -> bool
        ensures exact { result ≡ at_standing.is_right_try (evidence_at kb.now self.now []) question assume.now }
    {
        !self.is_settled(kb, &[], question)
            && are_in_turn(&self.ended, question)
            && !has_such_try(&self.ended, question, assume)
            && self.may_assume(kb, question, assume)
    }
}
