//! Whether a question is settled by the tries that have ended and by the cores of the answer.

ghost use Rattle.std.specs.Prelude.{◌≡◌, ◌+◌, ◌∷◌, ◌++◌, ◌||◌, ◌&&◌, [], ℕ, length, map};
ghost use Rattle.std.specs.List.{list_any, list_all};
ghost use Rattle.repair_clauses.specs.BaseClauses.{absent, present};
ghost use Rattle.report_text.specs.declared.line.Question.TheVariants as questions;
ghost use Rattle.report_text.specs.declared.line.How.TheVariants as hows;
ghost use Rattle.report_laws.specs.Settling as settling;
ghost use Rattle.report_laws.specs.Settling.{cores_at};
ghost use Rattle.report_laws.specs.AtStanding.{evidence_at};

use crate::standing::Standing;
use cq_terms::Kb;
use report_parts::{
    answer_drops, answer_drops_of_each, answer_keeps_one, has_ended, is_brave_spent,
    is_each_refuted, is_one_absence_spent, is_one_shared, is_selector_ended,
};
use report_text::{How, Question, Verdict};

impl Standing {
    /// The variable of the candidate that was asked last.
    pub fn selector(&self, kb: &Kb) -> u64
        ensures exact { result ≡ length kb.now.facts + self.now.asked.candidate }
    {
        kb.facts().len() as u64 + u64::from(self.asked.candidate)
    }

    /// Whether a core of the answer keeps a whole cause.
    fn has_kept_cause(&self, numbers: &[u64]) -> bool
        ensures exact { result ≡ list_any (λ core. list_any (settling.keeps core) self.now.asked.causes)
            (cores_at self.now.cores (self.now.named ++ numbers.now)) }
    {
        let causes = self.asked.causes.as_slice();
        answer_keeps_one(&self.cores, &self.named, numbers, causes)
    }

    /// Whether a core of the answer drops a fact of each cause.
    fn has_dropped_all(&self, numbers: &[u64]) -> bool
        ensures exact { result ≡ list_any (λ core. list_all (settling.drops core) self.now.asked.causes)
            (cores_at self.now.cores (self.now.named ++ numbers.now)) }
    {
        let causes = self.asked.causes.as_slice();
        answer_drops_of_each(&self.cores, &self.named, numbers, causes)
    }

    /// Whether a core of the answer drops a fact of the cause.
    fn has_dropped_of(&self, numbers: &[u64], cause: &[u32]) -> bool
        ensures exact { result
            ≡ list_any (λ core. settling.drops core cause.now) (cores_at self.now.cores (self.now.named ++ numbers.now)) }
    {
        answer_drops(&self.cores, &self.named, numbers, cause)
    }

    /// Whether for each cause a core of the answer drops a fact of it.
    fn has_dropped_each(&self, numbers: &[u64]) -> bool
        ensures exact { result ≡ list_all
            (λ cause. list_any (λ core. settling.drops core cause) (cores_at self.now.cores (self.now.named ++ numbers.now)))
            self.now.asked.causes }
    {
        self.asked
            .causes
            .as_slice()
            .iter()
            .all(|cause| self.has_dropped_of(numbers, cause.as_slice()))
    }

    /// Whether a core of the answer drops a fact of the cause, or a try ended spent that assumed one of its facts to be absent.
    fn is_absent_or_spent(&self, numbers: &[u64], cause: &[u32]) -> bool
        ensures exact { result
            ≡ (list_any (λ core. settling.drops core cause.now) (cores_at self.now.cores (self.now.named ++ numbers.now))
            || list_any (λ i. settling.is_ended self.now.ended questions.Iar (absent i ∷ []) hows.Spent) cause.now) }
    {
        self.has_dropped_of(numbers, cause) || is_one_absence_spent(&self.ended, cause)
    }

    /// Whether so it is for each cause.
    fn is_each_absent_or_spent(&self, numbers: &[u64]) -> bool
        ensures exact { result ≡ list_all
            (λ cause. list_any (λ core. settling.drops core cause) (cores_at self.now.cores (self.now.named ++ numbers.now))
            || list_any (λ i. settling.is_ended self.now.ended questions.Iar (absent i ∷ []) hows.Spent) cause)
            self.now.asked.causes }
    {
        self.asked
            .causes
            .as_slice()
            .iter()
            .all(|cause| self.is_absent_or_spent(numbers, cause.as_slice()))
    }

    /// Whether the evidence shows by itself that an answer is brave, or none.
    fn is_brave_shown(&self, kb: &Kb, numbers: &[u64], said: Verdict) -> bool
        ensures exact { result ≡ settling.is_shown (evidence_at kb.now self.now numbers.now) questions.Brave said }
    {
        match said {
            Verdict::Yes => self.has_kept_cause(numbers),
            Verdict::No => is_each_refuted(&self.ended, self.asked.causes.as_slice()),
            Verdict::Undecided => false,
        }
    }

    /// Whether the evidence shows by itself that each chosen repair entails the tuple, or some doesn't.
    fn is_ar_shown(&self, kb: &Kb, numbers: &[u64], said: Verdict) -> bool
        ensures exact { result ≡ settling.is_shown (evidence_at kb.now self.now numbers.now) questions.Ar said }
    {
        match said {
            Verdict::Yes => is_selector_ended(&self.ended, self.selector(kb), How::Refuted),
            Verdict::No => self.has_dropped_all(numbers),
            Verdict::Undecided => false,
        }
    }

    /// Whether the evidence shows by itself that the facts of all chosen repairs entail the tuple, or don't.
    fn is_iar_shown(&self, kb: &Kb, numbers: &[u64], said: Verdict) -> bool
        ensures exact { result ≡ settling.is_shown (evidence_at kb.now self.now numbers.now) questions.Iar said }
    {
        match said {
            Verdict::Yes => is_one_shared(&self.ended, self.asked.causes.as_slice()),
            Verdict::No => self.has_dropped_each(numbers),
            Verdict::Undecided => false,
        }
    }

    /// Whether the evidence shows the verdict by itself. The answer names cores of `numbers` besides those of its tries.
    pub fn is_shown(&self, kb: &Kb, numbers: &[u64], question: Question, said: Verdict) -> bool
        ensures exact { result ≡ settling.is_shown (evidence_at kb.now self.now numbers.now) question said }
    {
        match question {
            Question::Brave => self.is_brave_shown(kb, numbers, said),
            Question::Iar => self.is_iar_shown(kb, numbers, said),
            Question::Ar => self.is_ar_shown(kb, numbers, said),
        }
    }

    /// Whether an answer of yes is shown, or by what gives it.
    fn is_settled_yes(&self, kb: &Kb, numbers: &[u64], question: Question) -> bool
        ensures exact { result
            ≡ settling.is_settled_as (evidence_at kb.now self.now numbers.now) question Verdict.Yes }
    {
        let yes = Verdict::Yes;
        match question {
            Question::Iar => self.is_iar_shown(kb, numbers, yes),
            Question::Ar => {
                self.is_ar_shown(kb, numbers, yes) || self.is_iar_shown(kb, numbers, yes)
            }
            Question::Brave => {
                self.is_brave_shown(kb, numbers, yes)
                    || (self.is_ar_shown(kb, numbers, yes) || self.is_iar_shown(kb, numbers, yes))
            }
        }
    }

    /// Whether an answer of no is shown, or by what gives it.
    fn is_settled_no(&self, kb: &Kb, numbers: &[u64], question: Question) -> bool
        ensures exact { result
            ≡ settling.is_settled_as (evidence_at kb.now self.now numbers.now) question Verdict.No }
    {
        let no = Verdict::No;
        match question {
            Question::Brave => self.is_brave_shown(kb, numbers, no),
            Question::Ar => {
                self.is_ar_shown(kb, numbers, no) || self.is_brave_shown(kb, numbers, no)
            }
            Question::Iar => {
                self.is_iar_shown(kb, numbers, no)
                    || (self.is_ar_shown(kb, numbers, no) || self.is_brave_shown(kb, numbers, no))
            }
        }
    }

    /// Whether the question is settled one way or the other.
    pub fn is_settled(&self, kb: &Kb, numbers: &[u64], question: Question) -> bool
        ensures exact { result ≡ settling.is_settled (evidence_at kb.now self.now numbers.now) question }
    {
        self.is_settled_yes(kb, numbers, question) || self.is_settled_no(kb, numbers, question)
    }

    /// Whether the question has had the tries that leave it undecided.
    pub fn is_spent(&self, kb: &Kb, numbers: &[u64], question: Question) -> bool
        ensures exact { result ≡ settling.is_spent (evidence_at kb.now self.now numbers.now) question }
    {
        match question {
            Question::Brave => is_brave_spent(&self.ended, self.asked.causes.as_slice()),
            Question::Ar => is_selector_ended(&self.ended, self.selector(kb), How::Spent),
            Question::Iar => {
                self.is_each_absent_or_spent(numbers)
                    && has_ended(&self.ended, Question::Iar, How::Spent)
            }
        }
    }

    /// Whether an answer has to have the verdict.
    pub fn is_verdict(&self, kb: &Kb, numbers: &[u64], question: Question, said: Verdict) -> bool
        ensures exact { result ≡ settling.is_verdict (evidence_at kb.now self.now numbers.now) question said }
    {
        match said {
            Verdict::Yes => self.is_settled_yes(kb, numbers, question),
            Verdict::No => self.is_settled_no(kb, numbers, question),
            Verdict::Undecided => {
                !self.is_settled(kb, numbers, question) && self.is_spent(kb, numbers, question)
            }
        }
    }
}
