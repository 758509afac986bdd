//! A try that has ended.

ghost use Rattle.std.specs.Prelude.{◌≡◌, ◌&&◌, ◌∷◌, [], map};
ghost use Rattle.std.specs.Str.{bytes_eq};
ghost use Rattle.repair_clauses.specs.BaseClauses.{absent, present};
ghost use Rattle.report_text.specs.declared.line.Question.TheVariants as question_of_try;
ghost use Rattle.report_rules.specs.Live as live;
ghost use Rattle.report_rules.specs.TryRules.{turn_of};
ghost use Rattle.report_laws.specs.Settling as settling;
ghost use Rattle.report_laws.specs.AtStanding as at_standing;

use crate::assumptions::{are_present, is_absent_alone, is_present_alone};
use cq_terms::Ids;
use report_text::{How, Question};
use std::marker::Model;

/// A try that has ended.
#[derive(Drop)]
pub struct EndedTry {
    question: Question,
    assume: Ids,
    how: How,
}

impl Model for EndedTry {
    ghost use Rattle.report_laws.specs.Standing.{EndedTry};

    ghost Value = { EndedTry };

    ghost view = { λ a. record { question = a.question; assume = a.assume; how = a.how } };
}

impl EndedTry {
    /// The try of the question under the assumptions that ended so.
    pub fn new(question: Question, assume: Ids, how: How) -> EndedTry
        ensures exact { result ≡ record { question = question; assume = assume; how = how } }
    {
        EndedTry {
            question,
            assume,
            how,
        }
    }

    /// Whether the try assumed that the whole cause is present, and ended so.
    pub fn is_of_cause(&self, cause: &[u32], how: How) -> bool
        ensures exact { result ≡ (live.same_question self.now.question question_of_try.Brave
            && (bytes_eq self.now.assume (map present cause.now) && settling.same_how self.now.how how)) }
    {
        same_question(self.question, Question::Brave)
            && are_present(self.assume.as_slice(), cause)
            && same_how(self.how, how)
    }

    /// Whether the try assumed that the fact is absent, and ended so.
    pub fn is_of_absence(&self, fact: u32, how: How) -> bool
        ensures exact { result ≡ (live.same_question self.now.question question_of_try.Iar
            && (bytes_eq self.now.assume (absent fact ∷ []) && settling.same_how self.now.how how)) }
    {
        same_question(self.question, Question::Iar)
            && is_absent_alone(self.assume.as_slice(), fact)
            && same_how(self.how, how)
    }

    /// Whether the try assumed that the selector is present, and ended so.
    pub fn is_of_selector(&self, selector: u64, how: How) -> bool
        ensures exact { result ≡ (live.same_question self.now.question question_of_try.Ar
            && (bytes_eq self.now.assume (present selector ∷ []) && settling.same_how self.now.how how)) }
    {
        same_question(self.question, Question::Ar)
            && is_present_alone(self.assume.as_slice(), selector)
            && same_how(self.how, how)
    }

    /// Whether the try asked the question, and ended so.
    pub fn is_of_question(&self, question: Question, how: How) -> bool
        ensures exact { result ≡ (live.same_question self.now.question question && settling.same_how self.now.how how) }
    {
        same_question(self.question, question) && same_how(self.how, how)
    }

    /// Whether the try doesn't come behind the question's turn.
    pub fn is_in_turn(&self, question: Question) -> bool
        ensures exact { result ≡ at_standing.is_in_turn question self.now }
    {
        turn_of(question) >= turn_of(self.question)
    }

    /// Whether the try asked the question under the assumptions.
    pub fn is_such_try(&self, question: Question, assume: &[u32]) -> bool
        ensures exact { result ≡ at_standing.is_such_try question assume.now self.now }
    {
        same_question(self.question, question) && self.assume.as_slice() == assume
    }
}

/// Whether the two questions are one.
pub fn same_question(left: Question, right: Question) -> bool
    ensures exact { result ≡ live.same_question left right }
{
    match left {
        Question::Brave => matches!(right, Question::Brave),
        Question::Iar => matches!(right, Question::Iar),
        Question::Ar => matches!(right, Question::Ar),
    }
}

/// Whether two tries ended alike.
pub fn same_how(left: How, right: How) -> bool
    ensures exact { result ≡ settling.same_how left right }
{
    match left {
        How::Model => matches!(right, How::Model),
        How::Refuted => matches!(right, How::Refuted),
        How::Spent => matches!(right, How::Spent),
    }
}

/// The place of the question in an answer.
pub fn turn_of(question: Question) -> u32
    ensures exact { result ≡ turn_of question }
{
    match question {
        Question::Brave => 0,
        Question::Iar => 1,
        Question::Ar => 2,
    }
}
