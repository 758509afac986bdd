//! What the tries that have ended say of a question.

ghost use Rattle.std.specs.Prelude.{◌≡◌, ◌∷◌, ◌||◌, ◌&&◌, [], map};
ghost use Rattle.std.specs.List.{list_any, list_all};
ghost use Rattle.repair_clauses.specs.BaseClauses.{absent, present};
ghost use Rattle.report_text.specs.declared.line.Question.TheVariants as questions;
ghost use Rattle.report_text.specs.declared.line.How.TheVariants as hows;
ghost use Rattle.report_laws.specs.Settling as settling;

use crate::ended_try::EndedTry;
use cq_terms::Ids;
use report_text::{How, Question};

/// Whether some try assumed that the whole cause is present, and ended so.
fn is_cause_ended(ended: &[EndedTry], cause: &[u32], how: How) -> bool
    ensures exact { result ≡ settling.is_ended ended.now questions.Brave (map present cause.now) how }
{
    ended.iter().any(|tried| tried.is_of_cause(cause, how))
}

/// Whether some try assumed that the fact is absent, and ended so.
fn is_absence_ended(ended: &[EndedTry], fact: u32, how: How) -> bool
    ensures exact { result ≡ settling.is_ended ended.now questions.Iar (absent fact ∷ []) how }
{
    ended.iter().any(|tried| tried.is_of_absence(fact, how))
}

/// Whether some try assumed that the selector is present, and ended so.
pub fn is_selector_ended(ended: &[EndedTry], selector: u64, how: How) -> bool
    ensures exact { result ≡ settling.is_ended ended.now questions.Ar (present selector ∷ []) how }
{
    ended
        .iter()
        .any(|tried| tried.is_of_selector(selector, how))
}

/// Whether some try of the question ended so.
pub fn has_ended(ended: &[EndedTry], question: Question, how: How) -> bool
    ensures exact { result ≡ settling.has_ended ended.now question how }
{
    ended
        .iter()
        .any(|tried| tried.is_of_question(question, how))
}

/// Whether some try assumed that the whole cause is present, and ended so. The try at the place is looked at first: where the causes were
/// tried in their order, it is the one.
fn is_cause_ended_near(ended: &[EndedTry], place: usize, cause: &[u32], how: How) -> bool
    ensures exact { result ≡ settling.is_ended ended.now questions.Brave (map present cause.now) how }
{
    if place < ended.len() {
        if ended[place].is_of_cause(cause, how) {
            return true;
        }
    }
    is_cause_ended(ended, cause, how)
}

/// Whether for each cause a try ended refuted that assumed it.
pub fn is_each_refuted(ended: &[EndedTry], causes: &[Ids]) -> bool
    ensures exact { result
        ≡ list_all (λ cause. settling.is_ended ended.now questions.Brave (map present cause) hows.Refuted) causes.now }
{
    let mut place = 0;
    for cause in causes {
        if !is_cause_ended_near(ended, place, cause.as_slice(), How::Refuted) {
            return false;
        }
        place += 1;
    }
    true
}

/// Whether for each fact of the cause a try ended refuted that assumed it to be absent.
fn is_each_absence_refuted(ended: &[EndedTry], cause: &[u32]) -> bool
    ensures exact { result
        ≡ list_all (λ i. settling.is_ended ended.now questions.Iar (absent i ∷ []) hows.Refuted) cause.now }
{
    cause
        .iter()
        .all(|fact| is_absence_ended(ended, *fact, How::Refuted))
}

/// Whether for each fact of one of the causes a try ended refuted that assumed it to be absent.
pub fn is_one_shared(ended: &[EndedTry], causes: &[Ids]) -> bool
    ensures exact { result ≡ list_any
        (λ cause. list_all (λ i. settling.is_ended ended.now questions.Iar (absent i ∷ []) hows.Refuted) cause) causes.now }
{
    causes
        .iter()
        .any(|cause| is_each_absence_refuted(ended, cause.as_slice()))
}

/// Whether a try ended refuted or spent that assumed the cause.
fn is_cause_through(ended: &[EndedTry], cause: &[u32]) -> bool
    ensures exact { result ≡ (settling.is_ended ended.now questions.Brave (map present cause.now) hows.Refuted
        || settling.is_ended ended.now questions.Brave (map present cause.now) hows.Spent) }
{
    is_cause_ended(ended, cause, How::Refuted) || is_cause_ended(ended, cause, How::Spent)
}

/// Whether for each cause a try ended refuted or spent, and for one of them one spent.
pub fn is_brave_spent(ended: &[EndedTry], causes: &[Ids]) -> bool
    ensures exact { result
        ≡ (list_all (λ cause. settling.is_ended ended.now questions.Brave (map present cause) hows.Refuted
        || settling.is_ended ended.now questions.Brave (map present cause) hows.Spent) causes.now
        && list_any (λ cause. settling.is_ended ended.now questions.Brave (map present cause) hows.Spent) causes.now) }
{
    is_each_through(ended, causes) && is_one_spent(ended, causes)
}

/// Whether for each cause a try ended refuted or spent.
fn is_each_through(ended: &[EndedTry], causes: &[Ids]) -> bool
    ensures exact { result
        ≡ list_all (λ cause. settling.is_ended ended.now questions.Brave (map present cause) hows.Refuted
        || settling.is_ended ended.now questions.Brave (map present cause) hows.Spent) causes.now }
{
    causes
        .iter()
        .all(|cause| is_cause_through(ended, cause.as_slice()))
}

/// Whether for one of the causes a try ended spent.
fn is_one_spent(ended: &[EndedTry], causes: &[Ids]) -> bool
    ensures exact { result
        ≡ list_any (λ cause. settling.is_ended ended.now questions.Brave (map present cause) hows.Spent) causes.now }
{
    causes.iter().any(|cause| is_cause_ended(ended, cause.as_slice(), How::Spent))
}

/// Whether for one of the facts a try ended spent that assumed it to be absent.
pub fn is_one_absence_spent(ended: &[EndedTry], cause: &[u32]) -> bool
    ensures exact { result
        ≡ list_any (λ i. settling.is_ended ended.now questions.Iar (absent i ∷ []) hows.Spent) cause.now }
{
    cause
        .iter()
        .any(|fact| is_absence_ended(ended, *fact, How::Spent))
}
