//! What further lines make of what is kept.

ghost use Rattle.std.specs.Prelude.{◌≡◌, ◌<◌, ◌+◌, ◌^◌, ◌++◌, ℕ, List, IsTrue, OnOk, IfOk, not, map, filter, length};
ghost use Rattle.cq_terms.specs.Lists.{IsAscending};
ghost use Rattle.priority_graph.specs.Split.{has};
ghost use Rattle.report_rules.specs.Live.{has_variable};
ghost use Rattle.report_rules.specs.Rules as rules_of_lines;
ghost use Rattle.report_rules.specs.Told.{is_query};
ghost use Rattle.report_laws.specs.Standing as standing_words;
ghost use Rattle.report_laws.specs.Standing.{after, one_number};
ghost use Rattle.report_laws.specs.Summaries.{any_open};
ghost use Rattle.report_parts.specs.Blocks.{AreApart};

use crate::standing::{Learned, Standing};
use clause_meaning::variable_of;
use cq_terms::{Ids, Kb, NoMemory};
use report_parts::{Block, EndedTry, ascend_long, has_long, same_question};
use report_rules::Place;
use report_text::{How, Line, Origin, Question, Verdict};
use std::alloc::Global;

/// One more where the test passes.
fn counted(test: bool, count: u64) -> u64
    requires room { count + 1 < 2 ^ 64 }

    ensures exact { result ≡ standing_words.counted test count }
{
    if test { count + 1 } else { count }
}

/// Whether the clause has the variable.
fn has_variable(variable: u64, clause: &[u32]) -> bool
    ensures exact { result ≡ has_variable variable clause.now }
{
    clause
        .iter()
        .any(|literal| u64::from(variable_of(*literal)) == variable)
}

/// Whether the verdict is yes.
fn is_yes(said: Verdict) -> bool
    ensures exact { result ≡ rules_of_lines.is_yes said }
{
    matches!(said, Verdict::Yes)
}

/// Whether one of the verdicts is left open.
fn is_any_open(brave: Verdict, ar: Verdict, iar: Verdict) -> bool
    ensures exact { result ≡ any_open brave ar iar }
{
    is_open(brave) || (is_open(ar) || is_open(iar))
}

/// Whether the verdict is left open.
fn is_open(said: Verdict) -> bool
    ensures exact { result ≡ rules_of_lines.is_undecided said }
{
    matches!(said, Verdict::Undecided)
}

/// Which of the clauses have none of the numbers.
fn marks_without_numbers(
    alloc: Global,
    learned: &[Learned],
    numbers: &[u64],
    in_order: bool,
) -> Result<Vec<bool>, NoMemory>
    requires ascending { IsTrue in_order → IsAscending numbers.now }

    ensures exact { IfOk result (λ marks. marks.items ≡ map (λ c. not (has numbers.now c.number)) learned.now) }
{
    let marks = learned
        .iter()
        .map(|clause| !has_long(numbers, in_order, clause.number))
        .collect(alloc)?;
    Ok(marks)
}

/// Which of the clauses don't have the variable.
fn marks_without_variable(
    alloc: Global,
    learned: &[Learned],
    variable: u64,
) -> Result<Vec<bool>, NoMemory>
    ensures exact { IfOk result (λ marks. marks.items ≡ map (λ c. not (has_variable variable c.clause)) learned.now) }
{
    let marks = learned
        .iter()
        .map(|clause| !has_variable(variable, clause.clause.as_slice()))
        .collect(alloc)?;
    Ok(marks)
}

/// Leaves the clauses that have none of the numbers.
fn leave_others(learned: &mut Vec<Learned>, numbers: &[u64], in_order: bool)
    requires ascending { IsTrue in_order → IsAscending numbers.now }

    ensures exact { learned.new.items ≡ filter (λ c. not (has numbers.now c.number)) learned.old.items }
{
    learned.retain(|clause| !has_long(numbers, in_order, clause.number));
}

/// Leaves the clauses that don't have the variable.
fn leave_without(learned: &mut Vec<Learned>, variable: u64)
    ensures exact { learned.new.items ≡ filter (λ c. not (has_variable variable c.clause)) learned.old.items }
{
    learned.retain(|clause| !has_variable(variable, clause.clause.as_slice()));
}

/// Whether the block is another one than the query's.
fn is_of_axiom(block: &Block) -> bool
    ensures exact { result ≡ not (is_query block.now.origin) }
{
    matches!(block.origin(), Origin::Negative(_))
}

impl Standing {
    /// Which of the learned clauses stay behind a `forget` line with these numbers.
    pub fn stay_behind_forget(&self, alloc: Global, numbers: &[u64]) -> Result<Vec<bool>, NoMemory>
        ensures exact { IfOk result (λ marks. marks.items ≡ map (λ c. not (has numbers.now c.number)) self.now.learned) }
    {
        marks_without_numbers(alloc, &self.learned, numbers, ascend_long(numbers))
    }

    /// Which of the learned clauses stay behind the answer to the candidate that was asked.
    pub fn stay_behind_answer(&self, alloc: Global, kb: &Kb) -> Result<Vec<bool>, NoMemory>
        ensures exact { IfOk result (λ marks. marks.items
            ≡ map (λ c. not (has_variable (length kb.now.facts + self.now.asked.candidate) c.clause)) self.now.learned) }
    {
        marks_without_variable(alloc, &self.learned, self.selector(kb))
    }

    /// Takes a `learn` line.
    pub fn take_learn(&mut self, number: u64, clause: Ids) -> Result<(), NoMemory>
        requires lines { self.old.learn_lines + 1 < 2 ^ 64 }
        requires brave { self.old.in_brave + 1 < 2 ^ 64 }
        requires iar { self.old.in_iar + 1 < 2 ^ 64 }
        requires ar { self.old.in_ar + 1 < 2 ^ 64 }

        ensures exact { OnOk result ((facts : ℕ) → self.new ≡ after facts self.old (Line.Learn number clause)) }
    {
        self.learned.push(Learned { number, clause })?;
        self.place = Place::InTry;
        self.learn_lines += 1;
        self.in_brave = counted(same_question(Question::Brave, self.question), self.in_brave);
        self.in_iar = counted(same_question(Question::Iar, self.question), self.in_iar);
        self.in_ar = counted(same_question(Question::Ar, self.question), self.in_ar);
        Ok(())
    }

    /// Takes a `done` line.
    pub fn take_done(&mut self, alloc: Global, how: How, core: Option<u64>) -> Result<(), NoMemory>
        ensures exact { OnOk result ((facts : ℕ) → self.new ≡ after facts self.old (Line.Done how core)) }
    {
        let assume = Ids::from_slice(alloc, self.assumed.as_slice())?;
        self.ended.push(EndedTry::new(self.question, assume, how))?;
        push_number(&mut self.named, core)?;
        self.place = Place::InAnswer;
        Ok(())
    }

    /// Takes a `forget` line.
    pub fn take_forget(&mut self, numbers: &[u64])
        ensures exact { (facts : ℕ) → self.new ≡ after facts self.old (Line.Forget numbers.now) }
    {
        leave_others(&mut self.learned, numbers, ascend_long(numbers));
        self.place = Place::AfterForget;
    }

    /// Takes an `answer` line.
    pub fn take_answer(&mut self, kb: &Kb, brave: Verdict, ar: Verdict, iar: Verdict)
        requires answers { self.old.answers + 1 < 2 ^ 64 }
        requires brave { self.old.brave + 1 < 2 ^ 64 }
        requires ar { self.old.ar + 1 < 2 ^ 64 }
        requires iar { self.old.iar + 1 < 2 ^ 64 }
        requires undecided { self.old.undecided + 1 < 2 ^ 64 }
        requires total { self.old.total + 1 < 2 ^ 64 }

        ensures exact { (cores : List ℕ) (names : List (List ℕ)) (tuple : List ℕ)
            → self.new ≡ after (length kb.now.facts) self.old (Line.Answer brave ar iar cores names tuple) }
    {
        let selector = self.selector(kb);
        leave_without(&mut self.learned, selector);
        self.place = Place::AfterAnswer;
        self.answers += 1;
        self.brave = counted(is_yes(brave), self.brave);
        self.ar = counted(is_yes(ar), self.ar);
        self.iar = counted(is_yes(iar), self.iar);
        self.undecided = counted(is_any_open(brave, ar, iar), self.undecided);
        self.total += 1;
    }

    /// Takes an `end` line.
    pub fn take_end(&mut self)
        requires ends { self.old.ends + 1 < 2 ^ 64 }

        ensures exact { (facts answers brave ar iar undecided : ℕ)
            → self.new ≡ after facts self.old (Line.End answers brave ar iar undecided) }
    {
        leave_axioms(&mut self.blocks);
        self.place = Place::AtEnd;
        self.ends += 1;
        self.answers = 0;
        self.brave = 0;
        self.ar = 0;
        self.iar = 0;
        self.undecided = 0;
    }
}

/// Leaves the blocks of axioms.
fn leave_axioms(blocks: &mut Vec<Block>)
    requires apart { AreApart blocks.old.items }

    ensures exact { blocks.new.items ≡ filter (λ b. not (is_query b.origin)) blocks.old.items }
    ensures apart { AreApart blocks.new.items }
{
    blocks.retain(|block| is_of_axiom(block));
}

/// Appends the number, where there is one.
fn push_number(numbers: &mut Vec<u64>, number: Option<u64>) -> Result<(), NoMemory>
    ensures exact { OnOk result (numbers.new.items ≡ numbers.old.items ++ one_number number) }
{
    if let Some(number) = number {
        numbers.push(number)?;
    }
    Ok(())
}
