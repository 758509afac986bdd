//! What the lines of an answer show so far.

ghost use Rattle.std.specs.Prelude.{◌≡◌, ◌<◌, ◌↔◌, ◌&&◌, length, slice_index_or, IsTrue, IfOk, OnOk, not, true, false, if◌then◌else◌, Contains, Some, None};
ghost use Rattle.cq_terms.specs.Lists.{IsAscending};
ghost use Rattle.answer_evidence.specs.Sets.{Gains};
ghost use Rattle.answer_evidence.specs.Shown.{ShowsNothing, SeesCore, SeesRefuted, SeesIar, Cuts, all_true, is_brave_no, is_ar_yes, is_ar_no, verdict_by};
ghost use Rattle.answer_evidence.specs.Shown.{verdict_in, is_undecided, SaysHow};

use crate::fact_set::FactSet;
use crate::lists::{has_one, meets, meets_each};
use cq_terms::{Ids, NoMemory};
use report_text::{How, Question, Verdict};
use std::alloc::Global;

/// The evidence of an answer so far: by it each question is settled or not.
#[derive(Drop)]
pub struct Evidence {
    // Some core of the answer keeps a whole cause.
    keeps: bool,
    // Some core of the answer drops a fact of every cause.
    drops_all: bool,
    // For each cause, whether some core of the answer drops a fact of it.
    cut: Vec<bool>,
    // Each cause had its brave try, which ended refuted or spent.
    brave_over: bool,
    // Some brave try ended spent.
    brave_spent: bool,
    // The facts whose IAR tries ended refuted, and those whose ended spent.
    refuted: FactSet,
    spent: FactSet,
    // All facts of some cause are among the refuted ones.
    sure: bool,
    // The AR try ended so.
    ar_refuted: bool,
}

impl Evidence {
    /// What no line shows.
    pub fn new(alloc: Global, causes: &[Ids]) -> Result<Evidence, NoMemory>
        ensures exact { IfOk result (ShowsNothing causes.now) }
    {
        let mut cut = Vec::new(alloc);
        for _cause in causes {
            cut.push(false)?;
        }
        Ok(Evidence {
            keeps: false,
            drops_all: false,
            cut,
            brave_over: false,
            brave_spent: false,
            refuted: FactSet::new(alloc),
            spent: FactSet::new(alloc),
            sure: false,
            ar_refuted: false,
        })
    }

    /// Takes a core of the answer.
    pub fn see_core(&mut self, causes: &[Ids], kept: &[u32], dropped: &[u32])
        requires kept { IsAscending kept.now }
        requires dropped { IsAscending dropped.now }
        requires all { length self.old.cut.items ≡ length causes.now }

        ensures exact { SeesCore causes.now kept.now dropped.now self.old self.new }
    {
        if has_one(causes, kept) {
            self.keeps = true;
        }
        if meets_each(causes, dropped) {
            self.drops_all = true;
        }
        cut_each(self.cut.as_mut_slice(), causes, dropped);
    }

    /// Takes that a brave try ended spent.
    pub fn see_brave_spent(&mut self)
        ensures exact { self.new ≡ record self.old { brave_spent = true } }
    {
        self.brave_spent = true;
    }

    /// Takes that each cause had its brave try, and none ended with a core.
    pub fn see_brave_over(&mut self)
        ensures exact { self.new ≡ record self.old { brave_over = true } }
    {
        self.brave_over = true;
    }

    /// Takes that the IAR try of a fact ended refuted.
    fn see_iar_refuted(&mut self, causes: &[Ids], fact: u32) -> Result<(), NoMemory>
        ensures exact { OnOk result (SeesRefuted causes.now fact self.old self.new) }
        ensures same_cut { self.new.cut ≡ self.old.cut }
    {
        self.refuted.put(fact)?;
        if self.refuted.has_one(causes) {
            self.sure = true;
        }
        Ok(())
    }

    /// Takes that the IAR try of a fact ended spent.
    fn see_iar_spent(&mut self, fact: u32) -> Result<(), NoMemory>
        ensures exact { OnOk result (Gains fact self.old.spent self.new.spent) }
        ensures only { self.new ≡ record self.old { spent = self.new.spent } }
    {
        self.spent.put(fact)
    }

    /// Takes how the IAR try of a fact ended, where it ended without a core.
    pub fn see_iar(&mut self, causes: &[Ids], fact: u32, how: How) -> Result<(), NoMemory>
        ensures exact { OnOk result (SeesIar causes.now fact how self.old self.new) }
        ensures same_cut { self.new.cut ≡ self.old.cut }
    {
        match how {
            How::Model => Ok(()),
            How::Refuted => self.see_iar_refuted(causes, fact),
            How::Spent => self.see_iar_spent(fact),
        }
    }

    /// Takes that the AR try ended refuted.
    pub fn see_ar_refuted(&mut self)
        ensures exact { self.new ≡ record self.old { ar_refuted = true } }
    {
        self.ar_refuted = true;
    }

    /// Whether some core of the answer drops a fact of the cause at the place.
    pub fn is_cut(&self, place: usize) -> bool
        requires inside { place < length self.now.cut.items }

        ensures exact { result ≡ slice_index_or self.now.cut.items place false }
    {
        self.cut[place]
    }

    /// How the IAR try of the fact ended, where it had one that didn't end with a core.
    pub fn ended(&self, fact: u32) -> Option<How>
        ensures exact { SaysHow self.now fact result }
    {
        if self.refuted.has(fact) {
            return Some(How::Refuted);
        }
        if self.spent.has(fact) {
            return Some(How::Spent);
        }
        None
    }

    /// Whether brave is no: each cause was refuted.
    fn is_brave_no(&self) -> bool
        ensures { result ≡ is_brave_no self.now }
    {
        self.brave_over && !self.brave_spent
    }

    /// Whether AR is yes: the selector was refuted, or IAR is yes.
    fn is_ar_yes(&self) -> bool
        ensures { result ≡ is_ar_yes self.now }
    {
        self.ar_refuted || self.sure
    }

    /// Whether AR is no: a core drops a fact of every cause, or brave is no.
    fn is_ar_no(&self) -> bool
        ensures { result ≡ is_ar_no self.now }
    {
        self.drops_all || self.is_brave_no()
    }

    /// Whether each cause has a fact that some core drops.
    fn are_all_cut(&self) -> bool
        ensures { result ≡ all_true self.now.cut.items }
    {
        self.cut.iter().all(|is_cut| *is_cut)
    }

    /// What the evidence says of a question.
    pub fn verdict(&self, question: Question) -> Verdict
        ensures { result ≡ verdict_in self.now question }
    {
        match question {
            Question::Brave => verdict_of(self.keeps || self.is_ar_yes(), self.is_brave_no()),
            Question::Iar => verdict_of(self.sure, self.are_all_cut() || self.is_ar_no()),
            Question::Ar => verdict_of(self.is_ar_yes(), self.is_ar_no()),
        }
    }

    /// Whether the question is settled.
    pub fn is_settled(&self, question: Question) -> bool
        ensures { result ≡ not (is_undecided (verdict_in self.now question)) }
    {
        match self.verdict(question) {
            Verdict::Undecided => false,
            Verdict::Yes => true,
            Verdict::No => true,
        }
    }
}

/// Marks each cause of which a fact is dropped.
fn cut_each(cut: &mut [bool], causes: &[Ids], dropped: &[u32])
    requires dropped { IsAscending dropped.now }
    requires all { length cut.old ≡ length causes.now }

    ensures exact { Cuts causes.now dropped.now cut.old cut.new }
{
    for (place, cause) in causes.iter().enumerate() {
        if meets(cause.as_slice(), dropped) {
            cut[place] = true;
        }
    }
}

/// The verdict where a question is settled so.
fn verdict_of(yes: bool, no: bool) -> Verdict
    ensures { result ≡ verdict_by yes no }
{
    if yes {
        return Verdict::Yes;
    }
    if no {
        return Verdict::No;
    }
    Verdict::Undecided
}
