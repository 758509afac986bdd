//! The desk that answers the candidates one by one, over one clause store.

ghost use Rattle.std.specs.Prelude.{◌≡◌, ◌<◌, ◌≤◌, ◌+◌, None, true, false, IfOk, OnOk, OnErr};
ghost use Rattle.cq_io.specs.Faults.{TellsFault};
ghost use Rattle.answer_desk.specs.Answering.{AnswersRight, DecideByBudget, DecideOverAll, TellTruth, is_report_fault};
ghost use Rattle.answer_desk.specs.Desks.{MayOpen, MayAnswer, IsSameDesk, new_desk};

use crate::work::{Work, add_each};
use crate::{ClassifyFault, Plan, Verdicts};
use answer_evidence::up_to;
use cause_finder::Candidate;
use cdcl_core::Solver;
use cq_terms::{Conflicts, NoMemory, Texts};
use priority_graph::Better;
use repair_encoder::base_clauses;
use report_text::Report;
use std::alloc::Global;
use std::marker::Model;

/// Answers candidates over the conflicts of a table and a priority. Its clauses serve all answers: what was learned for one without
/// its own variable stays for the next.
#[derive(Drop)]
pub struct Desk<'a> {
    work: Work<'a>,
    selectors: u32,
    failed: bool,
}

impl<'a> Model for Desk<'a> {
    ghost use Rattle.std.specs.Prelude.{◌≡◌, false};
    ghost use Rattle.answer_desk.specs.Desks.{DeskState, IsReady, learned_in};

    ghost Value = { DeskState };

    ghost view = { λ a. record {
      conflicts = a.work.conflicts.now;
      better = a.work.better.now;
      plan = a.work.plan;
      selectors = a.selectors;
      learned = learned_in a.work.solver.live;
      answers = a.work.answers;
      clauses = a.work.solver.next;
      cores = a.work.cores;
      failed = a.failed;
    } };

    ghost invariant = { λ a. a.failed ≡ false → IsReady (record {
      conflicts = a.work.conflicts.now;
      better = a.work.better.now;
      plan = a.work.plan;
      selectors = a.selectors;
      learned = learned_in a.work.solver.live;
      answers = a.work.answers;
      clauses = a.work.solver.next;
      cores = a.work.cores;
      failed = a.failed;
    }) a.work.solver };
}

impl<'a> Desk<'a> {
    /// A desk with the base clauses of all facts, for candidates whose numbers are below `selectors`.
    pub fn new(
        alloc: Global,
        conflicts: &'a Conflicts,
        better: &'a Better,
        facts: u32,
        selectors: u32,
        plan: &Plan,
    ) -> Result<Desk<'a>, NoMemory>
        requires may_open { MayOpen conflicts.now better.now plan.now facts selectors }

        ensures exact { IfOk result (new_desk conflicts.now better.now plan.now selectors) }
    {
        let _order = better.linear();
        let mut solver = Solver::new(alloc, facts + selectors)?;
        let all = up_to(alloc, facts)?;
        let clauses = base_clauses(alloc, conflicts, better, all.as_slice())?;
        add_each(&mut solver, clauses.as_slice())?;
        Ok(Desk {
            work: Work {
                alloc,
                conflicts,
                better,
                plan: *plan,
                solver,
                answers: 0,
                cores: 0,
            },
            selectors,
            failed: false,
        })
    }

    /// Answers the three questions of a candidate, with the lines of its answer from the `ask` line on. After a fault the desk can
    /// only be given up.
    pub fn answer<L: Report>(
        &mut self,
        number: u32,
        candidate: &Candidate,
        names: &Texts,
        report: &mut L,
    ) -> Result<Verdicts, ClassifyFault>
        requires whole { self.old.failed ≡ false }
        requires may_answer { MayAnswer self.old number candidate.now.causes }
        requires none_torn { L.torn report.old ≡ None }

        // Whatever the report tells.
        ensures truth { IfOk result (TellTruth self.old candidate.now.tuple candidate.now.causes) }
        ensures over_all { IfOk result (DecideOverAll self.old candidate.now.causes) }
        ensures by_budget { IfOk result (DecideByBudget self.old candidate.now.causes) }

        // Where it tells its lines, and they agreed with the desk.
        ensures right { AnswersRight self.old self.new number candidate.now.tuple candidate.now.causes candidate.now.members
            names.now (L.lines report.old) (L.lines report.new) (L.torn report.new) result }

        ensures fault { TellsFault (L.faults report.old) (L.faults report.new) (is_report_fault result) }
        ensures none_torn { OnOk result (L.torn report.new ≡ None) }
        ensures same_target { L.target report.new ≡ L.target report.old }
        ensures same_desk { IsSameDesk self.old self.new }
        ensures counted { OnOk result (self.new.answers ≡ self.old.answers + 1) }
        ensures whole { OnOk result (self.new.failed ≡ false) }
        ensures failed { OnErr result (self.new.failed ≡ true) }
    {
        self.failed = true;
        let verdicts = self.work.answer(number, candidate, names, report)?;
        self.failed = false;
        Ok(verdicts)
    }
}
