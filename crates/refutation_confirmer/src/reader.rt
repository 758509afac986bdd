//! The reader of a report: what is kept of its lines, and what it finds out itself.

ghost use Rattle.std.specs.Prelude.{◌≡◌, [], ℕ, List, IfOk, OnOk, IsErrOf, MatchOption};
ghost use Rattle.cq_terms.specs.Query.{Query};
ghost use Rattle.report_text.specs.declared.line.Line.{Line};
ghost use Rattle.report_rules.specs.Inputs.{report_on};
ghost use Rattle.report_rules.specs.Accepted.{Right};
ghost use Rattle.report_rules.specs.Broken.{Breaks};
ghost use Rattle.refutation_confirmer.specs.Room.{HasRoom};
ghost use Rattle.refutation_confirmer.specs.State.{Fits, TellsNow};
ghost use Rattle.refutation_confirmer.specs.Steps.{FitsBefore, IsReadyFor, Takes};
ghost use Rattle.refutation_confirmer.specs.declared.confirmed.ConfirmFault.TheVariants as fault;

use crate::ConfirmFault;
use crate::order::may_come;
use crate::taking::is_conflict;
use cq_terms::{Conflicts, Cq, Kb, NoMemory, Vocab};
use plain_finding::{Candidate, Clauses, Learnable};
use plain_match::PlainFacts;
use priority_graph::Better;
use report_rules::{Place, Rule, own_rule};
use report_standing::{Standing, leaves_closed};
use report_text::Line;
use std::alloc::Global;
use std::marker::Model;

/// What is kept of the lines so far, and what was found out.
#[derive(Drop)]
pub struct Reader {
    pub(crate) standing: Standing,
    pub(crate) plain: PlainFacts,
    pub(crate) conflicts: Option<Conflicts>,
    pub(crate) better: Option<Better>,
    pub(crate) candidates: Option<Vec<Candidate>>,
    pub(crate) clauses: Option<Clauses>,
    pub(crate) learnable: Option<Learnable>,
}

impl Model for Reader {
    ghost use Rattle.std.specs.Prelude.{option_map};
    ghost use Rattle.refutation_confirmer.specs.State.{State};

    ghost Value = { State };

    ghost view = { λ a. record {
      standing = a.standing;
      plain = a.plain;
      conflicts = a.conflicts;
      priority = a.better;
      candidates = option_map (λ cs. cs.items) a.candidates;
      clauses = a.clauses;
      learnable = a.learnable;
    } };
}

impl Reader {
    /// The reader before any line.
    pub fn new(alloc: Global, kb: &Kb) -> Result<Reader, NoMemory>
        ensures fits { IfOk result (λ r. (names : List (List ℕ)) (q : Query) → Fits (report_on kb.now names q) [] r) }
    {
        let plain = PlainFacts::build(alloc, kb.facts())?;
        Ok(Reader {
            standing: Standing::new(alloc),
            plain,
            conflicts: None,
            better: None,
            candidates: None,
            clauses: None,
            learnable: None,
        })
    }

    /// Where the lines leave the report.
    pub fn place(&self) -> Place
        ensures exact { result ≡ self.now.standing.place }
    {
        self.standing.place()
    }

    /// How many answers the report has told.
    pub fn total(&self) -> u64
        ensures exact { result ≡ self.now.standing.total }
    {
        self.standing.total()
    }

    /// Lends what is kept of the lines.
    pub(crate) fn standing(&self) -> &Standing
        ensures lent { result.now ≡ self.now.standing }
    {
        &self.standing
    }

    /// The first rule that the line breaks, or `None` where it is right. It finds out what the rule asks of the conflicts, the
    /// candidates, the priority and the base clauses, once each.
    pub fn broken_rule(
        &mut self,
        alloc: Global,
        kb: &Kb,
        vocab: &Vocab,
        query: &Cq,
        line: &Line,
    ) -> Result<Option<Rule>, NoMemory>
        requires fits { (before : List Line) × Fits (report_on kb.now vocab.now.inds query.now) before self.old }

        ensures exact { IfOk result (λ broken. (before : List Line) → Fits (report_on kb.now vocab.now.inds query.now) before self.old
            → MatchOption broken (Right (report_on kb.now vocab.now.inds query.now) before line.now)
            (λ rule. Breaks (report_on kb.now vocab.now.inds query.now) before line.now rule)) }
        ensures fits { OnOk result ((before : List Line) → Fits (report_on kb.now vocab.now.inds query.now) before self.old
            → Fits (report_on kb.now vocab.now.inds query.now) before self.new) }
        ensures ready { IfOk result (λ broken. broken ≡ None → IsReadyFor self.new line.now) }
    {
        if !may_come(kb.axioms(), self.place(), line) {
            return Ok(Some(Rule::Order));
        }
        if !leaves_closed(alloc, kb, self.standing(), line)? {
            return Ok(Some(Rule::Closed));
        }
        self.find_for(alloc, kb, line)?;
        if !self.leaves_none_out(line) {
            return Ok(Some(Rule::Conflict));
        }
        self.find_rest_for(alloc, kb, line)?;
        if !self.obeys(alloc, kb, vocab, query, line)? {
            return Ok(Some(own_rule(line)));
        }
        Ok(None)
    }

    /// Takes a right line. `Cycle` comes exactly behind the last of all conflicts, where the head asks for the priority and it has one.
    pub fn take(&mut self, alloc: Global, kb: &Kb, line: Line) -> Result<(), ConfirmFault>
        requires room { HasRoom self.old.standing }
        requires ready { IsReadyFor self.old line }
        requires right { FitsBefore kb.now self.old line }

        ensures taken { OnOk result (Takes kb.now self.old line self.new) }
        ensures cycle { (facts : List ℕ) → IsErrOf result (fault.Cycle facts)
            → (names : List (List ℕ)) (q : Query) (before : List Line) → Fits (report_on kb.now names q) before self.old
            → Right (report_on kb.now names q) before line → TellsNow (report_on kb.now names q) before line facts }
    {
        if is_conflict(&line) {
            return self.take_conflict(alloc, kb);
        }
        self.take_other(alloc, kb, line)?;
        Ok(())
    }
}
