//! The whole report on one query.

ghost use Rattle.std.specs.Prelude.{◌≡◌, ◌<◌, ◌≤◌, ◌^◌, ◌∷◌, [], ◌++◌, length, All, IfOk, OnOk, IfSome, Some, None};
ghost use Rattle.std.specs.Prelude.{slice_get, ◌+◌, false};
ghost use Rattle.std.specs.List.{AllZip};
ghost use Rattle.cq_io.specs.Faults.{TellsFault};
ghost use Rattle.cq_terms.specs.Query.{Query};
ghost use Rattle.cq_terms.specs.declared.facts.Repairs.TheVariants as mode;
ghost use Rattle.cq_steps.specs.Derivation.{IsDerivation};
ghost use Rattle.report_fields.specs.Atoms.{IsTermInRange, IsAtomInRange};
ghost use Rattle.report_text.specs.CqLine.{IsMoveInRange, IsOriginInRange};
ghost use Rattle.report_text.specs.Lines.{IsWellFormed};
ghost use Rattle.answer_desk.specs.Answering.{DecideByBudget, DecideOverAll, TellTruth, is_report_fault};
ghost use Rattle.answer_desk.specs.Desks.{MayAnswer, MayOpen, IsSameDesk};
ghost use Rattle.classifier.specs.WholeInputs.{AreFew, AreOfInput, AreOfQuery, HaveTexts};
ghost use Rattle.classifier.specs.WholeLines.{HasOneOrTwo, block_lines, conflict_line, conflict_lines, cq_line, cq_lines, head_line, opening_lines};
ghost use Rattle.classifier.specs.WholeReports.{AnswersAll, AnswersNext, CountsHolding, IsSummaryOver, MayAnswerAll, OpenAboveBudget, OpenOfManyCauses};
ghost use Rattle.classifier.specs.WholeReports.{EndsReport, ReportsWhole, end_line, first_desk};
ghost use Rattle.classifier.specs.WholeWriting.{WritesAll};

use crate::copies::{copied_query, fit};
use crate::{ClassifyFault, Desk, Plan, Summary, Verdicts};
use cause_finder::Candidate;
use conflict_finder::FoundConflicts;
use cq_steps::{Closure, Member, Move};
use cq_terms::{Clash, Conflicts, Ids, Kb, Names, NoMemory, QAtom, Term, Texts, Vocab};
use priority_graph::Better;
use report_text::{Line, Origin, Report};
use std::alloc::Global;

/// The version of the rules that the lines obey.
const VERSION: u32 = 1;

/// Writes the whole report on a query, and counts its verdicts.
///
/// ```
/// let plan = Plan {
///     budget: 10_000,
///     keep: 20_000,
///     repairs: Repairs::Pareto,
/// };
/// let mut report = LineSink::new(alloc, sink);
/// let summary = classify(
///     alloc,
///     kb,
///     vocab,
///     &prepared.closure,
///     &prepared.found,
///     &prepared.better,
///     prepared.candidates.as_slice(),
///     &plan,
///     &mut report,
/// )?;
/// ```
///
/// Where `prepared` is of the query for the Pareto-optimal repairs and `sink` has nothing yet, the sink then has the report, a
/// line of JSON each, and `summary.answers` is the number of candidates.
pub fn classify<L: Report>(
    alloc: Global,
    kb: &Kb,
    vocab: &Vocab,
    closure: &Closure,
    found: &FoundConflicts,
    better: &Better,
    candidates: &[Candidate],
    plan: &Plan,
    report: &mut L,
) -> Result<Summary, ClassifyFault>
    requires of_input { AreOfInput kb.now plan.now found.now.conflicts found.now.closures.items better.now }
    requires of_query { (q : Query) × AreOfQuery kb.now q closure.now candidates.now }
    requires texts { HaveTexts candidates.now vocab.now.inds }
    requires few { AreFew kb.now plan.now candidates.now }
    requires none_torn { L.torn report.old ≡ None }

    // Whatever the report tells.
    ensures answers { IfOk result (λ summary. summary.answers ≡ length candidates.now) }
    ensures said { IfOk result (IsSummaryOver found.now.conflicts better.now plan.now candidates.now) }
    ensures counts { (q : Query) → AreOfQuery kb.now q closure.now candidates.now
        → IfOk result (CountsHolding kb.now plan.now.repairs q candidates.now) }
    ensures by_budget { IfOk result (OpenAboveBudget found.now.conflicts plan.now.budget candidates.now) }
    ensures over_all { plan.now.repairs ≡ mode.All → IfOk result (OpenOfManyCauses candidates.now) }

    // Where it told that it had no line.
    ensures right { (q : Query) → AreOfQuery kb.now q closure.now candidates.now → L.lines report.old ≡ Some []
        → ReportsWhole kb.now vocab.now.inds q plan.now (L.lines report.new) (L.torn report.new) result }

    ensures fault { TellsFault (L.faults report.old) (L.faults report.new) (is_report_fault result) }
    ensures none_torn { OnOk result (L.torn report.new ≡ None) }
    ensures same_target { L.target report.new ≡ L.target report.old }
{
    let _clashes = found.conflicts.clashes();
    let _members = closure.members();
    are_derived(found.closures.as_slice());
    tell_opening(alloc, kb, closure, found, plan, report)?;
    let individuals = &vocab.inds;
    let conflicts = &found.conflicts;
    answer_all(
        alloc,
        conflicts,
        better,
        candidates,
        plan,
        individuals,
        report,
    )
}

/// The members of each closure are derived from earlier ones.
fn are_derived(closures: &[(u32, Closure)])
    ensures { All (λ c. IsDerivation c.1) closures.now }
{
    for closure in closures {
        let _members = closure.1.members();
    }
}

/// Answers the candidates by one desk, counts the verdicts, and writes the `end` line.
fn answer_all<L: Report>(
    alloc: Global,
    conflicts: &Conflicts,
    better: &Better,
    candidates: &[Candidate],
    plan: &Plan,
    individuals: &Names,
    report: &mut L,
) -> Result<Summary, ClassifyFault>
    requires may_open { MayOpen conflicts.now better.now plan.now conflicts.now.facts (length candidates.now) }
    requires may_answer { MayAnswerAll (first_desk conflicts.now better.now plan.now (length candidates.now)) individuals.now candidates.now }
    requires none_torn { L.torn report.old ≡ None }

    ensures said { IfOk result (IsSummaryOver conflicts.now better.now plan.now candidates.now) }
    ensures right { EndsReport (first_desk conflicts.now better.now plan.now (length candidates.now)) candidates.now individuals.now
        (L.lines report.old) (L.lines report.new) (L.torn report.new) result }
    ensures fault { TellsFault (L.faults report.old) (L.faults report.new) (is_report_fault result) }
    ensures none_torn { OnOk result (L.torn report.new ≡ None) }
    ensures same_target { L.target report.new ≡ L.target report.old }
{
    let facts = conflicts.facts();
    let selectors = candidates.len() as u32;
    let mut desk = Desk::new(alloc, conflicts, better, facts, selectors, plan)?;
    let summary = answer_each(alloc, &mut desk, candidates, individuals, report)?;
    tell_end(summary, report)?;
    Ok(summary)
}

/// Writes the head, the closures and the conflicts.
fn tell_opening<L: Report>(
    alloc: Global,
    kb: &Kb,
    closure: &Closure,
    found: &FoundConflicts,
    plan: &Plan,
    report: &mut L,
) -> Result<(), ClassifyFault>
    requires axioms { length kb.now.axioms < 2 ^ 32 }
    requires facts { length kb.now.facts < 2 ^ 32 }
    requires none_torn { L.torn report.old ≡ None }

    ensures written { WritesAll result (L.lines report.old) (L.lines report.new) (L.torn report.new)
        (opening_lines kb.now plan.now closure.now found.now.closures.items found.now.conflicts.clashes) }
    ensures fault { TellsFault (L.faults report.old) (L.faults report.new) (is_report_fault result) }
    ensures same_target { L.target report.new ≡ L.target report.old }
{
    tell_head(kb, plan, report)?;
    tell_block(alloc, Origin::Query, closure.members(), report)?;
    tell_blocks(alloc, found.closures.as_slice(), report)?;
    tell_conflicts(alloc, found.conflicts.clashes(), report)
}

/// Writes the `head` line.
fn tell_head<L: Report>(kb: &Kb, plan: &Plan, report: &mut L) -> Result<(), ClassifyFault>
    requires axioms { length kb.now.axioms < 2 ^ 32 }
    requires facts { length kb.now.facts < 2 ^ 32 }
    requires none_torn { L.torn report.old ≡ None }

    ensures written { WritesAll result (L.lines report.old) (L.lines report.new) (L.torn report.new) (head_line kb.now plan.now ∷ []) }
    ensures fault { TellsFault (L.faults report.old) (L.faults report.new) (is_report_fault result) }
    ensures same_target { L.target report.new ≡ L.target report.old }
{
    report.line(&head_line(kb, *plan))?;
    Ok(())
}

/// The `head` line.
fn head_line(kb: &Kb, plan: Plan) -> Line
    requires axioms { length kb.now.axioms < 2 ^ 32 }
    requires facts { length kb.now.facts < 2 ^ 32 }

    ensures exact { result ≡ head_line kb.now plan }
    ensures form { IsWellFormed result }
{
    Line::Head {
        axioms: kb.axioms().len() as u32,
        budget: plan.budget,
        facts: kb.facts().len() as u32,
        keep: plan.keep,
        repairs: plan.repairs,
        version: VERSION,
    }
}

/// Writes the closures of the disjointnesses.
fn tell_blocks<L: Report>(
    alloc: Global,
    closures: &[(u32, Closure)],
    report: &mut L,
) -> Result<(), ClassifyFault>
    requires none_torn { L.torn report.old ≡ None }

    ensures written { WritesAll result (L.lines report.old) (L.lines report.new) (L.torn report.new) (block_lines closures.now) }
    ensures fault { TellsFault (L.faults report.old) (L.faults report.new) (is_report_fault result) }
    ensures same_target { L.target report.new ≡ L.target report.old }
{
    for closure in closures {
        let origin = Origin::Negative(closure.0);
        tell_block(alloc, origin, closure.1.members(), report)?;
    }
    Ok(())
}

/// Writes the members of a closure.
fn tell_block<L: Report>(
    alloc: Global,
    origin: Origin,
    members: &[Member],
    report: &mut L,
) -> Result<(), ClassifyFault>
    requires none_torn { L.torn report.old ≡ None }

    ensures written { WritesAll result (L.lines report.old) (L.lines report.new) (L.torn report.new) (cq_lines origin members.now) }
    ensures fault { TellsFault (L.faults report.old) (L.faults report.new) (is_report_fault result) }
    ensures same_target { L.target report.new ≡ L.target report.old }
{
    for member in members {
        tell_member(alloc, origin, member, report)?;
    }
    Ok(())
}

/// Writes a `cq` line.
fn tell_member<L: Report>(
    alloc: Global,
    origin: Origin,
    member: &Member,
    report: &mut L,
) -> Result<(), ClassifyFault>
    requires none_torn { L.torn report.old ≡ None }

    ensures written { WritesAll result (L.lines report.old) (L.lines report.new) (L.torn report.new) (cq_line origin member.now ∷ []) }
    ensures fault { TellsFault (L.faults report.old) (L.faults report.new) (is_report_fault result) }
    ensures same_target { L.target report.new ≡ L.target report.old }
{
    let cq = cq_line(alloc, origin, member)?;
    report.line(&cq)?;
    Ok(())
}

/// The `cq` line of a member of a closure.
fn cq_line(alloc: Global, origin: Origin, member: &Member) -> Result<Line, NoMemory>
    ensures exact { IfOk result (λ line. line ≡ cq_line origin member.now) }
    ensures form { IfOk result IsWellFormed }
{
    let query = copied_query(alloc, &member.query)?;
    let step = member.step;
    fit_terms(query.head());
    fit_atoms(query.body());
    fit_origin(origin);
    fit_step(step);
    Ok(Line::Cq {
        origin,
        query,
        step,
    })
}

/// The numbers of each term are below 2^32.
fn fit_terms(terms: &[Term])
    ensures { All IsTermInRange terms.now }
{
    for term in terms {
        fit_term(*term);
    }
}

/// The numbers of each atom are below 2^32.
fn fit_atoms(atoms: &[QAtom])
    ensures { All IsAtomInRange atoms.now }
{
    for atom in atoms {
        fit_atom(*atom);
    }
}

/// The number of the term is below 2^32.
fn fit_term(term: Term)
    ensures { IsTermInRange term }
{
    match term {
        Term::Var(_number) => {}
        Term::Ind(_number) => {}
        Term::Any => {}
    }
}

/// The numbers of the atom are below 2^32.
fn fit_atom(atom: QAtom)
    ensures { IsAtomInRange atom }
{
    match atom {
        QAtom::Concept { pred: _pred, at } => fit_term(at),
        QAtom::Link {
            pred: _pred,
            from,
            to,
        } => {
            fit_term(from);
            fit_term(to);
        }
    }
}

/// The number of the axiom is below 2^32.
fn fit_origin(origin: Origin)
    ensures { IsOriginInRange origin }
{
    match origin {
        Origin::Query => {}
        Origin::Negative(_axiom) => {}
    }
}

/// The number is below 2^32.
fn fit_number(_number: u32)
    ensures { _number < 2 ^ 32 }
{}

/// The numbers of the step are below 2^32.
fn fit_step(step: Option<(u32, Move)>)
    ensures { IfSome step (λ s. (s.0 < 2 ^ 32) × IsMoveInRange s.1) }
{
    match step {
        Some((_place, made_by)) => fit_move(made_by),
        None => {}
    }
}

/// The numbers of the move are below 2^32.
fn fit_move(made_by: Move)
    ensures { IsMoveInRange made_by }
{
    match made_by {
        Move::Axiom {
            atom: _atom,
            axiom: _axiom,
        } => {}
        Move::Reduce {
            first: _first,
            second: _second,
        } => {}
    }
}

/// Writes the conflicts.
fn tell_conflicts<L: Report>(
    alloc: Global,
    clashes: &[Clash],
    report: &mut L,
) -> Result<(), ClassifyFault>
    requires few { All HasOneOrTwo clashes.now }
    requires none_torn { L.torn report.old ≡ None }

    ensures written { WritesAll result (L.lines report.old) (L.lines report.new) (L.torn report.new) (conflict_lines clashes.now) }
    ensures fault { TellsFault (L.faults report.old) (L.faults report.new) (is_report_fault result) }
    ensures same_target { L.target report.new ≡ L.target report.old }
{
    for clash in clashes {
        tell_conflict(alloc, clash, report)?;
    }
    Ok(())
}

/// Writes a `conflict` line.
fn tell_conflict<L: Report>(
    alloc: Global,
    clash: &Clash,
    report: &mut L,
) -> Result<(), ClassifyFault>
    requires few { HasOneOrTwo clash.now }
    requires none_torn { L.torn report.old ≡ None }

    ensures written { WritesAll result (L.lines report.old) (L.lines report.new) (L.torn report.new) (conflict_line clash.now ∷ []) }
    ensures fault { TellsFault (L.faults report.old) (L.faults report.new) (is_report_fault result) }
    ensures same_target { L.target report.new ≡ L.target report.old }
{
    let conflict = conflict_line(alloc, clash)?;
    report.line(&conflict)?;
    Ok(())
}

/// The `conflict` line of a clash.
fn conflict_line(alloc: Global, clash: &Clash) -> Result<Line, NoMemory>
    requires few { HasOneOrTwo clash.now }

    ensures exact { IfOk result (λ line. line ≡ conflict_line clash.now) }
    ensures form { IfOk result IsWellFormed }
{
    let facts = Ids::from_slice(alloc, clash.facts.as_slice())?;
    fit(facts.as_slice());
    fit_number(clash.axiom);
    fit_number(clash.member);
    Ok(Line::Conflict {
        facts,
        axiom: clash.axiom,
        member: clash.member,
    })
}

/// Answers each candidate, and counts the verdicts.
fn answer_each<L: Report>(
    alloc: Global,
    desk: &mut Desk<'_>,
    candidates: &[Candidate],
    individuals: &Names,
    report: &mut L,
) -> Result<Summary, ClassifyFault>
    requires whole { desk.old.failed ≡ false }
    requires may_answer { MayAnswerAll desk.old individuals.now candidates.now }
    requires none_torn { L.torn report.old ≡ None }

    ensures said { IfOk result (IsSummaryOver desk.old.conflicts desk.old.better desk.old.plan candidates.now) }
    ensures right { AnswersAll desk.old desk.new candidates.now individuals.now (L.lines report.old) (L.lines report.new)
        (L.torn report.new) result }
    ensures fault { TellsFault (L.faults report.old) (L.faults report.new) (is_report_fault result) }
    ensures none_torn { OnOk result (L.torn report.new ≡ None) }
    ensures same_target { L.target report.new ≡ L.target report.old }
    ensures same_desk { IsSameDesk desk.old desk.new }
{
    let mut summary = Summary {
        answers: 0,
        brave: 0,
        ar: 0,
        iar: 0,
        undecided: 0,
    };
    for (number, candidate) in candidates.iter().enumerate() {
        let verdicts = answer_next(alloc, desk, number as u32, candidate, individuals, report)?;
        summary.count(verdicts);
    }
    Ok(summary)
}

/// Answers the next candidate, with the texts of its individuals.
fn answer_next<L: Report>(
    alloc: Global,
    desk: &mut Desk<'_>,
    number: u32,
    candidate: &Candidate,
    individuals: &Names,
    report: &mut L,
) -> Result<Verdicts, ClassifyFault>
    requires whole { desk.old.failed ≡ false }
    requires may_answer { MayAnswer desk.old number candidate.now.causes }
    requires named { All (λ i. i < length individuals.now) candidate.now.tuple }
    requires none_torn { L.torn report.old ≡ None }

    ensures truth { IfOk result (TellTruth desk.old candidate.now.tuple candidate.now.causes) }
    ensures over_all { IfOk result (DecideOverAll desk.old candidate.now.causes) }
    ensures by_budget { IfOk result (DecideByBudget desk.old candidate.now.causes) }
    ensures right { AnswersNext desk.old desk.new number candidate.now individuals.now (L.lines report.old) (L.lines report.new)
        (L.torn report.new) result }
    ensures fault { TellsFault (L.faults report.old) (L.faults report.new) (is_report_fault result) }
    ensures none_torn { OnOk result (L.torn report.new ≡ None) }
    ensures same_target { L.target report.new ≡ L.target report.old }
    ensures same_desk { IsSameDesk desk.old desk.new }
    ensures counted { OnOk result (desk.new.answers ≡ desk.old.answers + 1) }
    ensures whole { OnOk result (desk.new.failed ≡ false) }
{
    let names = names_of(alloc, individuals, candidate.tuple.as_slice())?;
    desk.answer(number, candidate, &names, report)
}

/// The texts of the individuals.
fn names_of(alloc: Global, individuals: &Names, tuple: &[u32]) -> Result<Texts, NoMemory>
    requires named { All (λ i. i < length individuals.now) tuple.now }

    ensures exact { IfOk result (λ names. AllZip (λ i text. slice_get individuals.now i ≡ Some text) tuple.now names) }
{
    let mut names = Texts::new(alloc);
    for individual in tuple {
        names.push(String::from_str(alloc, individuals.text(*individual))?)?;
    }
    Ok(names)
}

/// Writes the `end` line.
fn tell_end<L: Report>(summary: Summary, report: &mut L) -> Result<(), ClassifyFault>
    requires none_torn { L.torn report.old ≡ None }

    ensures written { WritesAll result (L.lines report.old) (L.lines report.new) (L.torn report.new) (end_line summary ∷ []) }
    ensures fault { TellsFault (L.faults report.old) (L.faults report.new) (is_report_fault result) }
    ensures same_target { L.target report.new ≡ L.target report.old }
{
    report.line(&Line::End {
        answers: summary.answers,
        brave: summary.brave,
        ar: summary.ar,
        iar: summary.iar,
        undecided: summary.undecided,
    })?;
    Ok(())
}
