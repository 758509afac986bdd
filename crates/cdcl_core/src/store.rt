//! The clauses in an arena, a label for each, and the trail, which counts in how many clauses each variable stands.

ghost use Rattle.std.specs.Prelude.{◌≡◌, ◌<◌, ◌≤◌, ◌-◌, ◌^◌, ◌++◌, ◌∷◌, [], ℕ, List, Some, min, true, false, All, IfErr, filter, length, IfOk, OnOk, OnErr, vec_len, vec_capacity};
ghost use Rattle.clause_arena.specs.State.{Holds, IsLive, AreAscending, with_clause};
ghost use Rattle.cdcl_core.specs.State.{AscendsAs, numbers_in, value_in, put_number};
ghost use Rattle.cdcl_core.specs.Labels.{numbers_on, stays, Drops, DropsIf};
ghost use Rattle.cq_terms.specs.Lists.{IsAscending};
ghost use Rattle.cdcl_core.specs.Store.{AreCounted, AreProper, IsProper, OnlyCounts};
ghost use Rattle.cdcl_core.specs.Shown.{literals_on};
ghost use Rattle.cdcl_core.specs.Changes.{AddsGiven, DropsClauses, IsSameStore, live_in};
ghost use Rattle.clause_meaning.specs.Assignments.{IsInside, Separates};
ghost use Rattle.cdcl_trail.specs.Fits.{IsFalsified};
ghost use Rattle.clause_meaning.specs.Learning.{is_in};
ghost use Rattle.clause_learning.specs.Searching.{IsSearching, Searched};
ghost use Rattle.clause_learning.specs.Lessons.{IsLesson};
ghost use Rattle.std.specs.List.Sorted.{IsSorted};
ghost use Rattle.std.specs.Ordering.{nat_cmp};
ghost use Rattle.proof_logs.specs.Logs.{IsWhole, Appends, TearsAt, Rises};
ghost use Rattle.cdcl_core.specs.State.{LiveIn};
ghost use Rattle.cdcl_core.specs.Learning.{IsRefuted};
ghost use Rattle.cdcl_core.specs.Seeking.{Seeks, StoreStops, LearnsOne, FailsOn, LogTakes, LogRefuses, bare};

use crate::counts::{lower, raise};
use crate::labels::{Label, Selection};
use crate::outcome::SolveFault;
use crate::seeking::{Stop, advance, assert_lesson, begin, lesson_of, prefer};
use cdcl_trail::Trail;
use clause_arena::{Arena, ClauseRef};
use clause_learning::{Lesson, Marks};
use clause_meaning::literal_of;
use cq_terms::{Longs, NoMemory};
use proof_logs::{LogFault, ProofLog};
use std::alloc::Global;
use std::marker::Model;

/// Live clauses with their labels, in the same order, the trail over their variables, and room for marks of their literals.
#[derive(Drop)]
pub struct Store {
    arena: Arena,
    labels: Vec<Label>,
    trail: Trail,
    next: u64,
    marks: Marks,
}

impl Model for Store {
    ghost use Rattle.cdcl_core.specs.Store.{StoreState};

    ghost Value = { StoreState };

    ghost use Rattle.cdcl_core.specs.Shown.{parts_of, StoreIsKept};

    ghost view = { parts_of };

    ghost invariant = { StoreIsKept };
}

impl Store {
    /// A store with no clause.
    pub fn new(alloc: Global, variables: u32) -> Result<Store, NoMemory>
        requires { variables ≤ 2 ^ 31 }
        ensures variables { IfOk result (λ store. store.arena.variables ≡ variables) }
        ensures empty { IfOk result (λ store. store.arena.live ≡ []) }
        ensures labels { IfOk result (λ store. store.labels ≡ []) }
        ensures next { IfOk result (λ store. store.next ≡ 0) }
    {
        Ok(Store {
            arena: Arena::new(alloc, variables)?,
            labels: Vec::new(alloc),
            trail: Trail::new(alloc, variables)?,
            next: 0,
            marks: Marks::new(alloc, variables)?,
        })
    }

    /// How many variables there are.
    pub fn variables(&self) -> u32
        ensures { result ≡ self.now.arena.variables }
    {
        self.arena.variables()
    }

    /// Whether the trail makes the variable present.
    pub fn value(&self, variable: u32) -> bool
        requires { variable < self.now.arena.variables }
        ensures { result ≡ value_in (literals_on self.now.trail.entries) variable }
    {
        let _distinct = self.trail.literals();
        match self.trail.value(literal_of(variable, true)) {
            Some(value) => value,
            None => false,
        }
    }

    /// How many learned clauses there are.
    pub fn learned_live(&self) -> u64
        ensures { result ≡ length (numbers_in (live_in self.now)) }
    {
        learned_count(self.labels.as_slice())
    }

    /// The numbers of the learned clauses.
    pub fn learned_numbers(&self) -> Result<Longs, NoMemory>
        ensures exact { IfOk result (λ numbers. numbers ≡ numbers_in (live_in self.now)) }
        ensures ascending { IsAscending (numbers_in (live_in self.now)) }
    {
        learned_numbers(*self.labels.allocator(), self.labels.as_slice())
    }

    /// Adds a given clause.
    pub fn add_given(&mut self, clause: &[u32]) -> Result<(), NoMemory>
        requires proper { IsProper self.old.arena.variables clause.now }
        ensures added { OnOk result (AddsGiven self.old self.new clause.now) }
        ensures unchanged { OnErr result (IsSameStore self.old self.new) }
    {
        let literals = ascending(*self.labels.allocator(), clause)?;
        self.arena.reserve(literals.len())?;
        self.labels.reserve(1)?;
        put(
            &mut self.arena,
            &mut self.labels,
            &mut self.trail,
            None,
            literals.as_slice(),
        );
        Ok(())
    }

    /// Drops clauses.
    pub fn drop_clauses(&mut self, which: Selection)
        ensures exact { DropsClauses self.old self.new which }
    {
        drop_where(
            &mut self.arena,
            &mut self.trail,
            self.labels.as_mut_slice(),
            which,
        );
        drop_marked(&mut self.labels);
    }

    /// Closes the gaps that dropped clauses left.
    pub fn compact(&mut self)
        ensures exact { IsSameStore self.old self.new }
    {
        let mut none: [ClauseRef; 0] = [];
        self.arena.compact(&mut none);
    }

    /// Begins a search for values of the scope. It answers whether the units of the scope lead to no clash.
    pub fn begin(&mut self, scope: &[u32]) -> bool
        requires ascending { IsAscending scope.now }
        requires in_range { All (λ v. v < self.old.arena.variables) scope.now }
        requires separates { Separates (is_in scope.now) (LiveIn (bare self.old)) }

        ensures shows { bare self.new ≡ bare self.old }
        ensures focus { self.new.trail.focus ≡ scope.now }
        ensures seeks { result ≡ true → (assume : List ℕ) → IsInside (is_in scope.now) assume → Seeks assume self.new.trail self.new.arena 0 }
        ensures refuted { result ≡ false → (assume : List ℕ) → IsRefuted (bare self.new) scope.now assume }
    {
        begin(&mut self.trail, &self.arena, scope)
    }

    /// Goes on with a search until it ends or a clause is falsified above the assumptions.
    pub fn advance(&mut self, assume: &[u32], assumed: u32) -> Stop
        requires seeks { Seeks assume.now self.old.trail self.old.arena assumed }

        ensures shows { bare self.new ≡ bare self.old }
        ensures focus { self.new.trail.focus ≡ self.old.trail.focus }
        ensures stops { StoreStops assume.now self.new result }
    {
        advance(&mut self.trail, &self.arena, assume, assumed)
    }

    /// The level of the search.
    pub fn level(&self) -> u32
        ensures { result ≡ self.now.trail.level }
    {
        self.trail.level()
    }

    /// Learns from a falsified clause: the clause goes to the log first, and then it is live and the search goes back.
    pub fn learn<L: ProofLog>(
        &mut self,
        falsified: ClauseRef,
        log: &mut L,
    ) -> Result<(), SolveFault>
        requires searching { IsSearching self.old.trail self.old.arena }
        requires falsified { IsFalsified self.old.trail self.old.arena falsified }
        requires guessed { 0 < self.old.trail.level }
        requires numbers { self.old.next < 2 ^ 64 - 1 }
        requires whole { IsWhole (L.content log.old) }

        ensures focus { OnOk result (self.new.trail.focus ≡ self.old.trail.focus) }
        ensures seeks { OnOk result ((assume : List ℕ) (assumed : ℕ) → Seeks assume self.old.trail self.old.arena assumed
            → Seeks assume self.new.trail self.new.arena (min assumed self.new.trail.level)) }
        ensures learned { OnOk result (LearnsOne (bare self.old) (bare self.new) self.old.trail.focus
            (L.content log.old) (L.content log.new) (L.faults log.old) (L.faults log.new)) }
        ensures failed { IfErr result (FailsOn (bare self.old) (bare self.new) self.old.trail.focus
            (L.content log.old) (L.content log.new) (L.faults log.old) (L.faults log.new)) }
        ensures leads { L.leads log.old log.new }
    {
        let lesson = prepare(
            &mut self.arena,
            &mut self.labels,
            &self.trail,
            falsified,
            &mut self.marks,
        )?;
        match write_learned(log, self.next, lesson.literals.as_slice()) {
            Ok(()) => {}
            Err(fault) => return Err(fault),
        }
        commit(
            &mut self.arena,
            &mut self.labels,
            &mut self.trail,
            self.next,
            &lesson,
        );
        self.next += 1;
        Ok(())
    }
}

/// What a falsified clause teaches, with room for its clause.
fn prepare(
    arena: &mut Arena,
    labels: &mut Vec<Label>,
    trail: &Trail,
    falsified: ClauseRef,
    marks: &mut Marks,
) -> Result<Lesson, NoMemory>
    requires searching { IsSearching trail.now arena.old }
    requires falsified { IsFalsified trail.now arena.old falsified }
    requires guessed { 0 < trail.now.level }
    requires marks { marks.old ≡ trail.now.variables }

    ensures lesson { IfOk result (λ lesson. IsLesson (Searched trail.now arena.old) trail.now
        lesson.literals.items lesson.asserting lesson.back) }
    ensures ascending { IfOk result (λ lesson. IsSorted nat_cmp lesson.literals.items) }
    ensures spared { IfOk result (λ lesson. length lesson.literals.items ≤ arena.new.spare) }
    ensures room { OnOk result (vec_len labels.new < vec_capacity labels.new) }

    ensures same_clauses { Holds arena.old arena.new arena.old.live }
    ensures same_labels { labels.new.items ≡ labels.old.items }
    ensures marks { marks.new ≡ marks.old }
{
    let lesson = lesson_of(*labels.allocator(), trail, arena, falsified, marks)?;
    arena.reserve(lesson.literals.len())?;
    labels.reserve(1)?;
    Ok(lesson)
}

/// Adds the clause of a lesson, for which there is room, and goes back.
fn commit(
    arena: &mut Arena,
    labels: &mut Vec<Label>,
    trail: &mut Trail,
    number: u64,
    lesson: &Lesson,
)
    requires searching { IsSearching trail.old arena.old }
    requires lesson { IsLesson (Searched trail.old arena.old) trail.old
        lesson.now.literals.items lesson.now.asserting lesson.now.back }
    requires spared { length lesson.now.literals.items ≤ arena.old.spare }
    requires room { vec_len labels.old < vec_capacity labels.old }
    requires same_variables { trail.old.variables ≡ arena.old.variables }
    requires parallel { vec_len labels.old ≡ length arena.old.live }
    requires counted { AreCounted trail.old arena.old.live }
    requires all_proper { AreProper arena.old.variables arena.old.live }

    ensures clause { (reference : ℕ) × Holds arena.old arena.new (with_clause arena.old.live reference lesson.now.literals.items) }
    ensures label { labels.new.items ≡ labels.old.items ++ record { number = Some number; goes = false } ∷ [] }
    ensures counted { AreCounted trail.new arena.new.live }
    ensures variables { trail.new.variables ≡ trail.old.variables }
    ensures focus { trail.new.focus ≡ trail.old.focus }
    ensures seeks { (assume : List ℕ) (assumed : ℕ) → Seeks assume trail.old arena.old assumed
        → Seeks assume trail.new arena.new (min assumed trail.new.level) }
{
    prefer(trail, lesson.literals.as_slice());
    let clause = put(
        arena,
        labels,
        trail,
        Some(number),
        lesson.literals.as_slice(),
    );
    assert_lesson(trail, arena, clause, lesson);
}

/// Gives a clause to a log.
fn write_learned<L: ProofLog>(log: &mut L, number: u64, literals: &[u32]) -> Result<(), SolveFault>
    requires whole { IsWhole (L.content log.old) }

    ensures taken { OnOk result (LogTakes (L.content log.old) (L.content log.new) (L.faults log.old) (L.faults log.new) number literals.now) }
    ensures refused { IfErr result (LogRefuses (L.content log.old) (L.content log.new) (L.faults log.old) (L.faults log.new) number literals.now) }
    ensures leads { L.leads log.old log.new }
{
    match log.learned(number, literals) {
        Ok(()) => Ok(()),
        Err(LogFault::Failed) => Err(SolveFault::Log),
        Err(LogFault::NoMemory) => Err(SolveFault::NoMemory),
    }
}

/// The literals of a clause, ascending.
fn ascending(alloc: Global, clause: &[u32]) -> Result<Vec<u32>, NoMemory>
    ensures { IfOk result (λ literals. AscendsAs clause.now literals.items) }
{
    let mut literals = Vec::from_slice(alloc, clause)?;
    literals.sort_unstable();
    Ok(literals)
}

/// How many labels have a number.
fn learned_count(labels: &[Label]) -> u64
    ensures { result ≡ length (numbers_on labels.now) }
{
    let mut count = 0;
    for label in labels {
        count += label.count();
    }
    count
}

/// The numbers on the labels.
fn learned_numbers(alloc: Global, labels: &[Label]) -> Result<Longs, NoMemory>
    ensures { IfOk result (λ numbers. numbers ≡ numbers_on labels.now) }
{
    let mut numbers = Longs::new(alloc);
    for label in labels {
        push_number(&mut numbers, label.number)?;
    }
    Ok(numbers)
}

/// Appends the number, where there is one.
fn push_number(numbers: &mut Longs, number: Option<u64>) -> Result<(), NoMemory>
    ensures { OnOk result (numbers.new ≡ numbers.old ++ put_number number []) }
{
    match number {
        None => Ok(()),
        Some(number) => numbers.push(number),
    }
}

/// Puts a clause into the arena, with its label, where there is room for both.
fn put(
    arena: &mut Arena,
    labels: &mut Vec<Label>,
    trail: &mut Trail,
    number: Option<u64>,
    literals: &[u32],
) -> ClauseRef
    requires proper { IsProper arena.old.variables literals.now }
    requires spared { length literals.now ≤ arena.old.spare }
    requires room { vec_len labels.old < vec_capacity labels.old }
    requires same_variables { trail.old.variables ≡ arena.old.variables }
    requires parallel { vec_len labels.old ≡ length arena.old.live }
    requires counted { AreCounted trail.old arena.old.live }
    requires all_proper { AreProper arena.old.variables arena.old.live }

    ensures clause { Holds arena.old arena.new (with_clause arena.old.live result.place literals.now) }
    ensures label { labels.new.items ≡ labels.old.items ++ record { number = number; goes = false } ∷ [] }
    ensures counted { AreCounted trail.new arena.new.live }
    ensures only { OnlyCounts trail.old trail.new }
{
    let clause = match arena.push(literals) {
        Ok(clause) => clause,
        Err(NoMemory) => unreachable!(),
    };
    match labels.push(Label {
        number,
        goes: false,
    }) {
        Ok(()) => {}
        Err(_) => unreachable!(),
    }
    raise(trail, literals);
    clause
}

/// Drops the clauses that `which` takes, and marks their labels.
fn drop_where(arena: &mut Arena, trail: &mut Trail, labels: &mut [Label], which: Selection)
    requires same_variables { trail.old.variables ≡ arena.old.variables }
    requires parallel { length labels.old ≡ length arena.old.live }
    requires stay { All (λ label. label.goes ≡ false) labels.old }
    requires counted { AreCounted trail.old arena.old.live }
    requires proper { AreProper arena.old.variables arena.old.live }

    ensures dropped { Drops which labels.old arena.old.live labels.new arena.new.live }
    ensures variables { arena.new.variables ≡ arena.old.variables }
    ensures counted { AreCounted trail.new arena.new.live }
    ensures proper { AreProper arena.new.variables arena.new.live }
    ensures only { OnlyCounts trail.old trail.new }
{
    let mut at = arena.first();
    let mut place = 0;
    while let Some(clause) = at {
        at = arena.next(clause);
        labels[place].goes = drop_if(arena, trail, labels[place].number, clause, which);
        place += 1;
    }
}

/// Takes out the labels of clauses that went.
fn drop_marked(labels: &mut Vec<Label>)
    ensures { labels.new.items ≡ filter stays labels.old.items }
{
    labels.retain(|label| !label.goes);
}

/// Drops a clause where `which` takes it, and answers whether it did.
fn drop_if(
    arena: &mut Arena,
    trail: &mut Trail,
    number: Option<u64>,
    clause: ClauseRef,
    which: Selection,
) -> bool
    requires same_variables { trail.old.variables ≡ arena.old.variables }
    requires live { IsLive arena.old clause.place }
    requires ascending { AreAscending arena.old.live }
    requires counted { AreCounted trail.old arena.old.live }

    ensures exact { DropsIf which number clause.place arena.old.live arena.new.live result }
    ensures variables { arena.new.variables ≡ arena.old.variables }
    ensures counted { AreCounted trail.new arena.new.live }
    ensures only { OnlyCounts trail.old trail.new }
{
    let literals = arena.view(clause);
    if !which.takes(number, literals) {
        return false;
    }
    lower(trail, literals);
    arena.drop_clause(clause);
    true
}
