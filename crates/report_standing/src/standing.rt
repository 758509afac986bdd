//! What is kept of the lines so far.

ghost use Rattle.std.specs.Prelude.{◌≡◌, ◌<◌, ◌+◌, ◌^◌, ◌∷◌, [], ℕ, List, IfOk, OnOk, length, MatchOption, Option};
ghost use Rattle.report_laws.specs.HitLaws.{negative_members};
ghost use Rattle.cq_steps.specs.declared.moves.Move.{Move};
ghost use Rattle.report_text.specs.declared.line.Origin.TheVariants as origin;
ghost use Rattle.report_laws.specs.Standing.{after, standing_of, members_at};

use cq_terms::{Cq, IdLists, Ids, NoMemory, Repairs};
use report_parts::{Block, Core, EndedTry, add_query, find_block, negative_queries};
use report_rules::Place;
use report_text::{Line, Origin, Question};
use std::alloc::Global;
use std::marker::Model;

/// A learned clause that lives, with its number.
#[derive(Drop)]
pub struct Learned {
    pub(crate) number: u64,
    pub(crate) clause: Ids,
}

impl Model for Learned {
    ghost use Rattle.report_rules.specs.Live.{Learned};

    ghost Value = { Learned };

    ghost view = { λ a. record { number = a.number; clause = a.clause } };
}

/// The candidate that was asked last.
#[derive(Drop)]
pub struct Asked {
    pub(crate) candidate: u32,
    pub(crate) tuple: Ids,
    pub(crate) causes: IdLists,
}

impl Model for Asked {
    ghost use Rattle.report_rules.specs.Tries.{Asked};

    ghost Value = { Asked };

    ghost view = { λ a. record { candidate = a.candidate; tuple = a.tuple; causes = a.causes } };
}

/// What is kept of the lines so far.
#[derive(Drop)]
pub struct Standing {
    pub(crate) place: Place,
    pub(crate) repairs: Repairs,
    pub(crate) budget: u64,
    pub(crate) keep: u64,
    pub(crate) blocks: Vec<Block>,
    pub(crate) told: u64,
    pub(crate) ends: u64,
    pub(crate) asked: Asked,
    pub(crate) question: Question,
    pub(crate) assumed: Ids,
    pub(crate) ended: Vec<EndedTry>,
    pub(crate) named: Vec<u64>,
    pub(crate) cores: Vec<Core>,
    pub(crate) learned: Vec<Learned>,
    pub(crate) learn_lines: u64,
    pub(crate) in_brave: u64,
    pub(crate) in_iar: u64,
    pub(crate) in_ar: u64,
    pub(crate) answers: u64,
    pub(crate) brave: u64,
    pub(crate) ar: u64,
    pub(crate) iar: u64,
    pub(crate) undecided: u64,
    pub(crate) total: u64,
}

impl Model for Standing {
    ghost use Rattle.report_laws.specs.Standing.{Standing};
    ghost use Rattle.report_parts.specs.Blocks.{AreApart};

    ghost Value = { Standing };

    ghost view = { λ a. record {
      place = a.place;
      repairs = a.repairs;
      budget = a.budget;
      keep = a.keep;
      blocks = a.blocks.items;
      told = a.told;
      ends = a.ends;
      asked = a.asked;
      question = a.question;
      assumed = a.assumed;
      ended = a.ended.items;
      named = a.named.items;
      cores = a.cores.items;
      learned = a.learned.items;
      learn_lines = a.learn_lines;
      in_brave = a.in_brave;
      in_iar = a.in_iar;
      in_ar = a.in_ar;
      answers = a.answers;
      brave = a.brave;
      ar = a.ar;
      iar = a.iar;
      undecided = a.undecided;
      total = a.total;
    } };

    ghost invariant = { λ a. AreApart a.blocks.items };
}

impl Standing {
    /// What is kept of no lines.
    pub fn new(alloc: Global) -> Standing
        ensures exact { (facts : ℕ) → result ≡ standing_of facts [] }
    {
        Standing {
            place: Place::AtStart,
            repairs: Repairs::All,
            budget: 0,
            keep: 0,
            blocks: Vec::new(alloc),
            told: 0,
            ends: 0,
            asked: Asked {
                candidate: 0,
                tuple: Ids::new(alloc),
                causes: IdLists::new(alloc),
            },
            question: Question::Brave,
            assumed: Ids::new(alloc),
            ended: Vec::new(alloc),
            named: Vec::new(alloc),
            cores: Vec::new(alloc),
            learned: Vec::new(alloc),
            learn_lines: 0,
            in_brave: 0,
            in_iar: 0,
            in_ar: 0,
            answers: 0,
            brave: 0,
            ar: 0,
            iar: 0,
            undecided: 0,
            total: 0,
        }
    }

    /// Where the lines leave the report.
    pub fn place(&self) -> Place
        ensures exact { result ≡ self.now.place }
    {
        self.place
    }

    /// How many answers the report has told.
    pub fn total(&self) -> u64
        ensures exact { result ≡ self.now.total }
    {
        self.total
    }

    /// How many conflicts are told.
    pub fn told(&self) -> u64
        ensures exact { result ≡ self.now.told }
    {
        self.told
    }

    /// How many queries are done with.
    pub fn ends(&self) -> u64
        ensures exact { result ≡ self.now.ends }
    {
        self.ends
    }

    /// How many candidates of the query are answered.
    pub fn answers(&self) -> u64
        ensures exact { result ≡ self.now.answers }
    {
        self.answers
    }

    /// Which repairs are asked about.
    pub fn repairs(&self) -> Repairs
        ensures exact { result ≡ self.now.repairs }
    {
        self.repairs
    }

    /// The block of the origin, or `None` where there is none. It is found by halving where the blocks are in the order of their axioms.
    pub fn block(&self, origin: Origin) -> Option<&Block>
        ensures exact { MatchOption result (members_at self.now.blocks origin ≡ [])
            (λ b. members_at self.now.blocks origin ≡ b.now.members) }
    {
        find_block(self.blocks.as_slice(), origin)
    }

    /// Lends the queries of the query's block.
    pub fn query_members(&self) -> &[Cq]
        ensures lent { result.now ≡ members_at self.now.blocks origin.Query }
    {
        match self.block(Origin::Query) {
            Some(block) => block.members(),
            None => &[],
        }
    }

    /// Copies of the queries of the blocks of all disjointnesses.
    pub fn negative_queries(&self, alloc: Global) -> Result<Vec<Cq>, NoMemory>
        ensures exact { IfOk result (λ queries. queries.items ≡ negative_members self.now.blocks) }
    {
        negative_queries(alloc, self.blocks.as_slice())
    }

    /// Takes a head.
    pub fn take_head(&mut self, budget: u64, keep: u64, repairs: Repairs)
        ensures exact { (facts axioms count version : ℕ)
            → self.new ≡ after facts self.old (Line.Head axioms budget count keep repairs version) }
    {
        self.place = Place::AfterHead;
        self.repairs = repairs;
        self.budget = budget;
        self.keep = keep;
    }

    /// Takes a query of a block.
    pub fn take_cq(&mut self, alloc: Global, origin: Origin, query: Cq) -> Result<(), NoMemory>
        ensures exact { OnOk result ((facts : ℕ) (step : Option (ℕ × Move))
            → self.new ≡ after facts self.old (Line.Cq origin query step)) }
    {
        add_query(alloc, &mut self.blocks, origin, query)?;
        self.place = Place::InBlock(origin);
        Ok(())
    }

    /// Takes a `conflict` line.
    pub fn take_conflict(&mut self)
        requires room { self.old.told + 1 < 2 ^ 64 }

        ensures exact { (facts : ℕ) (numbers : List ℕ) (rule member : ℕ)
            → self.new ≡ after facts self.old (Line.Conflict numbers rule member) }
    {
        self.place = Place::InConflicts;
        self.told += 1;
    }

    /// Takes an `ask` line.
    pub fn take_ask(&mut self, candidate: u32, tuple: Ids, causes: IdLists)
        ensures exact { (facts : ℕ) (members : List ℕ)
            → self.new ≡ after facts self.old (Line.Ask candidate tuple causes members) }
    {
        self.place = Place::InAnswer;
        self.asked = Asked {
            candidate,
            tuple,
            causes,
        };
        self.ended.clear();
        self.named.clear();
        self.in_brave = 0;
        self.in_iar = 0;
        self.in_ar = 0;
    }

    /// Takes a `try` line.
    pub fn take_try(&mut self, question: Question, assume: Ids)
        ensures exact { (facts : ℕ) → self.new ≡ after facts self.old (Line.Try question assume) }
    {
        self.place = Place::InTry;
        self.question = question;
        self.assumed = assume;
    }

    /// Takes a `core` line.
    pub fn take_core(&mut self, kept: Ids, dropped: Ids) -> Result<(), NoMemory>
        ensures exact { OnOk result ((facts number : ℕ) → self.new ≡ after facts self.old (Line.Core number kept dropped)) }
    {
        self.cores.push(Core::new(kept, dropped))?;
        self.place = Place::AfterCore;
        Ok(())
    }
}
