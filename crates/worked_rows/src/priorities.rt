//! Rows on priorities between facts.

use crate::tables::decides;
use cqapri_cli::Status;
use memory_runs::{STAFF, Texts, classified};
use std::test::Fail;

/// Two watchers of one fact, which no chosen repair has.
pub(crate) const WATCHERS: Texts<'static> = Texts {
    ontology: "X1 < not F\nX1 < not P\nX1 < not Q\nX2 < not F\nX2 < not R\nX2 < not T\nP < not R\nP < not T\nQ < not R\nQ < not T\n",
    facts: "F,c\nX1,c\nX2,c\nP,c\nQ,c\nR,c\nT,c\nWatcher,k1\nWatcher,k2\n",
    priority: "2,1\n3,1\n",
    query: "?x <- Watcher(?x), F('c')",
};

#[test]
fn the_better_fact_is_in_each_chosen_repair(rt: HostRuntime) {
    let alloc = rt.alloc();
    let texts = Texts {
        priority: "1,2\n",
        ..STAFF
    };
    decides(&rt, alloc, &texts, &[], "ann,yes,yes,yes\n");
    let all = ["--repairs", "all"];
    decides(&rt, alloc, &texts, &all, "ann,yes,no,no\n");
}

#[test]
fn each_of_two_facts_is_blocked_by_one_that_is_not_worse(rt: HostRuntime) {
    let texts = Texts {
        ontology: "A1 < not B1\nA1 < not B2\nA2 < not B1\nA2 < not B2\n",
        facts: "A1,c\nA2,c\nB1,c\nB2,c\n",
        priority: "3,1\n4,2\n",
        query: "?x <- A1(?x)\n",
    };
    decides(&rt, rt.alloc(), &texts, &[], "c,yes,no,no\n");
}

#[test]
fn pairs_of_facts_without_a_conflict_have_no_effect(rt: HostRuntime) {
    let texts = Texts {
        ontology: "",
        facts: "A,a\nB,b\n",
        priority: "1,2\n2,1\n",
        query: "?x <- A(?x)\n",
    };
    decides(&rt, rt.alloc(), &texts, &[], "a,yes,yes,yes\n");
}

#[test]
fn a_cycle_is_told_with_its_facts(rt: HostRuntime) -> Result<(), Fail> {
    let alloc = rt.alloc();
    let texts = Texts {
        priority: "1,2\n2,1\n",
        ..STAFF
    };
    let cycle = "cqapri: priority: cycle: Prof(ann), Student(ann)\n";
    let ended = classified(alloc, &texts, &[])?;
    assert!(rt; ended.is(Status::Refused, "", cycle));
    let all = ["--repairs", "all"];
    decides(&rt, alloc, &texts, &all, "ann,yes,no,no\n");
    Ok(())
}

#[test]
fn a_cycle_of_links_is_told_by_both_individuals(rt: HostRuntime) -> Result<(), Fail> {
    let texts = Texts {
        ontology: "role P < not inv P\n",
        facts: "P,a,b\nP,b,a\n",
        priority: "1,2\n2,1\n",
        query: "<- P(?x,?y)\n",
    };
    let ended = classified(rt.alloc(), &texts, &[])?;
    let cycle = "cqapri: priority: cycle: P(a,b), P(b,a)\n";
    assert!(rt; ended.is(Status::Refused, "", cycle));
    Ok(())
}

/// Three records of two facts.
pub(crate) const QUOTED: Texts<'static> = Texts {
    ontology: "",
    facts: "A,\"Lee, Ann\"\r\nB,bob\r\nA,\"Lee, Ann\"\r\n",
    priority: "3,2\n",
    query: "?x <- A(?x)\n",
};

#[test]
fn records_of_one_fact_are_one_in_the_priority(rt: HostRuntime) {
    decides(&rt, rt.alloc(), &QUOTED, &[], "\"Lee, Ann\",yes,yes,yes\n");
}

#[test]
fn what_is_learned_for_one_answer_serves_the_next(rt: HostRuntime) {
    let alloc = rt.alloc();
    decides(&rt, alloc, &WATCHERS, &[], "k1,no,no,no\nk2,no,no,no\n");
    let all = ["--repairs", "all"];
    decides(&rt, alloc, &WATCHERS, &all, "k1,yes,no,no\nk2,yes,no,no\n");
}
