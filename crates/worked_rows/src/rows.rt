//! Rows on queries, axioms and facts without a priority.

use crate::tables::{decides, leaves_open};
use cqapri_cli::Status;
use memory_runs::{STAFF, Texts, classified};
use std::test::Fail;

/// Two registered pairs of low and high, each of which excludes the other.
pub(crate) const PAIRS: Texts<'static> = Texts {
    ontology: "Low < not High\nLow < Rated\nHigh < Rated\n",
    facts: "Low,u\nHigh,u\nLow,w\nHigh,w\n",
    priority: "",
    query: "<- Rated('u'), Rated('w')",
};

/// One fact that is inconsistent alone, by an individual without a name.
pub(crate) const ALONE: Texts<'static> = Texts {
    ontology: "A < some P\nsome inv P < B\nsome inv P < not B\n",
    facts: "A,a\n",
    priority: "",
    query: "?x <- A(?x)\n",
};

#[test]
fn without_facts_there_is_no_answer(rt: HostRuntime) -> Result<(), Fail> {
    let texts = Texts {
        ontology: "",
        facts: "",
        priority: "",
        query: "?x <- A(?x)",
    };
    let ended = classified(rt.alloc(), &texts, &[])?;
    let report =
        r#"{"axioms":0,"budget":20000,"facts":0,"k":"head","keep":20000,"repairs":"pareto","version":1}
{"body":[["c",0,0]],"head":[0],"k":"cq","move":null,"of":"query","parent":null}
{"answers":0,"ar":0,"brave":0,"iar":0,"k":"end","undecided":0}
"#;
    assert!(rt; ended.is(Status::Done, report, ""));
    Ok(())
}

#[test]
fn a_query_without_a_head_has_one_answer(rt: HostRuntime) {
    let texts = Texts {
        ontology: "",
        facts: "A,a\n",
        priority: "",
        query: "<- A(?x)",
    };
    decides(&rt, rt.alloc(), &texts, &[], "yes,yes,yes\n");
}

#[test]
fn a_conflict_leaves_a_candidate_to_some_repairs(rt: HostRuntime) {
    decides(&rt, rt.alloc(), &STAFF, &[], "ann,yes,no,no\n");
}

#[test]
fn each_repair_may_have_a_cause_of_its_own(rt: HostRuntime) {
    let texts = Texts {
        ontology: "Prof < Staff\nStudent < not Staff\nProf < Person\nStudent < Person\n",
        query: "?x <- Person(?x)\n",
        ..STAFF
    };
    decides(&rt, rt.alloc(), &texts, &[], "ann,yes,yes,no\n");
}

#[test]
fn a_fact_that_is_inconsistent_alone_is_in_no_repair(rt: HostRuntime) {
    decides(&rt, rt.alloc(), &ALONE, &[], "a,no,no,no\n");
}

#[test]
fn roles_and_their_inverses_conflict(rt: HostRuntime) {
    let texts = Texts {
        ontology: "role P < not inv P\n",
        facts: "P,a,a\nP,a,b\nP,b,a\n",
        priority: "",
        query: "?x ?y <- P(?x,?y)\n",
    };
    let table = "a,a,no,no,no\na,b,yes,no,no\nb,a,yes,no,no\n";
    decides(&rt, rt.alloc(), &texts, &[], table);
}

#[test]
fn what_only_exists_joins_with_itself(rt: HostRuntime) {
    let alloc = rt.alloc();
    let texts = Texts {
        ontology: "A < some P\n",
        facts: "A,a\n",
        priority: "",
        query: "?x <- P(?x,?y), P(?z,?y)\n",
    };
    decides(&rt, alloc, &texts, &[], "a,yes,yes,yes\n");
    let both = Texts {
        query: "?x ?z <- P(?x,?y), P(?z,?y)\n",
        ..texts
    };
    decides(&rt, alloc, &both, &[], "a,a,yes,yes,yes\n");
}

#[test]
fn a_question_without_a_budget_is_left_open(rt: HostRuntime) {
    let alloc = rt.alloc();
    leaves_open(&rt, alloc, &PAIRS, &["--budget", "0"], "yes,undecided,no\n");
    decides(&rt, alloc, &PAIRS, &["--budget", "1"], "yes,yes,no\n");
}

#[test]
fn a_direct_core_takes_no_budget(rt: HostRuntime) {
    let texts = Texts {
        query: "<- Low(?x)",
        ..PAIRS
    };
    decides(&rt, rt.alloc(), &texts, &["--budget", "0"], "yes,no,no\n");
}

#[test]
fn a_query_over_predicates_without_facts_has_no_answer(rt: HostRuntime) {
    let texts = Texts {
        query: "?x <- Missing(?x), link(?x,?y)\n",
        ..STAFF
    };
    decides(&rt, rt.alloc(), &texts, &[], "");
}
