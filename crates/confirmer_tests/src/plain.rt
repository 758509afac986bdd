//! Reports without a conflict of two facts: on no fact, on one fact, and on one that is self-inconsistent.

use crate::registers::Register;
use crate::texts::{are_told, are_told_when_cut};

// No candidate.
const EMPTY: &str =
    r#"{"axioms":0,"budget":0,"facts":0,"k":"head","keep":0,"repairs":"all","version":1}
{"body":[["c",0,0]],"head":[0],"k":"cq","move":null,"of":"query","parent":null}
{"answers":0,"ar":0,"brave":0,"iar":0,"k":"end","undecided":0}
"#;

// One candidate, which the table entails whatever the repair.
const PLAIN: &str =
    r#"{"axioms":0,"budget":0,"facts":1,"k":"head","keep":0,"repairs":"all","version":1}
{"body":[["c",0,0]],"head":[0],"k":"cq","move":null,"of":"query","parent":null}
{"candidate":0,"causes":[[0]],"k":"ask","members":[0],"tuple":[0]}
{"assume":[1],"k":"try","q":"iar"}
{"core":null,"how":"refuted","k":"done"}
{"ar":"yes","brave":"yes","cores":[],"iar":"yes","k":"answer","names":["ann"],"tuple":[0]}
{"answers":1,"ar":1,"brave":1,"iar":1,"k":"end","undecided":0}
"#;

// One candidate, whose only fact no repair has: it has no cause, and so nothing is left to try.
const SPY: &str =
    r#"{"axioms":1,"budget":0,"facts":1,"k":"head","keep":0,"repairs":"all","version":1}
{"body":[["c",0,0]],"head":[0],"k":"cq","move":null,"of":"query","parent":null}
{"body":[["c",0,null]],"head":[],"k":"cq","move":null,"of":0,"parent":null}
{"facts":[0],"k":"conflict","member":0,"of":0}
{"candidate":0,"causes":[],"k":"ask","members":[],"tuple":[0]}
{"ar":"no","brave":"no","cores":[],"iar":"no","k":"answer","names":["ann"],"tuple":[0]}
{"answers":1,"ar":0,"brave":0,"iar":0,"k":"end","undecided":0}
"#;

#[test]
fn a_report_on_no_fact_has_no_answer(rt: HostRuntime) {
    let alloc = rt.alloc();
    are_told(
        &rt,
        alloc,
        Register::Empty,
        EMPTY,
        &[
            "\n~\n~yes 0",
            // There is no pair, so either mode will do.
            "\"all\"~\"pareto\"~yes 0",
            "\"facts\":0~\"facts\":1~1 head",
            // Nothing was learned that might be forgotten.
            "{\"answers\"~{\"clauses\":[],\"k\":\"forget\"}\n{\"answers\"~3 forget",
            "{\"answers\"~{\"candidate\":0,\"causes\":[],\"k\":\"ask\",\"members\":[],\"tuple\":[0]}\n{\"answers\"~3 ask",
            "\"answers\":0~\"answers\":1~3 end",
        ],
    );
}

#[test]
fn a_report_of_no_lines_misses_its_first(rt: HostRuntime) {
    let alloc = rt.alloc();
    are_told_when_cut(
        &rt,
        alloc,
        Register::Empty,
        EMPTY,
        &["{\"axioms\"~~1 missing"],
    );
}

#[test]
fn a_fact_without_conflict_is_in_all_repairs(rt: HostRuntime) {
    let alloc = rt.alloc();
    are_told(
        &rt,
        alloc,
        Register::Plain,
        PLAIN,
        &[
            "\n~\n~yes 1",
            // The clauses refute the assumption at once, so nothing is spent and no core shows it.
            "\"refuted\"~\"spent\"~5 done",
            "{\"core\":null~{\"dropped\":[0],\"k\":\"core\",\"kept\":[],\"n\":0}\n{\"core\":null~5 core",
            // That no repair lacks the tuple settles AR, and not IAR.
            "\"assume\":[1],\"k\":\"try\",\"q\":\"iar\"~\"assume\":[2],\"k\":\"try\",\"q\":\"ar\"~6 answer",
            // A core that a try names belongs to the answer.
            "{\"assume\":[1]~{\"assume\":[0],\"k\":\"try\",\"q\":\"brave\"}\n{\"dropped\":[],\"k\":\"core\",\"kept\":[0],\"n\":0}\n{\"core\":0,\"how\":\"model\",\"k\":\"done\"}\n{\"assume\":[1]~9 answer",
            // A fact in no conflict may not stand in a learned clause.
            "{\"core\":null~{\"clause\":[0],\"k\":\"learn\",\"n\":0}\n{\"core\":null~5 learn",
            "\"ar\":\"yes\"~\"ar\":\"no\"~6 answer",
        ],
    );
}

#[test]
fn a_self_inconsistent_fact_is_in_no_repair(rt: HostRuntime) {
    let alloc = rt.alloc();
    are_told(
        &rt,
        alloc,
        Register::Spy,
        SPY,
        &[
            "\n~\n~yes 1",
            // The query of the disjointness is normal: its atoms are one, whose variable joins nothing.
            "[[\"c\",0,null]]~[[\"c\",0,0]]~3 cq",
            // It is a conflict, and no cause.
            "{\"facts\":[0],\"k\":\"conflict\",\"member\":0,\"of\":0}\n~~4 conflict",
            "\"member\":0~\"member\":1~4 conflict",
            "\"causes\":[],\"k\":\"ask\",\"members\":[]~\"causes\":[[0]],\"k\":\"ask\",\"members\":[0]~5 ask",
            "{\"ar\"~{\"assume\":[0],\"k\":\"try\",\"q\":\"brave\"}\n{\"ar\"~6 try",
            "\"brave\":\"no\"~\"brave\":\"yes\"~6 answer",
        ],
    );
}
