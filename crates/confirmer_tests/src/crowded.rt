//! A report with learned clauses, a try that is spent, tries that end refuted and clauses that are forgotten; and its alterations.

use crate::registers::Register;
use crate::texts::{are_told, are_told_when_cut};

/// Two answers: of the one IAR is left open and AR is yes, of the other all is yes.
pub const REPORT: &str =
    r#"{"axioms":5,"budget":1,"facts":5,"k":"head","keep":0,"repairs":"pareto","version":1}
{"body":[["c",0,0]],"head":[0],"k":"cq","move":null,"of":"query","parent":null}
{"body":[["c",0,0],["c",1,0]],"head":[],"k":"cq","move":null,"of":0,"parent":null}
{"body":[["c",0,0],["c",2,0]],"head":[],"k":"cq","move":null,"of":1,"parent":null}
{"body":[["c",1,0],["c",2,0]],"head":[],"k":"cq","move":null,"of":2,"parent":null}
{"body":[["c",1,0],["c",3,0]],"head":[],"k":"cq","move":null,"of":3,"parent":null}
{"body":[["c",2,0],["c",3,0]],"head":[],"k":"cq","move":null,"of":4,"parent":null}
{"facts":[0,1],"k":"conflict","member":0,"of":0}
{"facts":[0,2],"k":"conflict","member":0,"of":1}
{"facts":[1,2],"k":"conflict","member":0,"of":2}
{"facts":[1,3],"k":"conflict","member":0,"of":3}
{"facts":[2,3],"k":"conflict","member":0,"of":4}
{"candidate":0,"causes":[[0]],"k":"ask","members":[0],"tuple":[0]}
{"assume":[1],"k":"try","q":"iar"}
{"clause":[5,6],"k":"learn","n":0}
{"core":null,"how":"spent","k":"done"}
{"assume":[10],"k":"try","q":"ar"}
{"clause":[3],"k":"learn","n":1}
{"core":null,"how":"refuted","k":"done"}
{"ar":"yes","brave":"yes","cores":[],"iar":"undecided","k":"answer","names":["ann"],"tuple":[0]}
{"clauses":[0,1],"k":"forget"}
{"candidate":1,"causes":[[4]],"k":"ask","members":[0],"tuple":[1]}
{"assume":[9],"k":"try","q":"iar"}
{"core":null,"how":"refuted","k":"done"}
{"ar":"yes","brave":"yes","cores":[],"iar":"yes","k":"answer","names":["bob"],"tuple":[1]}
{"answers":2,"ar":2,"brave":2,"iar":1,"k":"end","undecided":1}
"#;

#[test]
fn the_report_is_accepted(rt: HostRuntime) {
    let alloc = rt.alloc();
    are_told(&rt, alloc, Register::Crowd, REPORT, &["\n~\n~yes 2"]);
}

#[test]
fn learned_clauses_are_right(rt: HostRuntime) {
    let alloc = rt.alloc();
    are_told(
        &rt,
        alloc,
        Register::Crowd,
        REPORT,
        &[
            // It doesn't follow, isn't in order, has another number, speaks of what it may not, or is there already.
            "\"clause\":[5,6]~\"clause\":[0]~15 learn",
            "\"clause\":[5,6]~\"clause\":[6,5]~15 learn",
            "\"clause\":[5,6]~\"clause\":[]~15 learn",
            "\"clause\":[5,6]~\"clause\":[5,8]~15 learn",
            "\"clause\":[5,6]~\"clause\":[5,7]~15 learn",
            "\"n\":0~\"n\":1~15 learn",
            // It is more than the budget allows.
            "{\"core\":null,\"how\":\"spent\"~{\"clause\":[3],\"k\":\"learn\",\"n\":1}\n{\"core\":null,\"how\":\"spent\"~16 learn",
            "\"budget\":1~\"budget\":0~15 learn",
        ],
    );
}

#[test]
fn ends_of_tries_are_right(rt: HostRuntime) {
    let alloc = rt.alloc();
    are_told_when_cut(
        &rt,
        alloc,
        Register::Crowd,
        REPORT,
        &[
            "{\"clause\":[5,6]~{\"core\":null,\"how\":\"refuted\",\"k\":\"done\"}\n~15 done",
            "{\"clause\":[5,6]~{\"core\":null,\"how\":\"spent\",\"k\":\"done\"}\n~15 done",
            "{\"clause\":[3]~{\"core\":null,\"how\":\"refuted\",\"k\":\"done\"}\n~18 done",
            // A try comes once, and IAR not behind AR.
            "{\"assume\":[10]~{\"assume\":[1],\"k\":\"try\",\"q\":\"iar\"}\n~17 try",
        ],
    );
}

#[test]
fn answers_and_forgotten_clauses_are_right(rt: HostRuntime) {
    let alloc = rt.alloc();
    are_told(
        &rt,
        alloc,
        Register::Crowd,
        REPORT,
        &[
            "\"iar\":\"undecided\"~\"iar\":\"yes\"~20 answer",
            "\"iar\":\"undecided\"~\"iar\":\"no\"~20 answer",
            "\"clauses\":[0,1]~\"clauses\":[2]~21 forget",
            "\"clauses\":[0,1]~\"clauses\":[1,0]~21 forget",
            "\"keep\":0~\"keep\":2~21 forget",
            "\"iar\":1,\"k\":\"end\"~\"iar\":2,\"k\":\"end\"~26 end",
            "\"undecided\":1~\"undecided\":0~26 end",
            // A head may allow more than is used, and fewer clauses may be forgotten.
            "\"clauses\":[0,1]~\"clauses\":[]~yes 2",
            "\"clauses\":[0,1]~\"clauses\":[1]~yes 2",
            "{\"clauses\":[0,1],\"k\":\"forget\"}\n~~yes 2",
        ],
    );
}

#[test]
fn a_cycle_is_found_behind_the_last_conflict(rt: HostRuntime) {
    let alloc = rt.alloc();
    are_told(
        &rt,
        alloc,
        Register::CrowdInACycle,
        REPORT,
        &[
            "\n~\n~cycle of 3",
            // A line that is broken before the last conflict comes first.
            "\"facts\":[2,3]~\"facts\":[2,4]~12 conflict",
            // Over all repairs the cycle plays no part: C(a) may be present without D(a), so the first clause doesn't follow.
            "\"pareto\"~\"all\"~15 learn",
        ],
    );
}
