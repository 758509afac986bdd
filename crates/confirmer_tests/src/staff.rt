//! The report on the staff register, and its alterations: rules that ask for no learned clause.

use crate::registers::Register;
use crate::texts::{are_told, are_told_when_cut};

/// A tuple that is brave and neither AR nor IAR, with the evidence.
pub const REPORT: &str =
    r#"{"axioms":2,"budget":20000,"facts":2,"k":"head","keep":20000,"repairs":"pareto","version":1}
{"body":[["c",1,0]],"head":[0],"k":"cq","move":null,"of":"query","parent":null}
{"body":[["c",0,0]],"head":[0],"k":"cq","move":["axiom",0,0],"of":"query","parent":0}
{"body":[["c",1,0],["c",2,0]],"head":[],"k":"cq","move":null,"of":1,"parent":null}
{"body":[["c",0,0],["c",2,0]],"head":[],"k":"cq","move":["axiom",0,0],"of":1,"parent":0}
{"facts":[0,1],"k":"conflict","member":1,"of":1}
{"candidate":0,"causes":[[0]],"k":"ask","members":[1],"tuple":[0]}
{"assume":[0],"k":"try","q":"brave"}
{"dropped":[1],"k":"core","kept":[0],"n":0}
{"core":0,"how":"model","k":"done"}
{"assume":[1],"k":"try","q":"iar"}
{"dropped":[0],"k":"core","kept":[1],"n":1}
{"core":1,"how":"model","k":"done"}
{"ar":"no","brave":"yes","cores":[0,1],"iar":"no","k":"answer","names":["ann"],"tuple":[0]}
{"answers":1,"ar":0,"brave":1,"iar":0,"k":"end","undecided":0}
"#;

#[test]
fn the_report_is_accepted(rt: HostRuntime) {
    let alloc = rt.alloc();
    are_told(&rt, alloc, Register::Staff, REPORT, &["\n~\n~yes 1"]);
}

#[test]
fn the_text_and_the_order_are_kept(rt: HostRuntime) {
    let alloc = rt.alloc();
    are_told(
        &rt,
        alloc,
        Register::Staff,
        REPORT,
        &[
            "\"budget\"~ \"budget\"~1 text",
            "\"undecided\":0}\n~\"undecided\":0}~15 text",
            "\"undecided\":0}\n~\"undecided\":0}\n\n~16 text",
            // A second head, and a try in a try.
            "{\"body\":[[\"c\",1,0]]~{\"axioms\":2,\"budget\":20000,\"facts\":2,\"k\":\"head\",\"keep\":20000,\"repairs\":\"pareto\",\"version\":1}\n{\"body\":[[\"c\",1,0]]~2 order",
            "{\"dropped\":[1]~{\"assume\":[0],\"k\":\"try\",\"q\":\"brave\"}\n{\"dropped\":[1]~9 order",
            // A block of an axiom that is no disjointness, and one of an axiom that isn't there.
            "\"of\":1~\"of\":0~4 order",
            "\"of\":1~\"of\":2~4 order",
        ],
    );
}

#[test]
fn the_head_and_the_blocks_are_right(rt: HostRuntime) {
    let alloc = rt.alloc();
    are_told(
        &rt,
        alloc,
        Register::Staff,
        REPORT,
        &[
            "\"axioms\":2~\"axioms\":3~1 head",
            "\"axioms\":2~\"axioms\":1~1 head",
            "\"facts\":2~\"facts\":1~1 head",
            "\"facts\":2~\"facts\":3~1 head",
            // Another query, one that no move makes, and one that stands already.
            "[[\"c\",1,0]]~[[\"c\",2,0]]~2 cq",
            "[[\"c\",0,0]]~[[\"c\",2,0]]~3 cq",
            "[\"axiom\",0,0]~[\"axiom\",0,1]~3 cq",
            "[\"axiom\",0,0]~[\"axiom\",1,0]~3 cq",
            "\"parent\":0~\"parent\":1~3 cq",
            "\"move\":[\"axiom\",0,0],\"of\":\"query\",\"parent\":0~\"move\":null,\"of\":\"query\",\"parent\":null~3 cq",
            // A block that is left open, that of the query and that of the disjointness.
            "{\"body\":[[\"c\",0,0]],\"head\":[0],\"k\":\"cq\",\"move\":[\"axiom\",0,0],\"of\":\"query\",\"parent\":0}\n~~3 closed",
            "{\"body\":[[\"c\",0,0],[\"c\",2,0]],\"head\":[],\"k\":\"cq\",\"move\":[\"axiom\",0,0],\"of\":1,\"parent\":0}\n~~5 closed",
        ],
    );
}

#[test]
fn conflicts_and_candidates_are_right(rt: HostRuntime) {
    let alloc = rt.alloc();
    are_told(
        &rt,
        alloc,
        Register::Staff,
        REPORT,
        &[
            // Another conflict, another member, none at all, and one more.
            "\"facts\":[0,1]~\"facts\":[0]~6 conflict",
            "\"member\":1,\"of\":1~\"member\":0,\"of\":1~6 conflict",
            "\"member\":1,\"of\":1~\"member\":2,\"of\":1~6 conflict",
            "\"member\":1,\"of\":1~\"member\":1,\"of\":0~6 conflict",
            "{\"facts\":[0,1],\"k\":\"conflict\",\"member\":1,\"of\":1}\n~~6 conflict",
            "{\"candidate\"~{\"facts\":[0,1],\"k\":\"conflict\",\"member\":1,\"of\":1}\n{\"candidate\"~7 conflict",
            // Another number, tuple, cause and member.
            "\"candidate\":0~\"candidate\":1~7 ask",
            "\"members\":[1],\"tuple\":[0]~\"members\":[1],\"tuple\":[1]~7 ask",
            "[[0]],\"k\":\"ask\"~[[1]],\"k\":\"ask\"~7 ask",
            "[[0]],\"k\":\"ask\"~[],\"k\":\"ask\"~7 ask",
            "[[0]],\"k\":\"ask\"~[[0],[0]],\"k\":\"ask\"~7 ask",
            "\"members\":[1]~\"members\":[0]~7 ask",
            "\"members\":[1]~\"members\":[]~7 ask",
        ],
    );
}

#[test]
fn tries_and_answers_are_right(rt: HostRuntime) {
    let alloc = rt.alloc();
    are_told(
        &rt,
        alloc,
        Register::Staff,
        REPORT,
        &[
            // Assumptions that may not be made, and a question out of its turn.
            "\"assume\":[0]~\"assume\":[2]~8 try",
            "\"assume\":[0]~\"assume\":[]~8 try",
            "\"assume\":[1],\"k\":\"try\",\"q\":\"iar\"~\"assume\":[0],\"k\":\"try\",\"q\":\"brave\"~11 try",
            // No core, in turn: nothing dropped, both kept, kept and dropped, another number.
            "\"dropped\":[1]~\"dropped\":[]~9 core",
            "\"kept\":[0]~\"kept\":[0,1]~9 core",
            "\"kept\":[0]~\"kept\":[]~9 core",
            "\"dropped\":[1]~\"dropped\":[1,2]~9 core",
            "\"n\":0~\"n\":1~9 core",
            "\"n\":1~\"n\":0~12 core",
            // The core shows something else, is none, or nothing is refuted.
            "\"core\":1~\"core\":0~13 done",
            "\"core\":1~\"core\":2~13 done",
            "\"core\":0,\"how\":\"model\"~\"core\":null,\"how\":\"refuted\"~10 done",
            "\"core\":0,\"how\":\"model\"~\"core\":null,\"how\":\"spent\"~10 done",
            // The answer.
            "\"brave\":\"yes\"~\"brave\":\"no\"~14 answer",
            "\"ar\":\"no\"~\"ar\":\"undecided\"~14 answer",
            "\"iar\":\"no\"~\"iar\":\"yes\"~14 answer",
            "\"cores\":[0,1]~\"cores\":[0]~14 answer",
            "\"cores\":[0,1]~\"cores\":[0,1,2]~14 answer",
            "\"cores\":[0,1]~\"cores\":[1,0]~14 answer",
            "[\"ann\"]~[\"bob\"]~14 answer",
            "[\"ann\"],\"tuple\":[0]~[\"bob\"],\"tuple\":[1]~14 answer",
            // The end.
            "\"answers\":1~\"answers\":0~15 end",
            "\"brave\":1~\"brave\":0~15 end",
            "\"ar\":0~\"ar\":1~15 end",
            "\"iar\":0~\"iar\":1~15 end",
            "\"undecided\":0~\"undecided\":1~15 end",
        ],
    );
}

#[test]
fn a_report_ends(rt: HostRuntime) {
    let alloc = rt.alloc();
    are_told_when_cut(
        &rt,
        alloc,
        Register::Staff,
        REPORT,
        &[
            "{\"axioms\"~~1 missing",
            "{\"facts\":[0,1]~~6 missing",
            "{\"answers\"~~15 missing",
            // The candidate is left out.
            "{\"candidate\"~{\"answers\":0,\"ar\":0,\"brave\":0,\"iar\":0,\"k\":\"end\",\"undecided\":0}\n~7 end",
        ],
    );
}

#[test]
fn a_settled_question_is_not_tried(rt: HostRuntime) {
    let alloc = rt.alloc();
    // The core of the IAR try drops the fact of the one cause, so AR is settled too.
    are_told(
        &rt,
        alloc,
        Register::Staff,
        REPORT,
        &[
            "{\"ar\"~{\"assume\":[4],\"k\":\"try\",\"q\":\"ar\"}\n{\"core\":1,\"how\":\"model\",\"k\":\"done\"}\n{\"ar\"~14 try",
        ],
    );
}

// Reports that differ from what is written here elsewhere, and are as good.
#[test]
fn other_reports_are_accepted(rt: HostRuntime) {
    let alloc = rt.alloc();
    are_told(
        &rt,
        alloc,
        Register::Staff,
        REPORT,
        &[
            // No clause is learned, so the budget and the number of kept clauses play no part.
            "\"budget\":20000~\"budget\":0~yes 1",
            "\"keep\":20000~\"keep\":0~yes 1",
            // There is no pair, so all repairs are the chosen ones.
            "\"pareto\"~\"all\"~yes 1",
            // The core that shows that AR is no shows that IAR is no.
            "\"assume\":[1],\"k\":\"try\",\"q\":\"iar\"~\"assume\":[4],\"k\":\"try\",\"q\":\"ar\"~yes 1",
        ],
    );
}
