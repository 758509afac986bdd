//! Reports whose lines are written otherwise than they are to be: numbers, blanks, keys, words and ends of lines.

use crate::registers::Register;
use crate::texts::{are_told, are_told_when_cut};
use crate::{crowded, staff};

#[test]
fn numbers_of_the_sizes_are_in_range(rt: HostRuntime) {
    are_told(
        &rt,
        rt.alloc(),
        Register::Staff,
        staff::REPORT,
        &[
            // No zero in front, no sign, no part, no text, and no more than 32 bits, not even where the low ones are right.
            "\"axioms\":2~\"axioms\":02~1 text",
            "\"axioms\":2~\"axioms\":0000000000000000000000002~1 text",
            "\"axioms\":2~\"axioms\":-2~1 text",
            "\"axioms\":2~\"axioms\":+2~1 text",
            "\"axioms\":2~\"axioms\":2.0~1 text",
            "\"axioms\":2~\"axioms\":2e0~1 text",
            "\"axioms\":2~\"axioms\":\"2\"~1 text",
            "\"axioms\":2~\"axioms\":null~1 text",
            "\"axioms\":2~\"axioms\":4294967298~1 text",
            "\"axioms\":2~\"axioms\":4294967296~1 text",
            "\"axioms\":2~\"axioms\":4294967295~1 head",
            "\"facts\":2~\"facts\":02~1 text",
            "\"facts\":2~\"facts\":18446744073709551618~1 text",
        ],
    );
}

#[test]
fn options_have_64_bits(rt: HostRuntime) {
    are_told(
        &rt,
        rt.alloc(),
        Register::Staff,
        staff::REPORT,
        &[
            "\"budget\":20000~\"budget\":18446744073709551615~yes 1",
            "\"budget\":20000~\"budget\":18446744073709551616~1 text",
            "\"budget\":20000~\"budget\":020000~1 text",
            "\"budget\":20000~\"budget\":-1~1 text",
            "\"keep\":20000~\"keep\":18446744073709551615~yes 1",
            "\"keep\":20000~\"keep\":18446744073709571616~1 text",
            "\"keep\":20000~\"keep\":2e4~1 text",
        ],
    );
}

#[test]
fn numbers_of_blocks_and_conflicts_are_in_range(rt: HostRuntime) {
    are_told(
        &rt,
        rt.alloc(),
        Register::Staff,
        staff::REPORT,
        &[
            "\"parent\":0~\"parent\":00~3 text",
            "\"parent\":0~\"parent\":4294967296~3 text",
            "[\"axiom\",0,0]~[\"axiom\",0,4294967296]~3 text",
            "[\"axiom\",0,0]~[\"axiom\",00,0]~3 text",
            "\"of\":1~\"of\":4294967297~4 text",
            "[\"c\",1,0],[\"c\",2,0]~[\"c\",1,0],[\"c\",2,00]~4 text",
            "\"facts\":[0,1]~\"facts\":[0,4294967297]~6 text",
            "\"facts\":[0,1]~\"facts\":[0,01]~6 text",
            "\"member\":1~\"member\":01~6 text",
            "\"member\":1~\"member\":4294967297~6 text",
        ],
    );
}

#[test]
fn numbers_of_answers_are_in_range(rt: HostRuntime) {
    are_told(
        &rt,
        rt.alloc(),
        Register::Staff,
        staff::REPORT,
        &[
            "\"candidate\":0~\"candidate\":-0~7 text",
            "[[0]],\"k\":\"ask\"~[[4294967296]],\"k\":\"ask\"~7 text",
            "\"members\":[1]~\"members\":[4294967297]~7 text",
            "\"assume\":[0]~\"assume\":[00]~8 text",
            "\"assume\":[0]~\"assume\":[4294967296]~8 text",
            "\"assume\":[0]~\"assume\":[4294967295]~8 try",
            "\"n\":0~\"n\":18446744073709551616~9 text",
            "\"n\":0~\"n\":18446744073709551615~9 core",
            "\"core\":0~\"core\":18446744073709551616~10 text",
            "\"core\":0~\"core\":00~10 text",
            "\"cores\":[0,1]~\"cores\":[0,18446744073709551617]~14 text",
            "\"answers\":1~\"answers\":18446744073709551617~15 text",
            "\"answers\":1~\"answers\":01~15 text",
        ],
    );
}

#[test]
fn numbers_of_learned_clauses_are_in_range(rt: HostRuntime) {
    are_told(
        &rt,
        rt.alloc(),
        Register::Crowd,
        crowded::REPORT,
        &[
            "\"clause\":[5,6]~\"clause\":[5,4294967302]~15 text",
            "\"clause\":[5,6]~\"clause\":[5,06]~15 text",
            "\"clauses\":[0,1]~\"clauses\":[0,18446744073709551617]~21 text",
            "\"clauses\":[0,1]~\"clauses\":[0,01]~21 text",
        ],
    );
}

#[test]
fn blanks_stand_nowhere(rt: HostRuntime) {
    are_told(
        &rt,
        rt.alloc(),
        Register::Staff,
        staff::REPORT,
        &[
            // One line of each kind.
            "2,\"budget\"~2, \"budget\"~1 text",
            "\"version\":1}~\"version\":1 }~1 text",
            "{\"axioms\"~ {\"axioms\"~1 text",
            "[[\"c\",1,0]],\"head\"~[[\"c\",1,0]], \"head\"~2 text",
            "[[\"c\",1,0]],\"head\"~[[\"c\",1, 0]],\"head\"~2 text",
            "\"facts\":[0,1]~\"facts\":[0, 1]~6 text",
            "{\"candidate\":0,~{\"candidate\":0, ~7 text",
            "{\"assume\":[0],~{\"assume\":[0], ~8 text",
            "\"q\":\"brave\"}~\"q\":\"brave\"} ~8 text",
            "{\"dropped\":[1],~{\"dropped\":[1], ~9 text",
            "{\"core\":0,~{\"core\":0, ~10 text",
            "\"cores\":[0,1]~\"cores\":[0, 1]~14 text",
            "{\"answers\":1,~{\"answers\":1, ~15 text",
            "\"undecided\":0}~\"undecided\":0}\t~15 text",
        ],
    );
}

#[test]
fn blanks_stand_in_no_learned_clause(rt: HostRuntime) {
    are_told(
        &rt,
        rt.alloc(),
        Register::Crowd,
        crowded::REPORT,
        &[
            "{\"clause\":[5,6],~{\"clause\":[5,6], ~15 text",
            "\"clause\":[5,6]~\"clause\":[5, 6]~15 text",
            "{\"clauses\":[0,1],~{\"clauses\":[0,1], ~21 text",
        ],
    );
}

#[test]
fn keys_stand_in_their_order(rt: HostRuntime) {
    are_told(
        &rt,
        rt.alloc(),
        Register::Staff,
        staff::REPORT,
        &[
            "\"budget\":20000,\"facts\":2~\"facts\":2,\"budget\":20000~1 text",
            "\"head\":[0],\"k\":\"cq\"~\"k\":\"cq\",\"head\":[0]~2 text",
            "\"k\":\"conflict\",\"member\":1~\"member\":1,\"k\":\"conflict\"~6 text",
            "\"members\":[1],\"tuple\":[0]~\"tuple\":[0],\"members\":[1]~7 text",
            "\"assume\":[0],\"k\":\"try\"~\"k\":\"try\",\"assume\":[0]~8 text",
            "\"dropped\":[1],\"k\":\"core\",\"kept\":[0]~\"kept\":[0],\"k\":\"core\",\"dropped\":[1]~9 text",
            "\"core\":0,\"how\":\"model\"~\"how\":\"model\",\"core\":0~10 text",
            "\"ar\":\"no\",\"brave\":\"yes\"~\"brave\":\"yes\",\"ar\":\"no\"~14 text",
            "\"answers\":1,\"ar\":0~\"ar\":0,\"answers\":1~15 text",
        ],
    );
}

#[test]
fn keys_stand_once_and_are_known(rt: HostRuntime) {
    are_told(
        &rt,
        rt.alloc(),
        Register::Staff,
        staff::REPORT,
        &[
            "\"facts\":2~\"facts\":2,\"facts\":2~1 text",
            "\"version\":1~\"version\":1,\"word\":1~1 text",
            ",\"version\":1~~1 text",
            "\"k\":\"try\"~\"k\":\"try\",\"k\":\"try\"~8 text",
            ",\"q\":\"brave\"~~8 text",
            "\"core\":0,\"how\":\"model\"~\"core\":0,\"how\":\"model\",\"how\":\"model\"~10 text",
            "\"core\":0,\"how\"~\"how\"~10 text",
            ",\"undecided\":0~~15 text",
        ],
    );
}

#[test]
fn words_are_known(rt: HostRuntime) {
    are_told(
        &rt,
        rt.alloc(),
        Register::Staff,
        staff::REPORT,
        &[
            // The form has one version, so the text of another is none.
            "\"version\":1~\"version\":0~1 text",
            "\"version\":1~\"version\":2~1 text",
            "\"version\":1~\"version\":\"1\"~1 text",
            "\"pareto\"~\"Pareto\"~1 text",
            "\"pareto\"~\"none\"~1 text",
            "\"k\":\"head\"~\"k\":\"start\"~1 text",
            "[\"c\",1,0]~[\"C\",1,0]~2 text",
            "\"query\"~\"queries\"~2 text",
            "[\"axiom\",0,0]~[\"rule\",0,0]~3 text",
            "\"q\":\"brave\"~\"q\":\"all\"~8 text",
            "\"how\":\"model\"~\"how\":\"models\"~10 text",
            "\"brave\":\"yes\"~\"brave\":\"true\"~14 text",
            "\"brave\":\"yes\"~\"brave\":true~14 text",
            // A letter that needs no escape has none.
            "[\"ann\"]~[\"\\u0061nn\"]~14 text",
        ],
    );
}

#[test]
fn lines_have_their_form(rt: HostRuntime) {
    are_told(
        &rt,
        rt.alloc(),
        Register::Staff,
        staff::REPORT,
        &[
            // A query has an atom, and in its head variables of the body alone.
            "\"body\":[[\"c\",1,0]]~\"body\":[]~2 text",
            "\"head\":[0]~\"head\":[null]~2 text",
            "\"head\":[0]~\"head\":[1]~2 text",
            "[\"c\",1,0]~[\"r\",1,0]~2 text",
            "[\"c\",1,0]~[\"c\",1,0,0]~2 text",
            // A move and a parent come together.
            "\"of\":\"query\",\"parent\":null~\"of\":\"query\",\"parent\":0~2 text",
            "\"parent\":0~\"parent\":null~3 text",
            // A conflict is of one or two facts.
            "\"facts\":[0,1]~\"facts\":[]~6 text",
            "\"facts\":[0,1]~\"facts\":[0,1,2]~6 text",
            // A core comes with a model.
            "\"core\":0,\"how\":\"model\"~\"core\":null,\"how\":\"model\"~10 text",
            "\"core\":0,\"how\":\"model\"~\"core\":0,\"how\":\"refuted\"~10 text",
            "\"core\":0,\"how\":\"model\"~\"core\":0,\"how\":\"spent\"~10 text",
        ],
    );
}

#[test]
fn a_line_ends_with_a_line_feed_alone(rt: HostRuntime) {
    are_told(
        &rt,
        rt.alloc(),
        Register::Staff,
        staff::REPORT,
        &[
            "\"version\":1}\n~\"version\":1}\r\n~1 text",
            "\"q\":\"brave\"}\n~\"q\":\"brave\"}\r\n~8 text",
            "\"undecided\":0}\n~\"undecided\":0}\r\n~15 text",
            "\"version\":1}\n~\"version\":1}\r~1 text",
            "\"version\":1}\n~\"version\":1}~1 text",
            "\"budget\":20000,~\"budget\":20000,\n~1 text",
            // An empty line, and a mark of the order of bytes.
            "{\"axioms\"~\n{\"axioms\"~1 text",
            "\"version\":1}\n~\"version\":1}\n\n~2 text",
            "\"q\":\"brave\"}\n~\"q\":\"brave\"}\n\n~9 text",
            "{\"axioms\"~\u{feff}{\"axioms\"~1 text",
        ],
    );
}

#[test]
fn a_last_piece_without_a_line_feed_is_no_line(rt: HostRuntime) {
    are_told_when_cut(
        &rt,
        rt.alloc(),
        Register::Staff,
        staff::REPORT,
        &[
            "\"axioms\"~~1 text",
            "\"conflict\"~~6 text",
            "\n{\"candidate\"~~6 text",
            "{\"answers\"~{~15 text",
        ],
    );
}

#[test]
fn nothing_stands_behind_the_end(rt: HostRuntime) {
    are_told(
        &rt,
        rt.alloc(),
        Register::Staff,
        staff::REPORT,
        &[
            "\"undecided\":0}\n~\"undecided\":0}\n{~16 text",
            "\"undecided\":0}\n~\"undecided\":0}\n\r\n~16 text",
            "\"undecided\":0}\n~\"undecided\":0}\n{\"axioms\":2,\"budget\":20000,\"facts\":2,\"k\":\"head\",\"keep\":20000,\"repairs\":\"pareto\",\"version\":1}\n~16 order",
            "\"undecided\":0}\n~\"undecided\":0}\n{\"clauses\":[],\"k\":\"forget\"}\n~16 order",
            "\"undecided\":0}\n~\"undecided\":0}\n{\"candidate\":1,\"causes\":[],\"k\":\"ask\",\"members\":[],\"tuple\":[1]}\n~16 order",
        ],
    );
}
