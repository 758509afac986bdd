//! The generated input: its texts byte for byte at small sizes, and how many lines they have at large ones.

use bench_texts::{Texts, bench_texts};
use std::test::Fail;

// The axioms, by the rules for them.
const ONTOLOGY: &str = r"K0 < not K10
K1 < not K11
K2 < not K12
K3 < not K13
K4 < not K14
K5 < not K15
K6 < not K16
K7 < not K17
K8 < not K18
K9 < not K19
K20 < K0
K21 < K1
K22 < K2
K23 < K3
K24 < K4
K25 < K5
K26 < K6
K27 < K7
K28 < K8
K29 < K9
K20 < not K10
K21 < not K11
K22 < not K12
K23 < not K13
K24 < not K14
K25 < not K15
K26 < not K16
K27 < not K17
K28 < not K18
K29 < not K19
K0 < K30
K1 < K30
K2 < K30
K3 < K30
K4 < K30
K10 < K30
K11 < K30
K12 < K30
K13 < K30
K31 < K30
K32 < K30
K33 < K30
K34 < K30
K35 < K30
K36 < K30
K37 < K30
K38 < K30
K39 < K30
some inv R0 < K30
some inv R1 < K31
some inv R2 < K32
some inv R3 < K33
some inv R4 < K34
some inv R5 < K35
some inv R6 < K36
some inv R7 < K37
some inv R8 < K38
some inv R9 < K39
some inv R10 < K30
some inv R11 < K31
some inv R12 < K32
some inv R13 < K33
some inv R14 < K34
some inv R15 < K35
some inv R16 < K36
some inv R17 < K37
some inv R18 < K38
some inv R19 < K39
some inv R20 < K30
some inv R21 < K31
some inv R22 < K32
some inv R23 < K33
some inv R24 < K34
some inv R25 < K35
some inv R26 < K36
some inv R27 < K37
some inv R28 < K38
some inv R29 < K39
role R15 < R0
role R16 < R1
role R17 < R2
role R18 < R3
role R19 < R4
role R20 < R5
role R21 < R6
role R22 < R7
role R23 < R8
role R24 < R9
role R25 < R10
role R26 < R11
role R27 < R12
role R28 < R13
role R29 < R14
K20 < some R0
K21 < some R1
K22 < some R2
K23 < some R3
K24 < some R4
K25 < some R5
K26 < some R6
K27 < some R7
K28 < some R8
K29 < some R9
";

const QUERY: &str = "?x <- K30(?x), R0(?x,?y)\n";

// Five individuals, one of each remainder.
const FIVE: &str = r"R15,p0,d0
K0,p0
R15,p1,d1
K0,p1
K10,p1
R15,p2,d2
K5,p2
K15,p2
R15,p3,d3
K0,p3
K10,p3
R15,p4,d4
K4,p4
K14,p4
";

/// Whether the texts are the ontology and the query of every size, and these.
fn are(texts: &Texts, facts: &str, priority: &str) -> bool {
    texts.ontology.as_str() == ONTOLOGY
        && texts.facts.as_str() == facts
        && texts.priority.as_str() == priority
        && texts.query.as_str() == QUERY
}

/// How many line feeds a text has.
fn line_feeds(text: &str) -> usize {
    text.as_bytes()
        .iter()
        .filter(|byte| **byte == b'\n')
        .count()
}

/// Whether the texts end with these and have as many lines.
fn end_with(texts: &Texts, facts: &str, records: usize, priority: &str, pairs: usize) -> bool {
    texts.facts.as_str().ends_with(facts)
        && texts.priority.as_str().ends_with(priority)
        && line_feeds(texts.facts.as_str()) == records
        && line_feeds(texts.priority.as_str()) == pairs
        && line_feeds(texts.ontology.as_str()) == 103
}

#[test]
fn one_individual_has_no_pair(rt: HostRuntime) -> Result<(), Fail> {
    let texts = bench_texts(rt.alloc(), 1)?;
    assert!(rt; are(&texts, "R15,p0,d0\nK0,p0\n", ""));
    Ok(())
}

#[test]
fn five_individuals_have_a_pair(rt: HostRuntime) -> Result<(), Fail> {
    let texts = bench_texts(rt.alloc(), 5)?;
    assert!(rt; are(&texts, FIVE, "10,11\n"));
    Ok(())
}

#[test]
fn five_thousand_have_fourteen_thousand_records(rt: HostRuntime) -> Result<(), Fail> {
    let texts = bench_texts(rt.alloc(), 5000)?;
    let last = "K4,p4999\nK14,p4999\n";
    assert!(rt; end_with(&texts, last, 14_000, "13982,13983\n13996,13997\n", 1000));
    Ok(())
}

#[test]
fn the_greatest_size_has_fifty_six_thousand_records(rt: HostRuntime) -> Result<(), Fail> {
    let texts = bench_texts(rt.alloc(), 20_000)?;
    let last = "R15,p19999,d19999\nK4,p19999\nK14,p19999\n";
    assert!(rt; end_with(&texts, last, 56_000, "\n55996,55997\n", 4000));
    Ok(())
}
