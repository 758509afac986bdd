//! Rows on byte order marks, ends of lines, blanks and empty files.

use crate::tables::decides;
use memory_runs::{STAFF, Texts};

#[test]
fn marks_and_ends_of_lines_are_skipped(rt: HostRuntime) {
    let texts = Texts {
        ontology: "\u{FEFF}Prof < Staff\r\nStudent < not Staff\r",
        facts: "\u{FEFF}\u{FEFF}Prof,ann\r\n\r\nStudent,ann\r",
        priority: "\u{FEFF}1,2\r\n",
        query: "\u{FEFF}?x\r\n<-\r\n\tStaff ( ?x )\r\n",
    };
    decides(&rt, rt.alloc(), &texts, &[], "ann,yes,yes,yes\n");
}

#[test]
fn comments_and_empty_lines_give_no_axiom(rt: HostRuntime) {
    let texts = Texts {
        ontology: "# of the staff < <\n\n \t\n Prof  <\tStaff \n\t# no more\nStudent < not Staff",
        ..STAFF
    };
    decides(&rt, rt.alloc(), &texts, &[], "ann,yes,no,no\n");
}

#[test]
fn a_priority_without_a_record_prefers_nothing(rt: HostRuntime) {
    let alloc = rt.alloc();
    let table = "ann,yes,no,no\n";
    decides(&rt, alloc, &STAFF, &["--priority", "p"], table);
    let texts = Texts {
        priority: "\n",
        ..STAFF
    };
    decides(&rt, alloc, &texts, &[], table);
}

#[test]
fn without_axioms_each_fact_is_in_each_repair(rt: HostRuntime) {
    let texts = Texts {
        ontology: "",
        query: "?x <- Prof(?x), Student(?x)",
        ..STAFF
    };
    decides(&rt, rt.alloc(), &texts, &[], "ann,yes,yes,yes\n");
}
