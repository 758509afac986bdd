//! Outside vectors: a report byte for byte, names of every kind, lines made by chance, and texts that are no lines.

use crate::made_lines::{Dice, made_line};
use cq_io::MemSink;
use cq_steps::Move;
use cq_terms::{NoMemory, QAtom, Term};
use report_text::{
    Line, LineFault, LineSink, Origin, ReadRefusal, Report, print, read, read_at_once,
    read_by_value,
};
use serde_json::Value;
use std::alloc::{AllocError, Global};
use std::process::Abort;
use std::test::Fail;

// A tuple that is brave and neither AR nor IAR, with the evidence.
const REPORT: &str =
    r#"{"axioms":2,"budget":20000,"facts":2,"k":"head","keep":20000,"repairs":"pareto","version":1}
{"body":[["c",1,0]],"head":[0],"k":"cq","move":null,"of":"query","parent":null}
{"body":[["c",0,0]],"head":[0],"k":"cq","move":["axiom",0,0],"of":"query","parent":0}
{"body":[["c",1,0],["c",2,0]],"head":[],"k":"cq","move":null,"of":1,"parent":null}
{"body":[["c",0,0],["c",2,0]],"head":[],"k":"cq","move":["axiom",0,0],"of":1,"parent":0}
{"facts":[0,1],"k":"conflict","member":1,"of":1}
{"candidate":0,"causes":[[0]],"k":"ask","members":[1],"tuple":[0]}
{"assume":[0],"k":"try","q":"brave"}
{"dropped":[1],"k":"core","kept":[0],"n":0}
{"core":0,"how":"model","k":"done"}
{"assume":[1],"k":"try","q":"iar"}
{"dropped":[0],"k":"core","kept":[1],"n":1}
{"core":1,"how":"model","k":"done"}
{"ar":"no","brave":"yes","cores":[0,1],"iar":"no","k":"answer","names":["ann"],"tuple":[0]}
{"answers":1,"ar":0,"brave":1,"iar":0,"k":"end","undecided":0}
"#;

const END: &str = r#"{"answers":1,"ar":0,"brave":1,"iar":0,"k":"end","undecided":0}"#;

// Names that stand for themselves between the quotes: the empty one, the first and the last characters of each length in UTF-8, and one of
// each plane.
const PLAIN_NAMES: [&str; 5] = [
    "",
    "\u{7f}\u{80}\u{7ff}\u{800}",
    "\u{2028}\u{2029}",
    "\u{d7ff}\u{e000}\u{ffff}",
    "\u{10000}\u{20000}\u{30000}\u{40000}\u{50000}\u{60000}\u{70000}\u{80000}\u{90000}\u{a0000}\u{b0000}\u{c0000}\u{d0000}\u{e0000}\u{f0000}\u{10ffff}",
];

// A name that needs each escape of RFC 8259, and what stands between the quotes.
const ODD_NAME: &str = "\"q\\\u{8}\u{c}\n\r\t\u{1}/é漢𝄞";

const ODD_NAME_ESCAPED: &str = r#"\"q\\\b\f\n\r\t\u0001/é漢𝄞"#;

// What a byte of a line is changed to: of the bytes that lines have, and some that they don't.
const OTHER_BYTES: &[u8] = b"\"\\,:[]{}0123456789aceknu -.\n\x00\x7f\x80\xff";

#[test]
fn a_report_goes_to_the_sink_line_by_line(rt: HostRuntime) -> Result<(), Fail> {
    let alloc = rt.alloc();
    let mut sink = MemSink::new(alloc, None);
    sink.reserve(REPORT.len() + END.len())?;
    let mut report = LineSink::new(alloc, &mut sink);
    for text in REPORT.lines() {
        report.line(&read(alloc, text.as_bytes())?)?;
    }
    // There is room for one more text, and none for its line feed: nothing of it is written.
    let torn = report.line(&read(alloc, END.as_bytes())?);
    assert_eq!(rt; torn, Err(LineFault::Failed));
    assert_eq!(rt; report.into_sink().written(), REPORT.as_bytes());
    Ok(())
}

#[test]
fn further_lines_come_back(rt: HostRuntime) {
    let alloc = rt.alloc();
    come_back_by_value(
        &rt,
        alloc,
        &[
            // A head, a query and an end are read as JSON values.
            r#"{"axioms":2,"budget":0,"facts":2,"k":"head","keep":0,"repairs":"all","version":1}"#,
            r#"{"axioms":4294967295,"budget":18446744073709551615,"facts":4294967295,"k":"head","keep":18446744073709551615,"repairs":"all","version":1}"#,
            // A role, an individual and `_`; and two atoms made one.
            r#"{"body":[["c",1,[7]],["r",0,0,null]],"head":[0,[7]],"k":"cq","move":["reduce",1,2],"of":4294967295,"parent":3}"#,
            r#"{"body":[["r",4294967295,4294967295,[4294967295]]],"head":[4294967295],"k":"cq","move":["axiom",4294967295,4294967295],"of":"query","parent":4294967295}"#,
            r#"{"answers":18446744073709551615,"ar":18446744073709551615,"brave":18446744073709551615,"iar":18446744073709551615,"k":"end","undecided":18446744073709551615}"#,
        ],
    );
    come_back_at_once(
        &rt,
        alloc,
        &[
            // All other lines need none.
            r#"{"facts":[5],"k":"conflict","member":0,"of":1}"#,
            r#"{"facts":[0,4294967295],"k":"conflict","member":4294967295,"of":4294967295}"#,
            r#"{"candidate":1,"causes":[],"k":"ask","members":[],"tuple":[]}"#,
            r#"{"candidate":4294967295,"causes":[[],[4294967295,0]],"k":"ask","members":[0,4294967295],"tuple":[4294967295]}"#,
            r#"{"assume":[9],"k":"try","q":"ar"}"#,
            r#"{"assume":[],"k":"try","q":"iar"}"#,
            r#"{"assume":[4294967295],"k":"try","q":"brave"}"#,
            r#"{"clause":[3,4294967295],"k":"learn","n":18446744073709551615}"#,
            r#"{"dropped":[],"k":"core","kept":[4294967295],"n":18446744073709551615}"#,
            r#"{"core":18446744073709551615,"how":"model","k":"done"}"#,
            r#"{"core":null,"how":"refuted","k":"done"}"#,
            r#"{"core":null,"how":"spent","k":"done"}"#,
            r#"{"clauses":[],"k":"forget"}"#,
            r#"{"clauses":[0,18446744073709551615],"k":"forget"}"#,
            r#"{"ar":"undecided","brave":"yes","cores":[],"iar":"no","k":"answer","names":[],"tuple":[]}"#,
            r#"{"ar":"yes","brave":"yes","cores":[18446744073709551615],"iar":"undecided","k":"answer","names":["",""],"tuple":[4294967295,0]}"#,
        ],
    );
}

/// The lines come back, and are read by a JSON value.
fn come_back_by_value(rt: &impl Abort, alloc: Global, texts: &[&str]) {
    for text in texts {
        comes_back_so(rt, alloc, text, false);
    }
}

/// The lines come back, and their texts need no JSON value.
fn come_back_at_once(rt: &impl Abort, alloc: Global, texts: &[&str]) {
    for text in texts {
        comes_back_so(rt, alloc, text, true);
    }
}

fn comes_back_so(rt: &impl Abort, alloc: Global, text: &str, at_once: bool) {
    match comes_back(rt, alloc, text) {
        Ok(()) => {}
        Err(_) => panic!(rt; "no line of {text}"),
    }
    match is_found_at_once(alloc, text) {
        Ok(is_found) => assert!(rt; is_found == at_once, "of {text}"),
        Err(_) => panic!(rt; "no line of {text}"),
    }
}

#[test]
fn a_query_is_read_from_its_line(rt: HostRuntime) -> Result<(), Fail> {
    let text =
        r#"{"body":[["c",1,[7]],["r",2,0,null]],"head":[0],"k":"cq","move":["axiom",4,5],"of":6,"parent":3}"#;
    let Line::Cq {
        origin,
        query,
        step,
    } = read(rt.alloc(), text.as_bytes())?
    else {
        return Err(Fail::from("another kind"));
    };
    assert_eq!(rt; origin, Origin::Negative(6));
    assert_eq!(rt; step, Some((3, Move::Axiom { atom: 4, axiom: 5 })));
    assert_eq!(rt; query.head(), [Term::Var(0)].as_slice());
    let individual = QAtom::Concept {
        pred: 1,
        at: Term::Ind(7),
    };
    let link = QAtom::Link {
        pred: 2,
        from: Term::Var(0),
        to: Term::Any,
    };
    assert_eq!(rt; query.body(), [individual, link].as_slice());
    Ok(())
}

#[test]
fn names_come_back(rt: HostRuntime) -> Result<(), Fail> {
    let alloc = rt.alloc();
    for name in PLAIN_NAMES {
        name_comes_back(&rt, alloc, name, name)?;
    }
    name_comes_back(&rt, alloc, ODD_NAME, ODD_NAME_ESCAPED)?;
    name_comes_back(&rt, alloc, "\u{0}\u{b}\u{1f} ", r"\u0000\u000b\u001f ")?;
    Ok(())
}

/// The answer with a name comes back, and tells the name. Where the name has no escape, its text needs no JSON value.
fn name_comes_back(rt: &impl Abort, alloc: Global, name: &str, escaped: &str) -> Result<(), Fail> {
    let text = answer_text(alloc, escaped)?;
    comes_back(rt, alloc, text.as_str())?;
    assert_eq!(rt; is_found_at_once(alloc, text.as_str())?, name == escaped);
    assert_eq!(rt; name_told(alloc, text.as_str())?.as_str(), name);
    Ok(())
}

#[test]
fn lines_made_by_chance_come_back(rt: HostRuntime) -> Result<(), Fail> {
    let alloc = rt.alloc();
    let mut dice = Dice::new(0x2545_f491_4f6c_dd1d);
    for _ in 0..1000 {
        let text = made_line(alloc, &mut dice)?;
        assert_eq!(rt;
            printed_value(alloc, text.as_str())?.as_str(),
            text.as_str()
        );
        comes_back(&rt, alloc, text.as_str())?;
    }
    Ok(())
}

#[test]
fn lines_with_another_byte_are_read_alike(rt: HostRuntime) -> Result<(), Fail> {
    let alloc = rt.alloc();
    let mut dice = Dice::new(0x9e37_79b9_7f4a_7c15);
    for _ in 0..4000 {
        let mut bytes = made_line(alloc, &mut dice)?.into_bytes();
        let place = dice.below(bytes.len());
        let other = dice.below(OTHER_BYTES.len());
        if let (Some(byte), Some(other)) = (bytes.get_mut(place), OTHER_BYTES.get(other)) {
            *byte = *other;
        }
        is_read_alike(&rt, alloc, bytes.as_slice())?;
    }
    Ok(())
}

/// The text of what both ways of reading find is the text again.
fn comes_back(rt: &impl Abort, alloc: Global, text: &str) -> Result<(), Fail> {
    let printed = read_and_printed(alloc, text.as_bytes())?;
    assert_eq!(rt; printed.as_str(), text);
    let printed = read_by_value_and_printed(alloc, text.as_bytes())?;
    assert_eq!(rt; printed.as_str(), text);
    Ok(())
}

/// Both ways of reading find a line with these bytes, or neither does.
fn is_read_alike(rt: &impl Abort, alloc: Global, bytes: &[u8]) -> Result<(), Fail> {
    let known = is_line(read_and_printed(alloc, bytes), bytes);
    assert_eq!(rt;
        known,
        is_line(read_by_value_and_printed(alloc, bytes), bytes)
    );
    assert!(rt; known.is_some());
    Ok(())
}

/// Whether there is a text with these bytes, or a bad line; and none where it is another text or another refusal.
fn is_line(printed: Result<String, ReadRefusal>, bytes: &[u8]) -> Option<bool> {
    match printed {
        Ok(text) if text.as_bytes() == bytes => Some(true),
        Err(ReadRefusal::BadLine) => Some(false),
        _ => None,
    }
}

fn read_and_printed(alloc: Global, bytes: &[u8]) -> Result<String, ReadRefusal> {
    let line = read(alloc, bytes)?;
    Ok(print(alloc, &line)?)
}

fn read_by_value_and_printed(alloc: Global, bytes: &[u8]) -> Result<String, ReadRefusal> {
    let line = read_by_value(alloc, bytes)?;
    Ok(print(alloc, &line)?)
}

fn is_found_at_once(alloc: Global, text: &str) -> Result<bool, NoMemory> {
    Ok(read_at_once(alloc, text.as_bytes())?.is_some())
}

/// The text of the JSON value of a text.
fn printed_value(alloc: Global, text: &str) -> Result<String, Fail> {
    let value = Value::from_slice(alloc, text.as_bytes())?;
    Ok(value.to_string(alloc)?)
}

/// The text of an answer with a name, which stands there as JSON has it.
fn answer_text(alloc: Global, escaped: &str) -> Result<String, AllocError> {
    format!(in alloc;
        r#"{{"ar":"no","brave":"yes","cores":[3],"iar":"no","k":"answer","names":["{escaped}"],"tuple":[5]}}"#
    )
}

/// The one name of an answer.
fn name_told(alloc: Global, text: &str) -> Result<String, Fail> {
    let Line::Answer { names, .. } = read(alloc, text.as_bytes())? else {
        return Err(Fail::from("another kind"));
    };
    let [name] = names.as_slice() else {
        return Err(Fail::from("not one name"));
    };
    Ok(String::from_str(alloc, name.as_str())?)
}

#[test]
fn altered_lines_are_none(rt: HostRuntime) {
    let alloc = rt.alloc();
    are_no_lines(
        &rt,
        alloc,
        &[
            // Queries: no atom, `_` or another variable in the head, another atom and move, null alone, an index past 2^32 - 1.
            r#"{"body":[],"head":[],"k":"cq","move":null,"of":"query","parent":null}"#,
            r#"{"body":[["c",0,0]],"head":[null],"k":"cq","move":null,"of":"query","parent":null}"#,
            r#"{"body":[["c",0,0]],"head":[1],"k":"cq","move":null,"of":"query","parent":null}"#,
            r#"{"body":[["x",0,0]],"head":[],"k":"cq","move":null,"of":"query","parent":null}"#,
            r#"{"body":[["c",0,0,0]],"head":[],"k":"cq","move":null,"of":"query","parent":null}"#,
            r#"{"body":[["r",0,0]],"head":[],"k":"cq","move":null,"of":"query","parent":null}"#,
            r#"{"body":[["c",0,[0,1]]],"head":[],"k":"cq","move":null,"of":"query","parent":null}"#,
            r#"{"body":[["c",0,0]],"head":[],"k":"cq","move":["rename",0,0],"of":"query","parent":0}"#,
            r#"{"body":[["c",0,0]],"head":[],"k":"cq","move":["axiom",0,0],"of":"query","parent":null}"#,
            r#"{"body":[["c",0,0]],"head":[],"k":"cq","move":null,"of":"query","parent":0}"#,
            r#"{"body":[["c",0,0]],"head":[],"k":"cq","move":null,"of":"axiom","parent":null}"#,
            r#"{"body":[["c",4294967296,0]],"head":[],"k":"cq","move":null,"of":"query","parent":null}"#,
            // Conflicts: no fact, three of them, null for a number.
            r#"{"facts":[],"k":"conflict","member":1,"of":1}"#,
            r#"{"facts":[0,1,2],"k":"conflict","member":1,"of":1}"#,
            r#"{"facts":[0],"k":"conflict","member":null,"of":1}"#,
            // Candidates: a number for a list, another order of keys, a space.
            r#"{"candidate":0,"causes":[0],"k":"ask","members":[1],"tuple":[0]}"#,
            r#"{"causes":[[0]],"candidate":0,"k":"ask","members":[1],"tuple":[0]}"#,
            r#"{"candidate":0,"causes":[[0, 1]],"k":"ask","members":[1],"tuple":[0]}"#,
            // Tries, learned clauses and ends of tries: words, ranges, a core without a model and a model without one.
            r#"{"assume":[0],"k":"try","q":"AR"}"#,
            r#"{"assume":[4294967296],"k":"try","q":"ar"}"#,
            r#"{"clause":[0],"k":"learn","n":18446744073709551616}"#,
            r#"{"core":null,"how":"model","k":"done"}"#,
            r#"{"core":0,"how":"refuted","k":"done"}"#,
            r#"{"core":0,"how":"spent","k":"done"}"#,
            r#"{"core":0,"how":"open","k":"done"}"#,
            r#"{"clauses":0,"k":"forget"}"#,
        ],
    );
}

/// None of the texts is that of a line.
fn are_no_lines(rt: &impl Abort, alloc: Global, texts: &[&str]) {
    for text in texts {
        is_no_line(rt, alloc, text);
    }
}

fn is_no_line(rt: &impl Abort, alloc: Global, text: &str) {
    let refusal = read(alloc, text.as_bytes()).err();
    assert_eq!(rt; refusal, Some(ReadRefusal::BadLine), "of {text}");
}

#[test]
fn other_texts_are_no_lines(rt: HostRuntime) {
    let alloc = rt.alloc();
    are_no_lines(
        &rt,
        alloc,
        &[
            "",
            // A line feed, a space, and another order of keys.
            "{\"answers\":1,\"ar\":0,\"brave\":1,\"iar\":0,\"k\":\"end\",\"undecided\":1}\n",
            r#"{"answers":1,"ar":0,"brave":1,"iar":0,"k":"end", "undecided":1}"#,
            r#"{"ar":0,"answers":1,"brave":1,"iar":0,"k":"end","undecided":1}"#,
            // A key too many, one too few, and one twice.
            r#"{"answers":1,"ar":0,"brave":1,"iar":0,"k":"end","undecided":1,"x":1}"#,
            r#"{"answers":1,"ar":0,"brave":1,"k":"end","undecided":1}"#,
            r#"{"answers":1,"ar":0,"brave":1,"iar":0,"k":"end","undecided":1,"undecided":1}"#,
            // Numbers: a leading zero, a sign, a fraction, an exponent, a text, and past 2^64 - 1 and 2^32 - 1.
            r#"{"answers":01,"ar":0,"brave":1,"iar":0,"k":"end","undecided":1}"#,
            r#"{"answers":-1,"ar":0,"brave":1,"iar":0,"k":"end","undecided":1}"#,
            r#"{"answers":1.0,"ar":0,"brave":1,"iar":0,"k":"end","undecided":1}"#,
            r#"{"answers":1e3,"ar":0,"brave":1,"iar":0,"k":"end","undecided":1}"#,
            r#"{"answers":"1","ar":0,"brave":1,"iar":0,"k":"end","undecided":1}"#,
            r#"{"answers":18446744073709551616,"ar":0,"brave":1,"iar":0,"k":"end","undecided":1}"#,
            r#"{"dropped":[1],"k":"core","kept":[4294967296],"n":0}"#,
            r#"{"clause":[00],"k":"learn","n":0}"#,
            r#"{"core":01,"how":"model","k":"done"}"#,
            // Words: an unknown version, repairs, verdict and kind, escapes that aren't needed or have other digits, and half a character.
            r#"{"axioms":2,"budget":0,"facts":2,"k":"head","keep":0,"repairs":"all","version":2}"#,
            r#"{"axioms":2,"budget":0,"facts":2,"k":"head","keep":0,"repairs":"all","version":0}"#,
            r#"{"axioms":2,"budget":0,"facts":2,"k":"head","keep":0,"repairs":"some","version":1}"#,
            r#"{"ar":"maybe","brave":"yes","cores":[0],"iar":"no","k":"answer","names":["ann"],"tuple":[0]}"#,
            r#"{"dropped":[1],"k":"kernel","kept":[0],"n":0}"#,
            r#"{"ar":"no","brave":"yes","cores":[0],"iar":"no","k":"answer","names":["\u0061nn"],"tuple":[0]}"#,
            r#"{"ar":"no","brave":"yes","cores":[0],"iar":"no","k":"answer","names":["\/"],"tuple":[0]}"#,
            r#"{"ar":"no","brave":"yes","cores":[0],"iar":"no","k":"answer","names":["\u001F"],"tuple":[0]}"#,
            r#"{"ar":"no","brave":"yes","cores":[0],"iar":"no","k":"answer","names":["\u0008"],"tuple":[0]}"#,
            r#"{"ar":"no","brave":"yes","cores":[0],"iar":"no","k":"answer","names":["\ud834\udd1e"],"tuple":[0]}"#,
            r#"{"ar":"no","brave":"yes","cores":[0],"iar":"no","k":"answer","names":["\ud834"],"tuple":[0]}"#,
        ],
    );
}

#[test]
fn bytes_that_are_no_text_are_no_line(rt: HostRuntime) {
    let not_utf8 = b"{\"dropped\":[],\"k\":\"\xff\",\"kept\":[],\"n\":0}";
    let refusal = read(rt.alloc(), not_utf8).err();
    assert_eq!(rt; refusal, Some(ReadRefusal::BadLine));
}

#[test]
fn a_deep_nest_is_no_line(rt: HostRuntime) -> Result<(), Fail> {
    let alloc = rt.alloc();
    let mut nest = Vec::new(alloc);
    for _ in 0..100_000 {
        nest.push(b'[')?;
    }
    assert_eq!(rt;
        read(alloc, nest.as_slice()).err(),
        Some(ReadRefusal::BadLine)
    );
    Ok(())
}
