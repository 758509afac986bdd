//! What a report says of each answer.

use classifier::Verdicts;
use report_text::{Line, read};
use std::alloc::Global;
use std::test::Fail;

/// What a report says of an answer: its verdicts, and how many clauses were learned for it.
#[derive(Clone, Copy, Debug, PartialEq, Eq)]
pub(crate) struct Said {
    pub(crate) verdicts: Verdicts,
    pub(crate) learned: u32,
}

/// What a line says of an answer.
#[derive(Clone, Copy)]
enum Note {
    Learned,
    Answered(Verdicts),
    Nothing,
}

/// What the report says of each answer.
pub(crate) fn answers_said(alloc: Global, report: &[u8]) -> Result<Vec<Said>, Fail> {
    let mut said = Vec::new(alloc);
    let mut learned: u32 = 0;
    for text in report.split(|byte| *byte == b'\n') {
        match note_at(alloc, text)? {
            Note::Learned => learned = learned.saturating_add(1),
            Note::Answered(verdicts) => {
                said.push(Said { verdicts, learned })?;
                learned = 0;
            }
            Note::Nothing => {}
        }
    }
    Ok(said)
}

/// What the line of the text says of an answer. Where there is no text, it says nothing.
fn note_at(alloc: Global, text: &[u8]) -> Result<Note, Fail> {
    if text.is_empty() {
        return Ok(Note::Nothing);
    }
    let line = read(alloc, text)?;
    Ok(note_of(line))
}

/// What the line says of an answer.
fn note_of(line: Line) -> Note {
    match line {
        Line::Learn { .. } => Note::Learned,
        Line::Answer { brave, ar, iar, .. } => Note::Answered(Verdicts { brave, ar, iar }),
        _ => Note::Nothing,
    }
}

/// The names of the individuals of all answers, each before a blank.
pub(crate) fn names_said(alloc: Global, report: &[u8]) -> Result<String, Fail> {
    let mut names = String::new(alloc);
    for text in report.split(|byte| *byte == b'\n') {
        if !text.is_empty() {
            put_names(&read(alloc, text)?, &mut names)?;
        }
    }
    Ok(names)
}

/// Puts the names of an answer behind the text.
fn put_names(line: &Line, text: &mut String) -> Result<(), Fail> {
    if let Line::Answer { names, .. } = line {
        for name in names.as_slice() {
            text.push_str(name.as_str())?;
            text.push(' ')?;
        }
    }
    Ok(())
}
