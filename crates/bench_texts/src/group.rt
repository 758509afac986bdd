//! Groups of lines: one after another for the numbers from a first one on.

ghost use Rattle.std.specs.Prelude.{◌≡◌, ◌+◌, ◌++◌, ◌≤◌, ◌<◌, OnOk, string_bytes};
ghost use Rattle.bench_texts.specs.Groups.{line_of};
ghost use Rattle.bench_texts.specs.Lines.{line, lines};

use crate::facts::{push_person, push_preference};
use itoa::Buffer;
use std::alloc::AllocError;

/// Lines of one form, one or some for each number.
#[derive(Clone, Copy, Debug, PartialEq, Eq)]
pub(crate) enum Group {
    /// `K{i} < not K{i+10}`.
    Opposed,
    /// `K{i+20} < K{i}`.
    Narrower,
    /// `K{i+20} < not K{i+10}`.
    NarrowerOpposed,
    /// `K{i} < K30`.
    Registered,
    /// `some inv R{j} < K{30 + j mod 10}`.
    Target,
    /// `role R{j} < R{j-15}`, from 15 on.
    NarrowerRole,
    /// `K{j+20} < some R{j}`.
    Linked,
    /// The records of one individual.
    Person,
    /// The pair of one individual, where it has one.
    Preference,
}

/// Appends the lines of the group for `count` numbers from `first` on.
pub(crate) fn push_lines(
    text: &mut String,
    group: Group,
    first: u32,
    count: u32,
) -> Result<(), AllocError>
    requires small { first + count ≤ 20000 }

    ensures exact { OnOk result (string_bytes text.new ≡ string_bytes text.old ++ lines (line_of group) first count) }
{
    for place in 0..count {
        push_line_of(text, group, first + place)?;
    }
    Ok(())
}

/// Appends the lines of the group for one number.
fn push_line_of(text: &mut String, group: Group, number: u32) -> Result<(), AllocError>
    requires small { number < 20000 }

    ensures exact { OnOk result (string_bytes text.new ≡ string_bytes text.old ++ line_of group number) }
{
    match group {
        Group::Opposed => push_line(text, "K", number, " < not K", number + 10),
        Group::Narrower => push_line(text, "K", number + 20, " < K", number),
        Group::NarrowerOpposed => push_line(text, "K", number + 20, " < not K", number + 10),
        Group::Registered => push_line(text, "K", number, " < K", 30),
        Group::Target => push_line(text, "some inv R", number, " < K", 30 + number % 10),
        Group::NarrowerRole => {
            push_line(text, "role R", number, " < R", number.saturating_sub(15))
        }
        Group::Linked => push_line(text, "K", number + 20, " < some R", number),
        Group::Person => push_person(text, number),
        Group::Preference => push_preference(text, number),
    }
}

/// Appends a line: a text, a number, a text, a number, and a line feed.
pub(crate) fn push_line(
    text: &mut String,
    before: &str,
    first: u32,
    between: &str,
    second: u32,
) -> Result<(), AllocError>
    ensures exact { OnOk result (string_bytes text.new
        ≡ string_bytes text.old ++ line before.now first between.now second) }
{
    let mut digits = Buffer::new();
    text.push_str(before)?;
    text.push_str(digits.format(first))?;
    text.push_str(between)?;
    text.push_str(digits.format(second))?;
    text.push_str("\n")?;
    Ok(())
}
