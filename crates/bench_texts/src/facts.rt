//! The records of one individual, and its pair.

ghost use Rattle.std.specs.Prelude.{◌≡◌, ◌++◌, ◌<◌, OnOk, string_bytes};
ghost use Rattle.std.specs.List.{flat_map};
ghost use Rattle.bench_texts.specs.Lines.{line};
ghost use Rattle.bench_texts.specs.Texts.{concepts_of, holds, person, preference};

use crate::group::push_line;
use std::alloc::AllocError;

/// Appends the records of the individual of this number: its link, and then its concepts.
pub(crate) fn push_person(text: &mut String, number: u32) -> Result<(), AllocError>
    ensures exact { OnOk result (string_bytes text.new ≡ string_bytes text.old ++ person number) }
{
    push_line(text, "R15,p", number, ",d", number)?;
    push_concepts(text, concepts_of(number % 5), number)
}

fn push_concepts(text: &mut String, concepts: &[u32], number: u32) -> Result<(), AllocError>
    ensures exact { OnOk result (string_bytes text.new
        ≡ string_bytes text.old ++ flat_map (λ concept. holds concept number) concepts.now) }
{
    for concept in concepts {
        push_line(text, "K", *concept, ",p", number)?;
    }
    Ok(())
}

/// The numbers of the concepts by the remainder of an individual's number.
fn concepts_of(remainder: u32) -> &'static [u32]
    ensures exact { result.now ≡ concepts_of remainder }
{
    match remainder {
        0 => &[0],
        1 | 3 => &[0, 10],
        2 => &[5, 15],
        _ => &[4, 14],
    }
}

/// Appends the pair of the individual's two facts, where its number has the remainder 3.
pub(crate) fn push_preference(text: &mut String, number: u32) -> Result<(), AllocError>
    requires small { number < 20000 }

    ensures exact { OnOk result (string_bytes text.new ≡ string_bytes text.old ++ preference number) }
{
    if number % 5 != 3 {
        return Ok(());
    }
    let before = 14 * (number / 5);
    push_line(text, "", before + 10, ",", before + 11)
}
