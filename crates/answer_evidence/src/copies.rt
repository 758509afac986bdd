//! Copies of lists, for the lines of a report.

ghost use Rattle.std.specs.Prelude.{◌≡◌, ◌<◌, ◌^◌, map, All, IfOk, IsUtf8};
ghost use Rattle.repair_clauses.specs.BaseClauses.{present};

use cq_terms::{IdLists, Ids, NoMemory, Texts};
use std::alloc::Global;

/// A copy of the lists.
pub fn copied_lists(alloc: Global, lists: &[Ids]) -> Result<IdLists, NoMemory>
    ensures { IfOk result (λ copies. copies ≡ lists.now) }
{
    let mut copies = IdLists::new(alloc);
    for list in lists {
        copies.push(Ids::from_slice(alloc, list.as_slice())?)?;
    }
    Ok(copies)
}

/// A copy of the texts.
pub fn copied_texts(alloc: Global, texts: &Texts) -> Result<Texts, NoMemory>
    ensures { IfOk result (λ copies. copies ≡ texts.now) }
{
    let mut copies = Texts::new(alloc);
    for text in texts.as_slice() {
        copies.push(String::from_str(alloc, text.as_str())?)?;
    }
    Ok(copies)
}

/// The literals that say that the facts are present.
pub(crate) fn present_literals(alloc: Global, facts: &[u32]) -> Result<Ids, NoMemory>
    requires few { All (λ f. f < 2 ^ 31) facts.now }

    ensures { IfOk result (λ literals. literals ≡ map present facts.now) }
{
    let mut literals = Ids::new(alloc);
    for fact in facts {
        literals.push(2 * *fact)?;
    }
    Ok(literals)
}

/// Each of the numbers is below 2^32.
pub fn fit(numbers: &[u32])
    ensures { All (λ n. n < 2 ^ 32) numbers.now }
{
    let _count = numbers.len();
}

/// Each of the numbers is below 2^64.
pub fn fit_long(numbers: &[u64])
    ensures { All (λ n. n < 2 ^ 64) numbers.now }
{
    let _count = numbers.len();
}

/// Each of the texts is UTF-8.
pub fn are_utf8(texts: &Texts)
    ensures { All IsUtf8 texts.now }
{
    let _texts = texts.as_slice();
}
