//! Why no cause is present: the least fact of each that isn't.

ghost use Rattle.std.specs.Prelude.{◌≡◌, ◌↔◌, None, Some, IfOk, IfSome, IsNone, MatchOption, unwrap_or, min, Contains};
ghost use Rattle.cq_terms.specs.Lists.{IsAscending};
ghost use Rattle.explainer.specs.Missing.{AreMissing, IsLeastOrNone, SomeIsPresent};

use cq_terms::{IdLists, Ids, NoMemory, has_sorted};
use std::alloc::Global;

/// For each cause its least fact that isn't present, ascending and without repeats. `None` comes exactly where some cause is wholly
/// present. Causes need no order; a fact of one is looked up among the present ones in logarithmic time.
pub fn missing(alloc: Global, causes: &IdLists, present: &[u32]) -> Result<Option<Ids>, NoMemory>
    requires ascending { IsAscending present.now }

    ensures found { IfOk result (λ answer. IfSome answer (AreMissing causes.now present.now)) }
    ensures none { IfOk result (λ answer. IsNone answer ↔ SomeIsPresent causes.now present.now) }
{
    let mut facts = Vec::new(alloc);
    for cause in causes.as_slice() {
        let Some(fact) = least_outside(cause.as_slice(), present) else {
            return Ok(None);
        };
        facts.push(fact)?;
    }
    let facts = Ids::sorted(alloc, facts.as_slice())?;
    Ok(Some(facts))
}

/// The least fact of the cause that isn't present.
fn least_outside(cause: &[u32], present: &[u32]) -> Option<u32>
    requires ascending { IsAscending present.now }

    ensures exact { IsLeastOrNone present.now cause.now result }
{
    let mut least = None;
    for fact in cause {
        if !has_sorted(present, *fact) {
            least = Some(lesser(least, *fact));
        }
    }
    least
}

/// The lesser one of the two facts, where there are two.
fn lesser(least: Option<u32>, fact: u32) -> u32
    ensures { MatchOption least (result ≡ fact) (λ other. result ≡ min other fact) }
{
    match least {
        Some(other) => other.min(fact),
        None => fact,
    }
}
