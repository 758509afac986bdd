//! What the cores of an answer show.

ghost use Rattle.std.specs.Prelude.{◌≡◌, ◌++◌, slice_get, option_copied};
ghost use Rattle.std.specs.List.{list_any, list_all};
ghost use Rattle.report_laws.specs.Settling as settling;
ghost use Rattle.report_parts.specs.Tests.{passes};

use crate::told_core::Core;
use cq_terms::Ids;

/// The core of the number.
pub fn core_at(cores: &[Core], number: u64) -> Option<&Core>
    ensures exact { option_copied result ≡ slice_get cores.now number }
{
    cores.get(number as usize)
}

/// Whether the core of the number keeps one of the causes.
fn keeps_one_at(cores: &[Core], number: u64, causes: &[Ids]) -> bool
    ensures exact { result ≡ passes (λ core. list_any (settling.keeps core) causes.now) (slice_get cores.now number) }
{
    match core_at(cores, number) {
        Some(core) => core.keeps_one(causes),
        None => false,
    }
}

/// Whether the core of the number drops a fact of each of the causes.
fn drops_of_each_at(cores: &[Core], number: u64, causes: &[Ids]) -> bool
    ensures exact { result ≡ passes (λ core. list_all (settling.drops core) causes.now) (slice_get cores.now number) }
{
    match core_at(cores, number) {
        Some(core) => core.drops_of_each(causes),
        None => false,
    }
}

/// Whether the core of the number drops a fact of the cause.
fn drops_at(cores: &[Core], number: u64, cause: &[u32]) -> bool
    ensures exact { result ≡ passes (λ core. settling.drops core cause.now) (slice_get cores.now number) }
{
    match core_at(cores, number) {
        Some(core) => core.drops(cause),
        None => false,
    }
}

/// Whether one of the cores of the numbers keeps one of the causes.
fn some_keeps_one(cores: &[Core], numbers: &[u64], causes: &[Ids]) -> bool
    ensures exact { result
        ≡ list_any (λ n. passes (λ core. list_any (settling.keeps core) causes.now) (slice_get cores.now n)) numbers.now }
{
    numbers
        .iter()
        .any(|number| keeps_one_at(cores, *number, causes))
}

/// Whether one of the cores of the numbers drops a fact of each of the causes.
fn some_drops_of_each(cores: &[Core], numbers: &[u64], causes: &[Ids]) -> bool
    ensures exact { result
        ≡ list_any (λ n. passes (λ core. list_all (settling.drops core) causes.now) (slice_get cores.now n)) numbers.now }
{
    numbers
        .iter()
        .any(|number| drops_of_each_at(cores, *number, causes))
}

/// Whether one of the cores of the numbers drops a fact of the cause.
fn some_drops(cores: &[Core], numbers: &[u64], cause: &[u32]) -> bool
    ensures exact { result
        ≡ list_any (λ n. passes (λ core. settling.drops core cause.now) (slice_get cores.now n)) numbers.now }
{
    numbers.iter().any(|number| drops_at(cores, *number, cause))
}

/// Whether one of the cores of the numbers of either list keeps one of the causes.
pub fn answer_keeps_one(cores: &[Core], named: &[u64], numbers: &[u64], causes: &[Ids]) -> bool
    ensures exact { result ≡ list_any (λ core. list_any (settling.keeps core) causes.now)
        (settling.cores_at cores.now (named.now ++ numbers.now)) }
{
    some_keeps_one(cores, named, causes) || some_keeps_one(cores, numbers, causes)
}

/// Whether one of the cores of the numbers of either list drops a fact of each of the causes.
pub fn answer_drops_of_each(cores: &[Core], named: &[u64], numbers: &[u64], causes: &[Ids]) -> bool
    ensures exact { result ≡ list_any (λ core. list_all (settling.drops core) causes.now)
        (settling.cores_at cores.now (named.now ++ numbers.now)) }
{
    some_drops_of_each(cores, named, causes) || some_drops_of_each(cores, numbers, causes)
}

/// Whether one of the cores of the numbers of either list drops a fact of the cause.
pub fn answer_drops(cores: &[Core], named: &[u64], numbers: &[u64], cause: &[u32]) -> bool
    ensures exact { result ≡ list_any (λ core. settling.drops core cause.now)
        (settling.cores_at cores.now (named.now ++ numbers.now)) }
{
    some_drops(cores, named, cause) || some_drops(cores, numbers, cause)
}
