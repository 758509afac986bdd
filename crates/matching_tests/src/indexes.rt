//! Tables whose lists are known.

use crate::tables::indexed;
use cq_terms::{Fact, Kind, NoMemory};
use fact_index::Index;
use std::alloc::Global;
use std::test::Fail;

/// A concept and a role of the number 7, and a concept of the greatest number.
fn table(alloc: Global) -> Result<Index, NoMemory> {
    indexed(
        alloc,
        &[
            Fact::Concept { pred: 7, ind: 0 },
            Fact::Link {
                pred: 7,
                from: 0,
                to: 1,
            },
            Fact::Concept { pred: 7, ind: 1 },
            Fact::Concept {
                pred: 4_294_967_295,
                ind: 0,
            },
            Fact::Link {
                pred: 7,
                from: 1,
                to: 1,
            },
            Fact::Link {
                pred: 7,
                from: 0,
                to: 0,
            },
        ],
    )
}

#[test]
fn each_predicate_has_its_facts(rt: HostRuntime) -> Result<(), Fail> {
    let index = table(rt.alloc())?;
    for (kind, pred, numbers) in [
        (Kind::Concept, 7, [0, 2].as_slice()),
        (Kind::Link, 7, [1, 4, 5].as_slice()),
        (Kind::Concept, 4_294_967_295, [3].as_slice()),
        (Kind::Link, 4_294_967_295, [].as_slice()),
        (Kind::Concept, 8, [].as_slice()),
    ] {
        assert_eq!(rt; index.with_pred(kind, pred), numbers, "of {pred}");
    }
    Ok(())
}

#[test]
fn each_first_place_has_its_facts(rt: HostRuntime) -> Result<(), Fail> {
    let index = table(rt.alloc())?;
    for (kind, ind, numbers) in [
        (Kind::Concept, 0, [0].as_slice()),
        (Kind::Concept, 1, [2].as_slice()),
        (Kind::Link, 0, [1, 5].as_slice()),
        (Kind::Link, 1, [4].as_slice()),
        (Kind::Link, 2, [].as_slice()),
    ] {
        assert_eq!(rt; index.with_pred_first(kind, 7, ind), numbers, "of {ind}");
    }
    Ok(())
}

#[test]
fn each_second_place_has_its_facts(rt: HostRuntime) -> Result<(), Fail> {
    let index = table(rt.alloc())?;
    for (ind, numbers) in [
        (0, [5].as_slice()),
        (1, [1, 4].as_slice()),
        (2, [].as_slice()),
    ] {
        assert_eq!(rt; index.with_pred_second(7, ind), numbers, "of {ind}");
    }
    Ok(())
}

#[test]
fn an_empty_table_has_none(rt: HostRuntime) -> Result<(), Fail> {
    let index = indexed(rt.alloc(), &[])?;
    assert!(rt; index.is_empty());
    assert_eq!(rt; index.with_pred(Kind::Concept, 0), [].as_slice());
    Ok(())
}
