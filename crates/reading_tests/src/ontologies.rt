//! What no clause says: that memory is enough for a small text, and some lines with what they give.

use axiom_reader::{AxiomRefusal, first_appearance, is_name, one_reading, read_axioms};
use cq_terms::{Axiom, Basic, Role, Vocab};
use std::alloc::Global;
use std::process::Abort;
use std::test::Fail;

#[test]
fn each_form_is_read(rt: HostRuntime) -> Result<(), Fail> {
    let text =
        b"\xEF\xBB\xBF# \xFF\n\tCat  <\tPet\r\n\nsome inv owns < not Cat\nrole likes < not inv owns\r";
    let axioms = axioms_of(&rt, rt.alloc(), text)?;
    let owns = Role {
        pred: 0,
        inverse: true,
    };
    let wanted = [
        Axiom::Sub {
            left: Basic::Concept(0),
            right: Basic::Concept(1),
        },
        Axiom::Disjoint {
            left: Basic::Has(owns),
            right: Basic::Concept(0),
        },
        Axiom::DisjointRole {
            left: Role {
                pred: 1,
                inverse: false,
            },
            right: owns,
        },
    ];
    assert!(rt; are(&axioms, &wanted));
    Ok(())
}

#[test]
fn the_laws_of_ontologies_hold(_rt: HostRuntime) {
    one_reading();
    first_appearance();
}

/// The axioms of a text with names of its own.
fn axioms_of(rt: &impl Abort, alloc: Global, text: &[u8]) -> Result<Vec<Axiom>, Fail> {
    assert!(rt; text.len() < 1000);
    let mut vocab = Vocab::new(alloc);
    let axioms = read_axioms(alloc, text, &mut vocab)?;
    Ok(axioms)
}

/// Whether the axioms are these.
fn are(axioms: &[Axiom], wanted: &[Axiom]) -> bool {
    axioms == wanted
}

/// The text is refused so.
fn is_refused(rt: &impl Abort, alloc: Global, text: &[u8], refusal: AxiomRefusal) {
    assert!(rt; text.len() < 1000);
    let mut vocab = Vocab::new(alloc);
    let read = read_axioms(alloc, text, &mut vocab);
    assert_eq!(rt; read.err(), Some(refusal), "of {text:?}");
}

#[test]
fn faulty_lines_are_refused(rt: HostRuntime) {
    let alloc = rt.alloc();
    let second = AxiomRefusal::BadLine { line: 2 };
    is_refused(&rt, alloc, b"A < B\nA < < B\nsome < B\n", second);
    let first = AxiomRefusal::BadLine { line: 1 };
    is_refused(&rt, alloc, b"some < B", first);
    is_refused(&rt, alloc, b"role R < some S", first);
    is_refused(&rt, alloc, b"func R", first);
    is_refused(&rt, alloc, b"A<B", first);
    let no_text = AxiomRefusal::NotUtf8 { line: 3 };
    is_refused(&rt, alloc, b"\n#\xFF\nA < \xFF", no_text);
    assert!(rt; is_name(b"a-1#".as_slice()));
}
