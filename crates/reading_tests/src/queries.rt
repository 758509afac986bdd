//! What no clause says: that memory is enough for a small text, and which refusal some texts get.

use cq_terms::{Cq, QAtom, Term, Vocab};
use query_reader::{QueryRefusal, laws_of_the_grammar, read_query};
use std::alloc::Global;
use std::process::Abort;
use std::test::Fail;

#[test]
fn a_query_is_read(rt: HostRuntime) -> Result<(), Fail> {
    let text = b"\xEF\xBB\xBF?x\n<- A( ?x ), P(?y,'it''s') , P('it''s',?x)\r\n";
    let query = query_naming(&rt, rt.alloc(), text, "it's")?;
    let body = [
        QAtom::Concept {
            pred: 0,
            at: Term::Var(0),
        },
        QAtom::Link {
            pred: 0,
            from: Term::Var(1),
            to: Term::Ind(0),
        },
        QAtom::Link {
            pred: 0,
            from: Term::Ind(0),
            to: Term::Var(0),
        },
    ];
    assert!(rt; is(&query, &[Term::Var(0)], &body));
    Ok(())
}

#[test]
fn the_laws_of_queries_hold(_rt: HostRuntime) {
    laws_of_the_grammar();
}

/// The query of a text, which names this individual alone.
fn query_naming(rt: &impl Abort, alloc: Global, text: &[u8], name: &str) -> Result<Cq, Fail> {
    assert!(rt; text.len() < 1000);
    let mut vocab = Vocab::new(alloc);
    let query = read_query(alloc, text, &mut vocab)?;
    names_alone(rt, &vocab, name);
    Ok(query)
}

/// The individual is the only one with a number.
fn names_alone(rt: &impl Abort, vocab: &Vocab, name: &str) {
    assert_eq!(rt; vocab.inds.len(), 1);
    assert_eq!(rt; vocab.inds.text(0), name);
}

/// Whether the query has this head and this body.
fn is(query: &Cq, head: &[Term], body: &[QAtom]) -> bool {
    query.head() == head && query.body() == body
}

/// The text is refused so.
fn is_refused(rt: &impl Abort, alloc: Global, text: &[u8], refusal: QueryRefusal) {
    assert!(rt; text.len() < 1000);
    let mut vocab = Vocab::new(alloc);
    let read = read_query(alloc, text, &mut vocab);
    assert_eq!(rt; read.err(), Some(refusal), "of {text:?}");
}

/// The text is refused for a bad token at the place.
fn is_bad_at(rt: &impl Abort, alloc: Global, text: &[u8], at: u32) {
    is_refused(rt, alloc, text, QueryRefusal::BadToken { at });
}

#[test]
fn a_bad_token_is_refused_at_its_place(rt: HostRuntime) {
    let alloc = rt.alloc();
    is_bad_at(&rt, alloc, b"?x <- A(?x\n", 11);
    is_bad_at(&rt, alloc, b"?x?y <- A(?x)", 2);
    is_bad_at(&rt, alloc, b"?x <", 4);
    is_bad_at(&rt, alloc, b"<- some", 3);
    is_bad_at(&rt, alloc, b"<- A('')", 5);
    is_bad_at(&rt, alloc, b"<- A('a", 7);
    is_bad_at(&rt, alloc, b"<- A('a\xFF')", 7);
    is_bad_at(&rt, alloc, b"<- A('a') B", 10);
    is_bad_at(&rt, alloc, b"'a\xFF", 0);
    is_bad_at(&rt, alloc, b"\xEF\xBB\xBF", 0);
}

#[test]
fn a_bad_head_is_refused_at_its_place(rt: HostRuntime) {
    let alloc = rt.alloc();
    let repeated = QueryRefusal::RepeatedHead { place: 1 };
    is_refused(&rt, alloc, b"?x ?x <- A(?x)", repeated);
    let outside = QueryRefusal::HeadNotInBody { place: 0 };
    is_refused(&rt, alloc, b"?y <- A(?x)", outside);
}

#[test]
fn thirteen_atoms_are_too_many(rt: HostRuntime) {
    let alloc = rt.alloc();
    let right = b"<-A(?x),A(?x),A(?x),A(?x),A(?x),A(?x),A(?x),A(?x),A(?x),A(?x),A(?x),A(?x),A(?x)";
    is_refused(&rt, alloc, right, QueryRefusal::TooManyAtoms);
    let wrong =
        b"?z ?z<-A(?x),A(?x),A(?x),A(?x),A(?x),A(?x),A(?x),A(?x),A(?x),A(?x),A(?x),A(?x),A(?x)";
    is_refused(&rt, alloc, wrong, QueryRefusal::TooManyAtoms);
}
