//! Conjunctive queries.

ghost use Rattle.std.specs.Prelude.{◌≡◌};
ghost use Rattle.cq_terms.specs.Query.{IsSafe};
ghost use Rattle.cq_terms.specs.SafeQuery.{if_safe};

use crate::safe_query::is_safe;
use std::marker::Model;

/// A term of a query.
#[derive(Clone, Copy, Debug, PartialEq, Eq, PartialOrd, Ord)]
pub enum Term {
    /// A variable, by its number.
    Var(u32),
    /// An individual, by its number.
    Ind(u32),
    /// A variable that stands nowhere else, written `_`.
    Any,
}

/// An atom of a query. The derived order puts concepts before links, then goes by predicate, then by the terms.
#[derive(Clone, Copy, Debug, PartialEq, Eq, PartialOrd, Ord)]
pub enum QAtom {
    /// The term is in the concept.
    Concept { pred: u32, at: Term },
    /// The role leads from the first term to the second.
    Link { pred: u32, from: Term, to: Term },
}

/// A conjunctive query: head terms and body atoms. The body isn't empty, the head has no `_`, and each variable of the
/// head stands in the body.
#[derive(Debug, Drop)]
pub struct Cq {
    head: Vec<Term>,
    body: Vec<QAtom>,
}

impl Model for Cq {
    ghost use Rattle.cq_terms.specs.Query.{Query, IsSafe};

    ghost Value = { Query };

    ghost view = { λ a. record { head = a.head.items; body = a.body.items } };

    ghost invariant = { λ a. IsSafe (record { head = a.head.items; body = a.body.items }) };
}

impl Cq {
    /// The query of the two lists.
    pub fn new(head: Vec<Term>, body: Vec<QAtom>) -> Cq
        requires safe { IsSafe (record { head = head.items; body = body.items }) }

        ensures exact { result ≡ record { head = head.items; body = body.items } }
    {
        Cq { head, body }
    }

    /// The query of the two lists, where they are those of one.
    pub fn checked(head: Vec<Term>, body: Vec<QAtom>) -> Option<Cq>
        ensures exact { result ≡ if_safe head.items body.items }
    {
        if is_safe(head.as_slice(), body.as_slice()) {
            Some(Cq::new(head, body))
        } else {
            None
        }
    }

    /// Lends the head terms.
    pub fn head(&self) -> &[Term]
        ensures lent { result.now ≡ self.now.head }
        ensures safe { IsSafe self.now }
    {
        self.head.as_slice()
    }

    /// Lends the body atoms.
    pub fn body(&self) -> &[QAtom]
        ensures lent { result.now ≡ self.now.body }
        ensures safe { IsSafe self.now }
    {
        self.body.as_slice()
    }
}
