//! Two atoms of one predicate become one: what their unifier does to terms.

ghost use Rattle.std.specs.Prelude.{◌≡◌, option_map, MatchOption};
ghost use Rattle.cq_terms.specs.declared.query.Term.{Term};
ghost use Rattle.cq_terms.specs.declared.query.QAtom.{QAtom};
ghost use Rattle.cq_meaning.specs.NormalForm.{map_atom};
ghost use Rattle.cq_meaning.specs.Rewriting.{unifier, merged, IsUnified};
ghost use Rattle.cq_steps.specs.Unifying.{meaning_of, term_under};

use cq_terms::{QAtom, Term};

/// What the unification of two terms makes of the terms of a query.
#[derive(Clone, Copy, Debug)]
pub enum Unifier {
    /// Each term stays.
    Nothing,
    /// The variable becomes the term.
    Replace { variable: u32, by: Term },
}

/// The unification of two atoms: what it makes of terms, in two steps, and the one atom.
#[derive(Clone, Copy, Debug)]
pub struct Unified {
    pub first: Unifier,
    pub then: Unifier,
    pub atom: QAtom,
}

/// How two variables become the one with the lesser number.
fn lesser_for_greater(left: u32, right: u32) -> Unifier
    ensures { Some (meaning_of result) ≡ unifier (Term.Var left) (Term.Var right) }
{
    if left < right {
        Unifier::Replace {
            variable: right,
            by: Term::Var(left),
        }
    } else {
        Unifier::Replace {
            variable: left,
            by: Term::Var(right),
        }
    }
}

/// How two terms become one; `None` for two different individuals.
fn unifier_of(left: Term, right: Term) -> Option<Unifier>
    ensures { option_map meaning_of result ≡ unifier left right }
{
    match (left, right) {
        (Term::Any, _) => Some(Unifier::Nothing),
        (_, Term::Any) => Some(Unifier::Nothing),
        (Term::Var(i), Term::Var(j)) => Some(lesser_for_greater(i, j)),
        (Term::Var(i), Term::Ind(c)) => Some(Unifier::Replace {
            variable: i,
            by: Term::Ind(c),
        }),
        (Term::Ind(c), Term::Var(j)) => Some(Unifier::Replace {
            variable: j,
            by: Term::Ind(c),
        }),
        (Term::Ind(c), Term::Ind(d)) => (c == d).then_some(Unifier::Nothing),
    }
}

/// The one of two unified terms: `_` gives way to the other.
fn merged(left: Term, right: Term) -> Term
    ensures { result ≡ merged left right }
{
    match left {
        Term::Any => right,
        _ => left,
    }
}

impl Unifier {
    /// What the term becomes.
    fn term(&self, term: Term) -> Term
        ensures { result ≡ meaning_of self.now term }
    {
        match *self {
            Unifier::Replace { variable, by } if term == Term::Var(variable) => by,
            _ => term,
        }
    }
}

impl Unified {
    /// What the term becomes.
    pub fn term(&self, term: Term) -> Term
        ensures { result ≡ term_under self.now term }
    {
        self.then.term(self.first.term(term))
    }

    /// What the atom becomes.
    pub fn atom(&self, atom: &QAtom) -> QAtom
        ensures { result ≡ map_atom (term_under self.now) atom.now }
    {
        match *atom {
            QAtom::Concept { pred, at } => QAtom::Concept {
                pred,
                at: self.term(at),
            },
            QAtom::Link { pred, from, to } => QAtom::Link {
                pred,
                from: self.term(from),
                to: self.term(to),
            },
        }
    }
}

/// The one of two terms once both unifiers were applied, the first one first.
fn merged_under(first: &Unifier, then: &Unifier, left: Term, right: Term) -> Term
    ensures { result ≡ merged (meaning_of then.now (meaning_of first.now left)) (meaning_of then.now (meaning_of first.now right)) }
{
    merged(then.term(first.term(left)), then.term(first.term(right)))
}

/// How two links of one role become one: `s` and `t` are the first terms, `s2` and `t2` the second ones.
fn unify_links(pred: u32, s: Term, s2: Term, t: Term, t2: Term) -> Option<Unified>
    ensures { MatchOption result
        ((f : Term → Term) (z : QAtom) → ¬ IsUnified (QAtom.Link pred s s2) (QAtom.Link pred t t2) f z)
        (λ u. IsUnified (QAtom.Link pred s s2) (QAtom.Link pred t t2) (term_under u) u.atom) }
{
    let first = unifier_of(s, t)?;
    let then = unifier_of(first.term(s2), first.term(t2))?;
    let from = merged_under(&first, &then, s, t);
    let to = merged_under(&first, &then, s2, t2);
    Some(Unified {
        first,
        then,
        atom: QAtom::Link { pred, from, to },
    })
}

/// How two concept atoms of one name become one.
fn unify_concepts(pred: u32, left: Term, right: Term) -> Option<Unified>
    ensures { MatchOption result
        ((f : Term → Term) (z : QAtom) → ¬ IsUnified (QAtom.Concept pred left) (QAtom.Concept pred right) f z)
        (λ u. IsUnified (QAtom.Concept pred left) (QAtom.Concept pred right) (term_under u) u.atom) }
{
    let first = unifier_of(left, right)?;
    let at = merged(first.term(left), first.term(right));
    Some(Unified {
        first,
        then: Unifier::Nothing,
        atom: QAtom::Concept { pred, at },
    })
}

/// How two atoms become one, their terms unified from left to right; `None` where they have no unifier.
pub fn unify(left: &QAtom, right: &QAtom) -> Option<Unified>
    ensures { MatchOption result
        ((f : Term → Term) (z : QAtom) → ¬ IsUnified left.now right.now f z)
        (λ u. IsUnified left.now right.now (term_under u) u.atom) }
{
    match (*left, *right) {
        (QAtom::Concept { pred: a, at: s }, QAtom::Concept { pred: b, at: t }) if a == b => {
            unify_concepts(a, s, t)
        }
        (
            QAtom::Link {
                pred: p,
                from: s,
                to: s2,
            },
            QAtom::Link {
                pred: q,
                from: t,
                to: t2,
            },
        ) if p == q => { unify_links(p, s, s2, t, t2) }
        _ => None,
    }
}
