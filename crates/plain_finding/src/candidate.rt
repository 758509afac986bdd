//! A candidate with its causes.

ghost use Rattle.std.specs.Prelude.{◌≡◌, ◌↔◌, IsTrue};
ghost use Rattle.report_laws.specs.AtStanding.{Candidate};

use cq_terms::{IdLists, Ids};
use report_parts::are_equal;
use std::marker::Model;

/// A candidate with its causes.
#[derive(Drop)]
pub struct Candidate {
    tuple: Ids,
    causes: IdLists,
}

impl Model for Candidate {
    ghost use Rattle.report_laws.specs.AtStanding.{Candidate};

    ghost Value = { Candidate };

    ghost view = { λ a. record { tuple = a.tuple; causes = a.causes } };
}

impl Candidate {
    /// The candidate of the tuple and its causes.
    pub fn new(tuple: Ids, causes: IdLists) -> Candidate
        ensures exact { result ≡ record { tuple = tuple; causes = causes } }
    {
        Candidate { tuple, causes }
    }

    /// Whether these are its tuple and its causes.
    pub fn has(&self, tuple: &Ids, causes: &IdLists) -> bool
        ensures exact { IsTrue result ↔ (self.now ≡ record { tuple = tuple.now; causes = causes.now }) }
    {
        are_equal(self.tuple.as_slice(), tuple.as_slice())
            && are_equal_lists(self.causes.as_slice(), causes.as_slice())
    }
}

/// Whether the two lists of lists are one.
fn are_equal_lists(left: &[Ids], right: &[Ids]) -> bool
    ensures exact { IsTrue result ↔ (left.now ≡ right.now) }
{
    if left.len() != right.len() {
        return false;
    }
    for i in 0..left.len() {
        if !are_equal(left[i].as_slice(), right[i].as_slice()) {
            return false;
        }
    }
    true
}
