//! The laws of refutation by unit propagation, each as the contract of a function that does nothing.
ghost use Rattle.clause_meaning.specs.Laws.{MoreRefutesMore, RefutedIsFalse, ClosedIsNotRefuted, FollowingIsTrue, FollowingKeeps, ScopeRefutesAlone};

/// More clauses and more literals refute what fewer do.
pub fn more_refutes_more()
    ensures { MoreRefutesMore }
{}

/// An assignment that satisfies the clauses doesn't make all literals true that they refute: unit propagation is sound (Marques-Silva
/// and Sakallah 1999).
pub fn refuted_literals_are_false()
    ensures { RefutedIsFalse }
{}

/// Propagation that ends without a clash is exact: what is closed under the clauses stands against each refutation.
pub fn closed_literals_are_not_refuted()
    ensures { ClosedIsNotRefuted }
{}

/// A clause that follows by reverse unit propagation is true wherever the clauses are (Goldberg and Novikov 2003; Van
/// Gelder 2008).
pub fn following_clause_is_true()
    ensures { FollowingIsTrue }
{}

/// A clause that follows may be added: the same assignments satisfy the clauses with it and without it (Goldberg and Novikov
/// 2003).
pub fn following_clause_keeps_assignments()
    ensures { FollowingKeeps }
{}

/// Where no clause has variables on both sides of a scope, and those outside it can be satisfied, the clauses inside it
/// refute alone what all refute.
pub fn clauses_of_a_scope_refute_alone()
    ensures { ScopeRefutesAlone }
{}
