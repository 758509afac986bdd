//! A list of members that closes a query is its closure. The law is the contract of a function that does nothing.

ghost use Rattle.cq_steps.specs.Closing.{ClosingListIsClosure, DerivedIsInClosure};

/// Where the first member of a list is the normal form of a query, each other member is the result of its step and every
/// successor of a member is a member, the queries of the list are exactly those of the query's closure.
pub fn closing_list_is_closure()
    ensures { ClosingListIsClosure }
{}

/// Where the first member of a list is the normal form of a query and each other member is the result of its step, each
/// query of the list is in the query's closure.
pub fn derived_is_in_closure()
    ensures { DerivedIsInClosure }
{}
