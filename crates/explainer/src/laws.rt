//! What satisfies the base clauses of a scope satisfies those of components in it: the contract of a function that does nothing.

ghost use Rattle.explainer.specs.Laws.{ScopeCoversComponents};

/// Where an assignment satisfies the base clauses of a scope that is closed under conflict, the facts that are present by it meet
/// the condition of `core_of` for any facts of the scope.
pub fn scope_covers_components()
    ensures { ScopeCoversComponents }
{}
