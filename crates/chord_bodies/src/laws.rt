//! What holds of resolved bodies, as the contracts of functions that do nothing.
#![tactic(auto)]

ghost use Rattle.chord_bodies.specs.Laws.{TypesShown, ScopesKept};

/// An expression that has a type, in a scope of its body, shows it by its outermost form.
pub fn types()
    ensures { TypesShown }
{}

/// Each scope of a body that keeps to its types is one of its own: each variable in it has the type of its slot.
pub fn scopes()
    ensures { ScopesKept }
{}
