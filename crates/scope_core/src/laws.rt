//! Laws of the definition by which a name is looked for.

ghost use Rattle.scope_core.specs.Laws.{ScopesSuffice};

/// A name that is found is found within as many scopes as there are, since no scope on the way to it is met twice.
pub fn scopes_suffice()
    ensures { ScopesSuffice }
{}
