//! The dynamic parents of scopes stay.

ghost use Rattle.std.specs.Prelude.{◌≡◌, [], ℕ, List, Option, IsSome};
ghost use Rattle.override_rules.specs.Bounds.{DefaultsSuffice, NamesSuffice};
ghost use Rattle.override_rules.specs.Defaults.{Scope, parent_of, with_scope};
ghost use Rattle.override_rules.specs.Ways.{AreNested, IsWithin, ParentsStay, way_out};

/// Whatever scope is opened, each that was opened before keeps its parent. Where each is opened after its parent, the
/// way out from a scope that was opened stays what it is, however scopes go on.
pub fn parents_stay()
    ensures opened { (scopes : List Scope) (s : ℕ) (p : Option ℕ) → ParentsStay scopes (with_scope scopes s p) }
    ensures first { AreNested [] }
    ensures nested { (scopes : List Scope) (s : ℕ) (p : Option ℕ) → AreNested scopes → IsWithin scopes p
        → AreNested (with_scope scopes s p) }
    ensures way { (old new : List Scope) (s : ℕ) → AreNested old → ParentsStay old new → IsSome (parent_of old s)
        → way_out new s ≡ way_out old s }
{}

/// Where each scope is opened after its parent, as `parents_stay` says that it goes on to be, as many scopes as there are
/// are enough: neither a default nor a name of one comes from further out.
pub fn scopes_suffice()
    ensures defaults { DefaultsSuffice }
    ensures names { NamesSuffice }
{}
