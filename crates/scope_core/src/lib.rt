//! The scopes of one compile: which names have values where, and which scope is read after which.
#![tactic(auto)]

mod binding;
mod cutting;
mod faults;
mod laws;
mod named;
mod owner;
mod scope;
mod scope_id;
mod scope_kind;
mod scope_names;
mod scopes;

pub use laws::scopes_suffice;
pub use scope_id::ScopeId;
pub use scope_kind::ScopeKind;
pub use scopes::Scopes;
