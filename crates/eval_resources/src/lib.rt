//! Resource expressions: what their parts say, which tests they meet, and what they put into the book.
#![tactic(auto)]

mod attributes;
mod bodies;
mod checks;
mod classes;
mod declaring;
mod filling;
mod kinds;
mod known_kind;
mod named;
mod relating;
mod resources;
mod titles;

pub use checks::check_attributes;
pub use declaring::container_in;
pub use kinds::check_kind;
pub use known_kind::KnownKind;
pub use relating::operands;
pub use resources::resource;
