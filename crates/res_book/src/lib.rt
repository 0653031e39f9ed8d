//! The declarations of one compile, in order: how each was declared, which are live, and which wait to be evaluated;
//! and what they have to do with each other.
#![tactic(auto)]

mod book;
mod collector;
mod containment;
mod faults;
mod mode;
mod numbers;
mod relation_line;
mod relations;
mod row;

pub use book::{Book, DECLARATION_LIMIT};
pub use collector::Collector;
pub use containment::Containment;
pub use mode::Mode;
pub use relation_line::RelationLine;
pub use relations::Relations;
pub use row::Row;
