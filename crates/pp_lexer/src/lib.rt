//! Cuts the text of a manifest into its tokens.
#![tactic(auto)]

mod bytes;
mod escapes;
mod front;
mod kind;
mod lexing;
mod lines;
mod marks;
mod mode;
mod numbers;
mod queue;
mod scanning;
mod texts;
mod token;
mod tokens;
mod words;

pub use kind::Kind;
pub use lexing::lex;
pub use queue::Queue;
pub use scanning::{end_line, scan, scan_at};
pub use token::Token;
pub use tokens::Tokens;
