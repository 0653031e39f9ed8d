//! Templates of EPP: their text and their tags.
#![tactic(auto)]

mod bytes;
mod front;
mod parsing;
mod piece;
mod pieces;
mod runs;
mod tags;
mod template_file;
mod templates;
mod tokenizing;

pub use parsing::parse_epp;
pub use piece::{Piece, PieceKind};
pub use pieces::{Pieces, pieces_of};
pub use templates::Templates;
pub use tokenizing::template_tokens;
