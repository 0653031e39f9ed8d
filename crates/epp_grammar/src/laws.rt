//! Laws of the functions that `pieces_of` and `parse_epp` equal.

ghost use Rattle.epp_grammar.specs.Laws.{PiecesAreRead};

/// The pieces of a text are those that stand there one behind another, and a text has no others.
pub fn reads_the_pieces()
    ensures { PiecesAreRead }
{}
