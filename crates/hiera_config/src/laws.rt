//! Laws of the definition by which a text is taken apart.
ghost use Rattle.hiera_config.specs.Laws.{TurnsSuffice};

/// The number of turns in which the pieces of a text are found decides nothing: each number above that of its bytes
/// gives the same pieces.
pub fn turns_suffice()
    ensures pieces { TurnsSuffice }
{}
