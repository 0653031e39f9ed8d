use eval_world::Here;

/// A class that is declared, and whose body is evaluated later.
#[derive(Clone, Copy)]
pub struct Listed {
    /// The number of its declaration.
    pub number: u32,
    /// The line at which its definition begins.
    pub line: u32,
    /// Where its body is evaluated.
    pub here: Here,
}
