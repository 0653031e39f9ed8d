//! What stands round a place: what is behind it, and which braces are open there.

ghost use Rattle.std.specs.Prelude.{◌≡◌, [], OnOk};
ghost use Rattle.pp_lexer.specs.Modes as spec;

use crate::front::Found;
use crate::kind::Kind;
use pp_values::Memory;
use std::alloc::Global;
use std::marker::Model;

/// What is behind a place.
#[derive(Clone, Copy, Debug)]
pub enum Mode {
    /// White space, a comment or the beginning of the file.
    AfterBlank,

    /// The last byte of a token, outside of texts.
    AfterToken,

    /// A text in double quotes, within which the place is; or a text or a comment that the end of the file cuts off.
    Inside,
}

/// An open brace: `{`, or that of `${`.
#[derive(Clone, Copy, Debug)]
pub enum Open {
    Brace,
    Interpolation,
}

/// The open braces, the innermost last.
#[derive(Drop)]
pub struct Nest {
    open: Vec<Open>,
}

impl Model for Nest {
    ghost use Rattle.std.specs.Prelude.{List};
    ghost use Rattle.pp_lexer.specs.declared.mode.Open.{Open};

    ghost Value = { List Open };

    ghost view = { λ n. n.open.items };
}

impl Nest {
    pub fn new(alloc: Global) -> Nest
        ensures { result ≡ [] }
    {
        Nest {
            open: Vec::new(alloc),
        }
    }

    /// Whether the innermost open brace is that of `${`.
    pub fn in_interpolation(&self) -> bool
        ensures { result ≡ spec.in_interpolation self.now }
    {
        match self.open.as_slice().last() {
            Some(Open::Interpolation) => true,
            _ => false,
        }
    }

    fn close(&mut self)
        ensures { self.new ≡ spec.without_last self.old }
    {
        let _ = self.open.pop();
    }

    /// Takes in a token that says nothing.
    fn mark(&mut self, kind: Kind) -> Result<(), Memory>
        ensures { OnOk result (self.new ≡ spec.open_after_mark kind self.old) }
    {
        match kind {
            Kind::OpenBrace => self.open.push(Open::Brace)?,
            Kind::InterpolationBegin => self.open.push(Open::Interpolation)?,
            Kind::CloseBrace | Kind::InterpolationEnd => self.close(),
            _ => {},
        }
        Ok(())
    }

    /// Takes in what stands at a place.
    pub fn pass(&mut self, found: Found) -> Result<(), Memory>
        ensures { OnOk result (self.new ≡ spec.open_after found self.old) }
    {
        match found {
            Found::Mark(kind) => self.mark(kind),
            _ => Ok(()),
        }
    }
}

fn mode_after_mark(kind: Kind) -> Mode
    ensures { result ≡ spec.mode_after_mark kind }
{
    match kind {
        Kind::TextBegin | Kind::InterpolationEnd => Mode::Inside,
        _ => Mode::AfterToken,
    }
}

/// The mode behind what stands at a place.
pub fn mode_after(found: Found) -> Mode
    ensures { result ≡ spec.mode_after found }
{
    match found {
        Found::Blank => Mode::AfterBlank,
        Found::CutOff | Found::Run | Found::Dollar(Kind::VariableInText) => Mode::Inside,
        Found::Mark(kind) => mode_after_mark(kind),
        _ => Mode::AfterToken,
    }
}
