//! The attributes that lines set.
ghost use Rattle.std.specs.Prelude.{◌≡◌, [], IfOk};
ghost use Rattle.eval_resources.specs.Declaring as spec;
ghost use Rattle.res_core.specs.Lines.{line_of, lines_of};

use eval_classes::{AttributeSet, is_value};
use eval_world::Evaluated;
use pp_values::Memory;
use res_core::{Attributes, Line};
use std::alloc::Global;

/// The attributes that these lines set, by the order of their names. A value that is Undef sets none.
pub fn attributes(alloc: Global, lines: &[Line]) -> Result<Attributes, Memory>
    ensures { IfOk result (λ a. a ≡ spec.set_from [] (lines_of lines.now)) }
{
    let set = gathered(alloc, lines)?;
    set.into_attributes(alloc)
}

#[tactic(auto, unfolding(crate::specs::Declaring::set_from))]
fn gathered(alloc: Global, lines: &[Line]) -> Result<AttributeSet, Memory>
    ensures { IfOk result (λ s. s ≡ spec.set_from [] (lines_of lines.now)) }
{
    let mut set = AttributeSet::for_count(alloc, lines.len())?;
    let mut rest = lines;
    while let Some((line, more)) = rest.split_first() {
        set = with_line(alloc, set, line)?;
        rest = more;
    }
    Ok(set)
}

fn with_line(alloc: Global, set: AttributeSet, line: &Line) -> Result<AttributeSet, Memory>
    ensures { IfOk result (λ s. s ≡ spec.with_line set (line_of line.now)) }
{
    if is_value(&line.value) {
        let name = line.name.copy(alloc)?;
        let value = Evaluated::copy_of(alloc, &line.value)?;
        return set.with(name, value);
    }
    Ok(set)
}
