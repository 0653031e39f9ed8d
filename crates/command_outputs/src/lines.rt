ghost use Rattle.std.specs.Prelude.{◌≡◌, IfOk};
ghost use Rattle.command_outputs.specs.Lines.{line};

use pp_values::{Memory, Text};
use std::alloc::Global;

/// The text with a line feed at its end.
pub fn line(alloc: Global, text: Text) -> Result<Text, Memory>
    ensures { IfOk result (λ ended. ended ≡ line text) }
{
    let mut string = text.into_string(alloc)?;
    string.push('\n')?;
    Ok(Text::new(string))
}
