//! The commands of the site's program: words and the outside in, a status out.
#![tactic(auto)]

mod applying;
mod asking_input;
mod commands;
mod delivering;
mod end_lines;
mod ending;
mod giving_up;
mod going_on;
mod input;
mod journal_input;
mod journal_parts;
mod program;
mod running;
mod say;
mod serving;
mod site;
mod telling;

pub use ending::Ending;
pub use program::run_program;
pub use site::{plain_command, shared_command, site_main};
