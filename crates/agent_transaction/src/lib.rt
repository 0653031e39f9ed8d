//! A catalog is applied to a machine, one resource after another.
#![tactic(auto)]

mod applying;
mod ended;
mod laws;
mod ordering;
mod plan;
mod planned;
mod planning;
mod prepared;
mod ready;
mod relating;
mod run_stop;
mod running;
mod running_all;
mod setting;
mod step;
mod task;
mod tasks;
mod turns;
mod want;
mod wants;
mod work;

pub use applying::run_catalog;
pub use laws::{
    a_refresh_is_one, a_report_says_what_was_done, a_second_run_changes_nothing, a_told_run_is_one,
    a_told_turn_is_one, records_rise, there_is_a_told_run, there_is_a_told_turn,
};
pub use plan::Plan;
pub use planned::Planned;
pub use prepared::{Prepared, prepare};
pub use ready::Ready;
pub use relating::{containment, relations};
pub use run_stop::RunStop;
pub use running_all::{has_failed, mark_if, signals};
