//! The data of a site: its files, the configurations of its layers, and the sources that they give for a key.
#![tactic(auto)]

mod config;
mod config_reading;
mod cutting;
mod file_options;
mod flags;
mod folders;
mod forms;
mod highest;
mod interpolation;
mod laws;
mod level_reading;
mod literals;
mod mapping;
mod modules;
mod names;
mod option_table;
mod paths;
mod plan;
mod planned;
mod reaching;
mod refused;
mod searching;
mod site_data;
mod soundness;
mod template;
mod told_options;
mod variables;

pub use config::{Config, Layer, Level, LevelPaths, Levels};
pub use config_reading::read_config;
pub use highest::highest_value;
pub use interpolation::{Piece, interpolates, pieces, whole_alias};
pub use laws::turns_suffice;
pub use literals::is_literal;
pub use modules::module_of;
pub use option_table::OPTIONS;
pub use refused::{Refused, bad_data, bad_interpolation};
pub use searching::{Source, sources};
pub use site_data::{DataFile, SiteData, data_from};
pub use template::{Template, Templates};
pub use told_options::option_of;
pub use variables::Variables;
