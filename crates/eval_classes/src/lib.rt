//! Classes, defines and functions: where their definitions are found, how a class is declared, and what the bodies of
//! classes and defines mean.
#![tactic(auto)]

mod above;
mod asked;
mod attribute_set;
mod attributes;
mod binding;
mod bodies;
mod body_owner;
mod chain;
mod chains;
mod declaring;
mod definitions;
mod entered;
mod entering;
mod flattening;
mod found;
mod functions;
mod homes;
mod included;
mod including;
mod instances;
mod laws;
mod listed;
mod listing;
mod names;
mod own_names;
mod parameter_types;
mod parameters;
mod parents;
mod paths;
mod site_function;
mod tagging;

pub use above::{right_of, sources_above};
pub use attribute_set::AttributeSet;
pub use attributes::is_value;
pub use bodies::{class_body, instance_body};
pub use body_owner::BodyOwner;
pub use definitions::{class_found, define_found, unknown_type};
pub use entering::enter_body;
pub use flattening::{flat, flattened};
pub use functions::{function_found, function_path};
pub use included::{declare_class, declare_once, include};
pub use including::Including;
pub use instances::run_instance;
pub use laws::ways_suffice;
pub use names::{class_reference, normal_name, param_names};
pub use parameter_types::{accepted, has_type};
pub use site_function::SiteFunction;
pub use tagging::{given_tags, tags_within};
