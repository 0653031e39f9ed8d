//! The grammar of manifests.
#![tactic(auto)]

mod argument;
mod attributes;
mod brackets;
mod calls;
mod collectors;
mod conditions;
mod cursor;
mod definitions;
mod files;
mod found;
mod function_bodies;
mod functions;
mod inset;
mod item;
mod keys;
mod kinds;
mod levels;
mod lists;
mod manifest;
mod operands;
mod operators;
mod params;
mod postfixes;
mod refusal;
mod resources;
mod rules;
mod started;
mod statements;
mod template_reading;
mod templates;
mod texts;

pub use manifest::parse;
pub use template_reading::read_template;
