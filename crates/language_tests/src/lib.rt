//! The tests of what the language is made of (values, tokens, manifests with their trees, resources), and of machines.
#![tactic(auto)]

#[cfg(test)]
mod attributes;
#[cfg(test)]
mod copies;
#[cfg(test)]
mod declarations;
#[cfg(test)]
mod definitions;
#[cfg(test)]
mod forms;
#[cfg(test)]
mod levels;
#[cfg(test)]
mod machines;
#[cfg(test)]
mod manifests;
#[cfg(test)]
mod natives;
#[cfg(test)]
mod orders;
#[cfg(test)]
mod overriding;
#[cfg(test)]
mod queries;
#[cfg(test)]
mod reading;
#[cfg(test)]
mod reports;
#[cfg(test)]
mod resources;
#[cfg(test)]
mod templates;
#[cfg(test)]
mod tokens;
#[cfg(test)]
mod value_forms;
#[cfg(test)]
mod value_names;
