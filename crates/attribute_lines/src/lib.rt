//! Lines of attributes: what stands within the braces of a resource, an override, a default statement or a collector.
#![tactic(auto)]

mod reading;

pub use reading::lines;
