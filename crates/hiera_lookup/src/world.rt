use hiera_config::{SiteData, Variables};

/// What a look-up stands on: the data, and the variables.
#[derive(Clone, Copy)]
pub struct World<'a> {
    pub data: &'a SiteData,
    pub variables: Variables<'a>,
}
