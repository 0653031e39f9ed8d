use crate::entries::Entries;

/// The most entries that a history may have.
pub const MOST_ENTRIES: u32 = 1_048_576;

/// The greatest author that a history may have which is gone on with. New authors are numbered from there on.
pub const GREATEST_AUTHOR: u32 = 2_147_483_648;

/// What happened to a site, in order.
#[derive(Drop)]
pub struct History<S> {
    pub entries: Entries<S>,
}
