use crate::layout::Layout;
use override_rules::Overrides;
use res_book::{Book, Collector};

/// What relations are read by.
#[derive(Clone, Copy)]
pub struct Tables<'a> {
    pub book: &'a Book,
    pub lines: &'a Overrides,
    pub layout: &'a Layout,
    pub collectors: &'a [Collector],
}
