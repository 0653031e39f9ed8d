use crate::attributes::Attributes;
use crate::tags::Tags;
use pp_values::{Kind, Text};

/// A resource as it was declared.
pub struct Resource {
    pub kind: Kind,
    pub title: Text,
    pub attributes: Attributes,
    pub tags: Tags,
}

// By hand, so that letting one go is one step for whoever holds it.
impl Drop for Resource {
    fn drop(self) {
        let Resource {
            kind: _kind,
            title: _title,
            attributes: _attributes,
            tags: _tags,
        } = self;
    }
}
