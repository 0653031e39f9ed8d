use pp_values::{Kind, Text, Value};

/// A resource with what it is called on its node, and the provider that makes it.
pub struct Named {
    pub kind: Kind,
    pub title: Text,
    pub name: Value,
    pub provider: Value,
}

// By hand, so that a list of these is dropped by one call for each.
impl Drop for Named {
    fn drop(self) {
        let Named {
            kind: _kind,
            title: _title,
            name: _name,
            provider: _provider,
        } = self;
    }
}
