/// The turn of a pass: the value is out of the lock. A turn that is dropped is never given back, and nobody
/// has one after it.
#[derive(Drop)]
pub struct Turn<V> {
    pub value: V,
}
