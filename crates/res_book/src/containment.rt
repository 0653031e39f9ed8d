/// One declaration stands within another too, by the function `contain`. Both are given by their numbers.
#[derive(Clone, Copy, Debug, PartialEq, Eq)]
pub struct Containment {
    pub outer: u32,
    pub inner: u32,
}
