/// A reply, with the place of its request among all requests.
#[derive(Drop)]
pub struct Answered<T> {
    pub index: u32,
    pub reply: T,
}
