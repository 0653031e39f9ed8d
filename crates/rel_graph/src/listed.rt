/// What is listed, in order, and the marks of what is left.
#[derive(Drop)]
pub struct Listed {
    pub order: Vec<u32>,
    pub left: Vec<bool>,
}
