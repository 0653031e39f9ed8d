use crate::param::Params;
use crate::statement::Block;

/// A template: its parameters, where it declares any, and the statements of its tags with what is emitted between them.
pub struct Template {
    pub params: Option<Params>,
    pub block: Block,
}

// By hand, so that a crate that lets a template go proves one call, and not the drop of each type of the tree.
impl Drop for Template {
    fn drop(self) {
        let Template {
            params: _params,
            block: _block,
        } = self;
    }
}
