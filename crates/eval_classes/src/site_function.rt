use pp_tree::Function;
use pp_values::Text;

/// A function that the site defines.
#[derive(Drop)]
pub struct SiteFunction<'a> {
    pub function: &'a Function,
    /// The path of the file that it stands in.
    pub file: Text,
}
