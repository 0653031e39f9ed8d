use pp_tree::Class;
use pp_values::Text;

/// Classes that are declared together: a class and its parents. Contracts see what they say by `chain_seen`.
#[derive(Drop)]
pub struct Chain<'a> {
    /// The last parent, or the class where it is alone.
    pub last: &'a Class,
    /// The class, and then those of its parents that stand before the last.
    pub before: Vec<&'a Class>,
    /// The name of the last one's own parent, which is declared already or is no class of the site.
    pub parent: Option<Text>,
}
