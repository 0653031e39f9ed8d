ghost use Rattle.std.specs.Prelude.{◌≡◌};
ghost use Rattle.eval_world.specs.Reading.{template_read};

use pp_tree::Template;

/// A template that was read: one that the site keeps, or one of a text that is parsed where it is used.
#[derive(Drop)]
pub enum ReadTemplate<'a> {
    /// Of a file, which was parsed when the site was made.
    Kept(&'a Template),
    /// Parsed where it is used.
    New(Template),
}

impl<'a> ReadTemplate<'a> {
    /// Its tree.
    pub fn get(&self) -> &Template
        ensures { result.now ≡ template_read self.now }
    {
        match self {
            ReadTemplate::Kept(template) => template,
            ReadTemplate::New(template) => template,
        }
    }
}
