//! Texts of configurations.
ghost use Rattle.std.specs.Prelude.{◌≡◌, IfSome, None, codes};
ghost use Rattle.hiera_config.specs.Cuts.{cut_at};

use crate::interpolation::interpolates;
use pp_values::{Items, Text};
use std::marker::Model;

/// A text of a configuration in which variables may stand. A contract sees it as its bytes. Whether it has any is
/// known from when it is made.
#[derive(Debug)]
pub struct Template {
    text: Text,
    is_plain: bool,
}

// By hand, so that callers drop a template by one call.
impl Drop for Template {
    fn drop(self) {
        let Template {
            text: _text,
            is_plain: _is_plain,
        } = self;
    }
}

impl Model for Template {
    ghost use Rattle.std.specs.Prelude.{◌≡◌, ℕ, true, List, None, codes};
    ghost use Rattle.pp_values.specs.Codes.{coded_text};
    ghost use Rattle.hiera_config.specs.Cuts.{cut_at};

    ghost Value = { List ℕ };

    ghost coded = { coded_text };

    ghost view = { λ t. t.text };

    ghost invariant = { λ t. t.is_plain ≡ true → None ≡ cut_at (codes "%{") t.text };
}

impl Template {
    pub fn new(text: Text) -> Template
        ensures { result ≡ text }
    {
        let is_plain = !interpolates(text.as_str());
        Template { text, is_plain }
    }

    pub fn as_str(&self) -> &str
        ensures { result.now ≡ self.now }
    {
        self.text.as_str()
    }

    /// The text, where no variables stand in it.
    pub fn plain(&self) -> Option<&str>
        ensures text { IfSome result (λ t. t.now ≡ self.now) }
        ensures plain { IfSome result (λ t. None ≡ cut_at (codes "%{") self.now) }
    {
        if self.is_plain {
            Some(self.text.as_str())
        } else {
            None
        }
    }
}

/// Templates in their order.
pub type Templates = Items<Template>;
