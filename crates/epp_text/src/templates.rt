//! Templates that are parsed once, and used whenever they are rendered.
ghost use Rattle.std.specs.Prelude.{◌≡◌, [], Some, is_ok, if◌then◌else◌, IsSome, IfSome};
ghost use Rattle.std.specs.BTreeMap.{insert_entry, is_at};
ghost use Rattle.std.specs.Map.{lookup};
ghost use Rattle.epp_text.specs.Parsing.{template_of};
ghost use Rattle.pp_values.specs.Rising.{text_cmp};

use crate::template_file::TemplateFile;
use pp_tree::Template;
use pp_values::{Fault, Memory, Text};
use std::alloc::Global;
use std::collections::BTreeMap;
use std::marker::Model;

/// Files with templates, by path in byte order. A contract sees their paths and texts.
#[derive(Drop)]
pub struct Templates {
    by_path: BTreeMap<Text, TemplateFile>,
}

impl Model for Templates {
    ghost use Rattle.std.specs.Prelude.{ℕ, List};
    ghost use Rattle.epp_text.specs.Seen.{Filed};

    ghost Value = { List (List ℕ × Filed) };

    ghost view = { λ t. t.by_path.entries };
}

impl Templates {
    pub fn new(alloc: Global) -> Templates
        ensures { result ≡ [] }
    {
        Templates {
            by_path: BTreeMap::new(alloc),
        }
    }

    /// Parses the template of a file, and keeps it in place of what was kept at its path. Where there is no memory, what
    /// is kept stays as it was.
    pub fn read(&mut self, alloc: Global, path: &Text, text: &Text) -> Result<(), Memory>
        ensures { self.new ≡ (if is_ok result then insert_entry text_cmp self.old path.now (path.now, text.now)
            else self.old) }
    {
        let file = TemplateFile::new(alloc, path.copy(alloc)?, text.copy(alloc)?)?;
        drop(self.by_path.insert(path.copy(alloc)?, file)?);
        Ok(())
    }

    /// What was read of the template of this text in the file at this path, if it is kept.
    pub fn get(&self, path: &Text, text: &Text) -> Option<&Result<Template, Fault>>
        ensures read { IfSome result (λ r. r.now ≡ template_of path.now text.now) }
        ensures kept { lookup (is_at (text_cmp path.now)) self.now ≡ Some (path.now, text.now) → IsSome result }
    {
        match self.by_path.get(path) {
            Some(file) => file.template(path, text),
            None => None,
        }
    }
}
