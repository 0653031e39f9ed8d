//! The template of a file.
ghost use Rattle.std.specs.Prelude.{◌≡◌, IsSome, IfOk, IfSome};
ghost use Rattle.epp_text.specs.Parsing.{template_of};

use crate::parsing::parse_epp;
use pp_tree::Template;
use pp_values::{Fault, Memory, Stop, Text};
use std::alloc::Global;
use std::marker::Model;

/// A file with a template, which was parsed once: its tree, or its first fault. A contract sees its path and its text.
#[derive(Drop)]
pub struct TemplateFile {
    path: Text,
    text: Text,
    read: Result<Template, Fault>,
}

impl Model for TemplateFile {
    ghost use Rattle.std.specs.Prelude.{◌≡◌};
    ghost use Rattle.epp_text.specs.Parsing.{template_of};
    ghost use Rattle.epp_text.specs.Seen.{Filed};

    ghost Value = { Filed };

    ghost view = { λ f. (f.path, f.text) };

    ghost invariant = { λ f. f.read ≡ template_of f.path f.text };
}

impl TemplateFile {
    /// The file of this text at this path. It is parsed here.
    pub fn new(alloc: Global, path: Text, text: Text) -> Result<TemplateFile, Memory>
        ensures { IfOk result (λ f. f ≡ (path, text)) }
    {
        let read = tree_or_fault(alloc, &path, &text)?;
        Ok(TemplateFile { path, text, read })
    }

    /// What was read of it, where it is the file of this text at this path.
    pub fn template(&self, path: &Text, text: &Text) -> Option<&Result<Template, Fault>>
        ensures read { IfSome result (λ r. r.now ≡ template_of path.now text.now) }
        ensures same { self.now ≡ (path.now, text.now) → IsSome result }
    {
        if self.path.is(path.as_str()) && self.text.is(text.as_str()) {
            Some(&self.read)
        } else {
            None
        }
    }
}

fn tree_or_fault(alloc: Global, path: &Text, text: &Text) -> Result<Result<Template, Fault>, Memory>
    ensures { IfOk result (λ read. read ≡ template_of path.now text.now) }
{
    match parse_epp(alloc, path, text) {
        Ok(template) => Ok(Ok(template)),
        Err(Stop::Fault(fault)) => Ok(Err(fault)),
        Err(Stop::Memory) => Err(Memory),
    }
}
