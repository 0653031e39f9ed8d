ghost use Rattle.std.specs.Prelude.{◌≡◌, [], IfOk};
ghost use Rattle.pp_values.specs.Rising.{has_text};
ghost use Rattle.agent_machine.specs.CallTexts.{pieces_text};

use crate::call_text::CallText;
use pp_values::{Memory, Text, Texts};
use std::alloc::Global;
use std::collections::BTreeSet;
use std::marker::Model;
use std::sync::Arc;

/// Texts, and the same ones in order.
#[derive(Drop)]
pub struct Listed {
    texts: Texts,
    in_order: BTreeSet<Text>,
}

/// Texts of calls that fail, such as `write File[/a] mode`, in the order in which they were given. Parts of a machine
/// share them.
///
/// A contract sees the texts. They are kept sorted beside, so that each call finds whether it is among them.
#[derive(Drop)]
pub struct FailingTexts {
    none: Texts,
    some: Option<Arc<Listed>>,
}

impl Model for FailingTexts {
    ghost use Rattle.std.specs.Prelude.{ℕ, List};
    ghost use Rattle.agent_machine.specs.Failing.{texts_in, IsListed};

    ghost Value = { List (List ℕ) };

    ghost view = { λ f. texts_in f.none f.some };

    ghost invariant = { λ f. IsListed f.none f.some };
}

impl FailingTexts {
    pub fn new(alloc: Global) -> FailingTexts
        ensures { result ≡ [] }
    {
        FailingTexts {
            none: Texts::new(alloc),
            some: None,
        }
    }

    pub fn from_texts(alloc: Global, texts: Texts) -> Result<FailingTexts, Memory>
        ensures { IfOk result (λ f. f ≡ texts) }
    {
        let mut in_order = BTreeSet::new(alloc);
        let mut left = texts.as_slice();
        while let [text, after @ ..] = left {
            in_order.insert(text.copy(alloc)?)?;
            left = after;
        }
        let listed = Arc::new(alloc, Listed { texts, in_order })?;
        Ok(FailingTexts {
            none: Texts::new(alloc),
            some: Some(listed),
        })
    }

    /// The same texts, which are not copied.
    pub(crate) fn share(&self, alloc: Global) -> Result<FailingTexts, Memory>
        ensures { IfOk result (λ f. f ≡ self.now) }
    {
        match &self.some {
            Some(listed) => Ok(FailingTexts {
                none: Texts::new(alloc),
                some: Some(listed.clone()?),
            }),
            None => Ok(FailingTexts::new(alloc)),
        }
    }

    pub fn as_texts(&self) -> &Texts
        ensures { result.now ≡ self.now }
    {
        match &self.some {
            Some(listed) => &listed.texts,
            None => &self.none,
        }
    }

    /// Whether this call is among them.
    pub(crate) fn has(&self, call: CallText<'_>) -> bool
        ensures { result ≡ has_text self.now (pieces_text call.entry) }
    {
        match &self.some {
            Some(listed) => listed.in_order.contains(call),
            None => false,
        }
    }
}
