ghost use Rattle.std.specs.Prelude.{◌≡◌, IfOk, IsTrue, nat_eq};
ghost use Rattle.std.specs.List.{list_all};
ghost use Rattle.std.specs.Cmp.{partial_equiv_from_equiv};
ghost use Rattle.std.specs.Cmp.Lexicographic.{pointwise, nat_list_eq_equiv};
ghost use Rattle.pp_values.specs.Kinds.{is_kind, is_kind_byte, kind_of};

use crate::memory::Memory;
use crate::text::Text;
use std::alloc::Global;
use std::fmt;
use std::marker::Model;

/// The name of a kind of resource, such as `file` or `web::vhost`: a text in lower case (as far as its letters are
/// ASCII), without `[`, and not empty. A contract sees it as its bytes in UTF-8.
///
/// So the printed forms of two references are the same only where the references are.
#[derive(Drop)]
pub struct Kind {
    text: Text,
}

impl Model for Kind {
    ghost use Rattle.std.specs.Prelude.{ℕ, List, IsTrue};
    ghost use Rattle.pp_values.specs.Kinds.{is_kind};

    ghost Value = { List ℕ };

    ghost view = { λ k. k.text };

    ghost invariant = { λ k. IsTrue (is_kind k.text) };
}

impl Kind {
    pub fn new(text: Text) -> Kind
        requires { IsTrue (is_kind text) }
        ensures { result ≡ text }
    {
        Kind { text }
    }

    /// The kind of this name, such as a literal's.
    pub fn from_str(alloc: Global, name: &str) -> Result<Kind, Memory>
        requires { IsTrue (is_kind name.now) }
        ensures { IfOk result (λ k. k ≡ name.now) }
    {
        Ok(Kind {
            text: Text::from_str(alloc, name)?,
        })
    }

    /// The text as a kind, where it is one.
    pub fn from_text(text: Text) -> Option<Kind>
        ensures { result ≡ kind_of text }
    {
        if is_kind(text.as_str()) {
            Some(Kind { text })
        } else {
            None
        }
    }

    pub fn as_text(&self) -> &Text
        ensures text { result.now ≡ self.now }
        ensures kind { IsTrue (is_kind self.now) }
    {
        &self.text
    }

    pub fn as_str(&self) -> &str
        ensures text { result.now ≡ self.now }
        ensures kind { IsTrue (is_kind self.now) }
    {
        self.text.as_str()
    }

    pub fn into_text(self) -> Text
        ensures text { result ≡ self }
        ensures kind { IsTrue (is_kind self) }
    {
        self.text
    }

    pub fn copy(&self, alloc: Global) -> Result<Kind, Memory>
        ensures { IfOk result (λ k. k ≡ self.now) }
    {
        Ok(Kind {
            text: self.text.copy(alloc)?,
        })
    }

    /// Whether this is the kind of that name.
    pub fn is(&self, name: &str) -> bool
        ensures { result ≡ pointwise nat_eq self.now name.now }
    {
        self.text.is(name)
    }
}

/// Whether the text names a kind of resource.
pub fn is_kind(text: &str) -> bool
    ensures { result ≡ is_kind text.now }
{
    match text.as_bytes() {
        [] => false,
        bytes => are_kind_bytes(bytes),
    }
}

fn are_kind_bytes(bytes: &[u8]) -> bool
    ensures { result ≡ list_all is_kind_byte bytes.now }
{
    bytes.iter().all(|byte| is_kind_byte(*byte))
}

fn is_kind_byte(byte: u8) -> bool
    ensures { result ≡ is_kind_byte byte }
{
    !byte.is_ascii_uppercase() && byte != b'['
}

impl PartialEq for Kind {
    ghost eq = { pointwise nat_eq };

    ghost laws = { partial_equiv_from_equiv nat_list_eq_equiv };

    fn eq(&self, other: &Kind) -> bool {
        self.text == other.text
    }
}

impl Eq for Kind {
    ghost laws = { nat_list_eq_equiv };
}

impl fmt::Debug for Kind {
    fn fmt<W: fmt::Write>(&self, f: &mut fmt::Formatter<W>) -> fmt::Result {
        let text = self.as_str();
        write!(f, "{text:?}")
    }
}
