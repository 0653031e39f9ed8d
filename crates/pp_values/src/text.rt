ghost use Rattle.std.specs.Prelude.{◌≡◌, IfOk, Some, nat_eq, string_bytes, refl};
ghost use Rattle.std.specs.Ordering.{nat_cmp};
ghost use Rattle.std.specs.Cmp.Lexicographic.{pointwise, slice_cmp, nat_list_eq_equiv, nat_list_cmp_total, texts_ties, texts_po};
ghost use Rattle.std.specs.Cmp.{partial_equiv_from_equiv};
ghost use Rattle.std.specs.Str.{IsUtf8};

use crate::memory::Memory;
use crate::short_text::ShortText;
use std::alloc::Global;
use std::cmp::Ordering;
use std::convert::AsStr;
use std::fmt;
use std::marker::Model;

/// A text. A contract sees it as its bytes in UTF-8.
///
/// Names, titles and tags are short, and are copied more often than anything else: up to 30 bytes lie in the value.
pub struct Text {
    form: TextForm,
}

#[derive(Drop)]
pub(crate) enum TextForm {
    Short(ShortText),
    Long(String),
}

// By hand, so that letting one go is one step for whoever holds it.
impl Drop for Text {
    fn drop(self) {
        let Text { form: _form } = self;
    }
}

impl Model for Text {
    ghost use Rattle.std.specs.Prelude.{ℕ, List};
    ghost use Rattle.pp_values.specs.TextForms.{form_bytes};

    ghost Value = { List ℕ };

    ghost view = { λ t. form_bytes t.form };
}

impl Text {
    pub fn new(string: String) -> Text
        ensures { result ≡ string_bytes string }
    {
        Text {
            form: TextForm::Long(string),
        }
    }

    pub fn from_str(alloc: Global, text: &str) -> Result<Text, Memory>
        ensures { IfOk result (λ t. t ≡ text.now) }
    {
        let form = match ShortText::from_str(text) {
            Some(short) => TextForm::Short(short),
            None => TextForm::Long(String::from_str(alloc, text)?),
        };
        Ok(Text { form })
    }

    pub fn as_str(&self) -> &str
        ensures text { result.now ≡ self.now }
        ensures utf8 { IsUtf8 self.now }
    {
        match &self.form {
            TextForm::Short(short) => short.as_str(),
            TextForm::Long(string) => string.as_str(),
        }
    }

    /// Takes memory for a short text alone.
    pub fn into_string(self, alloc: Global) -> Result<String, Memory>
        ensures { IfOk result (λ string. string_bytes string ≡ self) }
    {
        let Text { form } = self;
        match form {
            TextForm::Short(short) => Ok(String::from_str(alloc, short.as_str())?),
            TextForm::Long(string) => Ok(string),
        }
    }

    pub fn copy(&self, alloc: Global) -> Result<Text, Memory>
        ensures { IfOk result (λ t. t ≡ self.now) }
    {
        let form = match &self.form {
            TextForm::Short(short) => TextForm::Short(short.copy()),
            TextForm::Long(string) => TextForm::Long(String::from_str(alloc, string.as_str())?),
        };
        Ok(Text { form })
    }

    /// The order of the bytes.
    pub fn compare(&self, other: &Text) -> Ordering
        ensures { result ≡ slice_cmp nat_cmp self.now other.now }
    {
        self.as_str().cmp(other.as_str())
    }

    /// Whether this is that text, letter by letter.
    pub fn is(&self, other: &str) -> bool
        ensures { result ≡ pointwise nat_eq self.now other.now }
    {
        self.as_str() == other
    }
}

impl From<String> for Text {
    ghost from_gives = { λ string text. text ≡ string_bytes string };

    fn from(string: String) -> Text {
        Text::new(string)
    }
}

impl AsStr for Text {
    ghost text = { λ text. text };

    fn as_str(&self) -> &str {
        Text::as_str(self)
    }
}

impl PartialEq for Text {
    ghost eq = { pointwise nat_eq };

    ghost laws = { partial_equiv_from_equiv nat_list_eq_equiv };

    fn eq(&self, other: &Text) -> bool {
        self.as_str() == other.as_str()
    }
}

impl Eq for Text {
    ghost laws = { nat_list_eq_equiv };
}

impl PartialOrd for Text {
    ghost partial_cmp = { λ x y. Some (slice_cmp nat_cmp x y) };

    ghost laws = { texts_po };

    fn partial_cmp(&self, other: &Text) -> Option<Ordering> {
        Some(self.cmp(other))
    }
}

impl Ord for Text {
    ghost cmp = { slice_cmp nat_cmp };

    ghost total = { nat_list_cmp_total };

    ghost matches_partial_cmp = { λ x y. refl };

    ghost matches_eq = { texts_ties };

    fn cmp(&self, other: &Text) -> Ordering {
        self.compare(other)
    }
}

impl fmt::Display for Text {
    ghost output = { λ text. Some text };

    fn fmt<W: fmt::Write>(&self, f: &mut fmt::Formatter<W>) -> fmt::Result {
        f.write_str(self.as_str())
    }
}

impl fmt::Debug for Text {
    fn fmt<W: fmt::Write>(&self, f: &mut fmt::Formatter<W>) -> fmt::Result {
        let text = self.as_str();
        write!(f, "{text:?}")
    }
}
