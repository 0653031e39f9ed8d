//! JSON that is written from its beginning to its end, with no tree of it.
ghost use Rattle.std.specs.Prelude.{◌≡◌, ◌∷◌, ◌++◌, [], IfOk, OnOk, decimal};
ghost use Rattle.std.specs.Fmt.{signed_decimal};
ghost use Rattle.json.specs.Token.{begin_object, end_object, begin_array, end_array, key, string, number, boolean, null};
ghost use Rattle.json.specs.Print.{print};

use json::Writer;
use pp_values::Text;
use std::alloc::{AllocError, Global};
use std::marker::Model;

/// Compact JSON, to which one part after another is written. A contract sees the parts as tokens.
///
/// It places commas and colons, and leaves the nesting to its callers.
#[derive(Drop)]
pub struct JsonOutput {
    writer: Writer,
}

impl Model for JsonOutput {
    ghost use Rattle.std.specs.Prelude.{List, [], ◌≡◌};
    ghost use Rattle.json.specs.Token.{Token, tokens_code};

    ghost Value = { List Token };

    ghost coded = { tokens_code };

    ghost view = { λ o. o.writer.tokens };

    ghost invariant = { λ o. o.writer.before ≡ [] };
}

impl JsonOutput {
    pub fn new(alloc: Global) -> Result<JsonOutput, AllocError>
        ensures { IfOk result (λ o. o ≡ []) }
    {
        let writer = Writer::new(Vec::with_capacity(alloc, 128)?);
        Ok(JsonOutput { writer })
    }

    pub fn into_text(self) -> Text
        ensures { result ≡ print self }
    {
        let JsonOutput { writer } = self;
        let Ok(text) = String::from_utf8(writer.into_inner()) else {
            unreachable!();
        };
        Text::new(text)
    }

    #[inline]
    pub fn begin_object(&mut self) -> Result<(), AllocError>
        ensures { OnOk result (self.new ≡ self.old ++ begin_object ∷ []) }
    {
        self.writer.begin_object()
    }

    #[inline]
    pub fn end_object(&mut self) -> Result<(), AllocError>
        ensures { OnOk result (self.new ≡ self.old ++ end_object ∷ []) }
    {
        self.writer.end_object()
    }

    #[inline]
    pub fn begin_array(&mut self) -> Result<(), AllocError>
        ensures { OnOk result (self.new ≡ self.old ++ begin_array ∷ []) }
    {
        self.writer.begin_array()
    }

    #[inline]
    pub fn end_array(&mut self) -> Result<(), AllocError>
        ensures { OnOk result (self.new ≡ self.old ++ end_array ∷ []) }
    {
        self.writer.end_array()
    }

    #[inline]
    pub fn key(&mut self, name: &str) -> Result<(), AllocError>
        ensures { OnOk result (self.new ≡ self.old ++ key name.now ∷ []) }
    {
        self.writer.key(name)
    }

    #[inline]
    pub fn string(&mut self, text: &str) -> Result<(), AllocError>
        ensures { OnOk result (self.new ≡ self.old ++ string text.now ∷ []) }
    {
        self.writer.string(text)
    }

    #[inline]
    pub fn index(&mut self, index: u32) -> Result<(), AllocError>
        ensures { OnOk result (self.new ≡ self.old ++ number (decimal index) ∷ []) }
    {
        self.writer.u64(u64::from(index))
    }

    #[inline]
    pub fn integer(&mut self, integer: i64) -> Result<(), AllocError>
        ensures { OnOk result (self.new ≡ self.old ++ number (signed_decimal integer) ∷ []) }
    {
        self.writer.i64(integer)
    }

    #[inline]
    pub fn boolean(&mut self, flag: bool) -> Result<(), AllocError>
        ensures { OnOk result (self.new ≡ self.old ++ boolean flag ∷ []) }
    {
        self.writer.boolean(flag)
    }

    #[inline]
    pub fn null(&mut self) -> Result<(), AllocError>
        ensures { OnOk result (self.new ≡ self.old ++ null ∷ []) }
    {
        self.writer.null()
    }
}
