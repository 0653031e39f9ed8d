ghost use Rattle.std.specs.Prelude.{◌≡◌, IfOk};
ghost use Rattle.pp_values.specs.Views.{view};
ghost use Rattle.pp_values.specs.Members.{opened};

use crate::memory::Memory;
use crate::pairs::Pairs;
use crate::ptype::TypeBox;
use crate::reference::Reference;
use crate::text::Text;
use crate::values::Values;
use sqlite_items::Boxed;
use std::alloc::Global;

/// A value of the language.
#[cycle(value)]
pub enum Value {
    Undef,
    Flag(bool),
    Int(i64),
    Text(Text),
    List(Values),
    Hash(Pairs),
    /// A reference to a resource, such as `File['/tmp']`.
    Ref(Boxed<Reference>),
    /// A data type as a value.
    Kind(TypeBox),
    /// The literal `default`.
    Default,
}

impl Value {
    /// The members of a list, or the value alone. Lists within stay as they are.
    pub fn into_members(self, alloc: Global) -> Result<Values, Memory>
        ensures { IfOk result (λ members. members ≡ opened (view self)) }
    {
        match self {
            Value::List(items) => Ok(items),
            other => {
                let mut items = Vec::new(alloc);
                items.push(other)?;
                Values::from_vec(items)
            }
        }
    }
}

// By hand, so that letting one go is one step for whoever holds it.
impl Drop for Value {
    #[cycle(dropping)]
    fn drop(self) {
        match self {
            Value::Undef => {}
            Value::Flag(_flag) => {}
            Value::Int(_number) => {}
            Value::Text(_text) => {}
            Value::List(_items) => {}
            Value::Hash(_pairs) => {}
            Value::Ref(_reference) => {}
            Value::Kind(_kind) => {}
            Value::Default => {}
        }
    }
}
