ghost use Rattle.std.specs.Prelude.{◌≡◌, IfOk};
ghost use Rattle.pp_values.specs.Faults.{fault};

use crate::kind::Kind;
use crate::memory::Memory;
use crate::place::Place;
use crate::reference::Reference;
use crate::refs::Refs;
use crate::text::Text;
use sqlite_items::Boxed;
use std::alloc::{AllocError, AllocFailed, Global};

/// Why a manifest has no catalog, and where.
#[derive(Debug)]
pub struct Fault {
    pub at: Place,
    pub what: Boxed<What>,
}

// By hand, so that no crate above proves the drops of the details again.
impl Drop for Fault {
    fn drop(self) {
        let Fault {
            at: _at,
            what: _what,
        } = self;
    }
}

impl Fault {
    pub fn new(alloc: Global, at: Place, what: What) -> Result<Fault, Memory>
        ensures { IfOk result (λ f. f ≡ fault at what) }
    {
        let what = Boxed::new(alloc, what)?;
        Ok(Fault { at, what })
    }
}

/// A fault of the language, with its details. The faults are numbered from 1 in this order.
#[derive(Debug, Drop)]
pub enum What {
    /// The text follows no rule of the grammar.
    Syntax,

    /// The variable, as written after `$`, has no value.
    UnknownVariable(Text),

    /// The variable has a value in this scope already.
    Reassigned(Text),

    /// No class of that name, in lower case without a leading `::`.
    UnknownClass(Text),

    /// No kind of resource of that name, in lower case without a leading `::`.
    UnknownType(Text),

    /// No function of that name, as written.
    UnknownFunction(Text),

    /// The function or data type does not take these arguments.
    WrongArguments(Text),

    /// The value of this parameter, or of `title` or `lookup`, is outside its type.
    TypeMismatch(Text),

    /// The parameter was not given and has no default.
    MissingParameter {
        reference: Reference,
        name: Text,
    },

    /// The resource has no parameter of that name.
    UnknownParameter {
        reference: Reference,
        name: Text,
    },

    /// The operator or function has no meaning for these operands.
    BadOperand(Text),

    /// The operator's result is no 64-bit integer.
    NumberRange(Text),

    /// The operator's divisor is 0.
    ZeroDivisor(Text),

    /// The reference was declared before, at that place.
    Duplicate {
        reference: Reference,
        earlier: Place,
    },

    /// The attribute of the resource, or the default of the kind, is set already.
    AlreadySet {
        subject: Subject,
        name: Text,
    },

    /// An override whose resource never appears.
    NoOverrideTarget(Reference),

    /// A relation whose resource never appears.
    NoRelationTarget(Reference),

    /// Each of these resources stands before the next, and the last before the first.
    Cycle(Refs),

    /// No node definition fits this node.
    NoNode(Text),

    /// The key has no value and no default.
    LookupMissing(Text),

    /// The key is looked up within its own look-up.
    LookupLoop(Text),

    /// The values of the key are of kinds that the merge does not take.
    MergeMismatch(Text),

    /// The file of data or configuration at this path is faulty.
    BadData(Text),

    /// A faulty interpolation in data: the text from `%{` on.
    BadInterpolation(Text),

    /// The function `fail` was called with this message.
    Failed(Text),

    /// A class was declared as virtual or exported, or collected, where the subject is the kind `class`.
    ClassVirtual(Subject),

    /// Too many rounds.
    RoundLimit,

    /// Too many resources.
    ResourceLimit,

    /// The manifest, or its evaluation, nests too deep.
    DepthLimit,

    /// Two resources of one kind have the same name attribute.
    SameNamevar {
        later: Reference,
        earlier: Reference,
    },
}

/// What a fault is about: one resource, or a kind of resource.
#[derive(Debug, Drop)]
pub enum Subject {
    Reference(Reference),
    Kind(Kind),
}

/// Why a call of the language gave no value.
#[derive(Debug, Drop)]
pub enum Stop {
    Fault(Fault),
    Memory,
}

impl From<Fault> for Stop {
    ghost use Rattle.std.specs.Prelude.{◌≡◌};
    ghost use Rattle.pp_values.specs.declared.fault.Stop.TheVariants as stop;

    ghost from_gives = { λ fault s. s ≡ stop.Fault fault };

    fn from(fault: Fault) -> Stop {
        Stop::Fault(fault)
    }
}

impl From<Memory> for Stop {
    ghost use Rattle.std.specs.Prelude.{◌≡◌};
    ghost use Rattle.pp_values.specs.declared.fault.Stop.TheVariants as stop;

    ghost from_gives = { λ _ s. s ≡ stop.Memory };

    fn from(_refused: Memory) -> Stop {
        Stop::Memory
    }
}

impl From<AllocError> for Stop {
    ghost use Rattle.std.specs.Prelude.{◌≡◌};
    ghost use Rattle.pp_values.specs.declared.fault.Stop.TheVariants as stop;

    ghost from_gives = { λ _ s. s ≡ stop.Memory };

    fn from(_refused: AllocError) -> Stop {
        Stop::Memory
    }
}

impl<T: Drop> From<AllocFailed<T>> for Stop {
    ghost use Rattle.std.specs.Prelude.{◌≡◌};
    ghost use Rattle.pp_values.specs.declared.fault.Stop.TheVariants as stop;

    ghost from_gives = { λ _ s. s ≡ stop.Memory };

    fn from(_refused: AllocFailed<T>) -> Stop {
        Stop::Memory
    }
}
