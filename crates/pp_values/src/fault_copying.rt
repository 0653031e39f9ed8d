//! Copies of faults.
ghost use Rattle.std.specs.Prelude.{◌≡◌, IfOk};

use crate::fault::{Fault, Subject, What};
use crate::memory::Memory;
use crate::refs::copy_refs;
use std::alloc::Global;

impl Fault {
    pub fn copy(&self, alloc: Global) -> Result<Fault, Memory>
        ensures { IfOk result (λ f. f ≡ self.now) }
    {
        let at = self.at.copy(alloc)?;
        let what = self.what.get().copy(alloc)?;
        Fault::new(alloc, at, what)
    }
}

impl Subject {
    pub fn copy(&self, alloc: Global) -> Result<Subject, Memory>
        ensures { IfOk result (λ s. s ≡ self.now) }
    {
        match self {
            Subject::Reference(reference) => Ok(Subject::Reference(reference.copy(alloc)?)),
            Subject::Kind(kind) => Ok(Subject::Kind(kind.copy(alloc)?)),
        }
    }
}

impl What {
    pub fn copy(&self, alloc: Global) -> Result<What, Memory>
        ensures { IfOk result (λ w. w ≡ self.now) }
    {
        match self {
            What::Syntax => Ok(What::Syntax),
            What::UnknownVariable(name) => Ok(What::UnknownVariable(name.copy(alloc)?)),
            What::Reassigned(name) => Ok(What::Reassigned(name.copy(alloc)?)),
            What::UnknownClass(name) => Ok(What::UnknownClass(name.copy(alloc)?)),
            What::UnknownType(name) => Ok(What::UnknownType(name.copy(alloc)?)),
            What::UnknownFunction(name) => Ok(What::UnknownFunction(name.copy(alloc)?)),
            What::WrongArguments(name) => Ok(What::WrongArguments(name.copy(alloc)?)),
            What::TypeMismatch(name) => Ok(What::TypeMismatch(name.copy(alloc)?)),
            What::MissingParameter { reference, name } => {
                let reference = reference.copy(alloc)?;
                let name = name.copy(alloc)?;
                Ok(What::MissingParameter { reference, name })
            }
            What::UnknownParameter { reference, name } => {
                let reference = reference.copy(alloc)?;
                let name = name.copy(alloc)?;
                Ok(What::UnknownParameter { reference, name })
            }
            What::BadOperand(operator) => Ok(What::BadOperand(operator.copy(alloc)?)),
            What::NumberRange(operator) => Ok(What::NumberRange(operator.copy(alloc)?)),
            What::ZeroDivisor(operator) => Ok(What::ZeroDivisor(operator.copy(alloc)?)),
            What::Duplicate { reference, earlier } => {
                let reference = reference.copy(alloc)?;
                let earlier = earlier.copy(alloc)?;
                Ok(What::Duplicate { reference, earlier })
            }
            What::AlreadySet { subject, name } => {
                let subject = subject.copy(alloc)?;
                let name = name.copy(alloc)?;
                Ok(What::AlreadySet { subject, name })
            }
            What::NoOverrideTarget(reference) => Ok(What::NoOverrideTarget(reference.copy(alloc)?)),
            What::NoRelationTarget(reference) => Ok(What::NoRelationTarget(reference.copy(alloc)?)),
            What::Cycle(references) => Ok(What::Cycle(copy_refs(alloc, references)?)),
            What::NoNode(node) => Ok(What::NoNode(node.copy(alloc)?)),
            What::LookupMissing(key) => Ok(What::LookupMissing(key.copy(alloc)?)),
            What::LookupLoop(key) => Ok(What::LookupLoop(key.copy(alloc)?)),
            What::MergeMismatch(key) => Ok(What::MergeMismatch(key.copy(alloc)?)),
            What::BadData(path) => Ok(What::BadData(path.copy(alloc)?)),
            What::BadInterpolation(text) => Ok(What::BadInterpolation(text.copy(alloc)?)),
            What::Failed(message) => Ok(What::Failed(message.copy(alloc)?)),
            What::ClassVirtual(subject) => Ok(What::ClassVirtual(subject.copy(alloc)?)),
            What::RoundLimit => Ok(What::RoundLimit),
            What::ResourceLimit => Ok(What::ResourceLimit),
            What::DepthLimit => Ok(What::DepthLimit),
            What::SameNamevar { later, earlier } => {
                let later = later.copy(alloc)?;
                let earlier = earlier.copy(alloc)?;
                Ok(What::SameNamevar { later, earlier })
            }
        }
    }
}
