//! Classes that are declared by resource expressions.
ghost use Rattle.std.specs.Prelude.{◌≡◌, IfOk};
ghost use Rattle.eval_classes.specs.Answers.{Lends};
ghost use Rattle.eval_resources.specs.Checks as spec;
ghost use Rattle.res_core.specs.Lines.{lines_of};
ghost use Rattle.pp_values.specs.Answers.{Answers};
ghost use Rattle.pp_values.specs.Views.{view};

use crate::checks::{are_taken, check_lines, check_title};
use eval_classes::{class_found, class_reference, normal_name, param_names};
use eval_world::Environment;
use pp_tree::Class;
use pp_values::{Fault, Kind, Memory, Place, Stop, Subject, Value, What};
use res_core::{Body, Form, KnownNames, Line};
use std::alloc::Global;

/// The class of a title, where it passes the tests: F26, F8, F4, F10, F15.
#[tactic(auto, unfolding(crate::specs::Checks::class_tested))]
pub fn class_tested<'a>(
    alloc: Global,
    environment: &Environment<'a>,
    form: Form,
    title: &Value,
    body: &Body,
) -> Result<&'a Class, Stop>
    ensures { Lends result (spec.class_tested environment.now form (view title.now) body.now) }
{
    check_form(alloc, form, title, &body.at)?;
    let class = class_titled(alloc, environment, title, &body.at)?;
    check_class_lines(alloc, class, body.lines.as_slice())?;
    Ok(class)
}

/// No class is virtual or exported.
fn check_form(alloc: Global, form: Form, title: &Value, at: &Place) -> Result<(), Stop>
    ensures { Answers result (spec.class_form form (view title.now) at.now) }
{
    match form {
        Form::Plain => Ok(()),
        Form::Virtual | Form::Exported => Err(Stop::Fault(class_virtual(alloc, title, at)?)),
    }
}

fn class_virtual(alloc: Global, title: &Value, at: &Place) -> Result<Fault, Memory>
    ensures { IfOk result (λ f. f ≡ spec.class_virtual (view title.now) at.now) }
{
    let at = at.copy(alloc)?;
    let subject = class_named(alloc, title)?;
    Fault::new(alloc, at, What::ClassVirtual(subject))
}

fn class_named(alloc: Global, title: &Value) -> Result<Subject, Memory>
    ensures { IfOk result (λ s. s ≡ spec.class_named (view title.now)) }
{
    match title {
        Value::Text(title) => {
            let name = normal_name(alloc, title)?;
            Ok(Subject::Reference(class_reference(alloc, &name)?))
        }
        _ => Ok(Subject::Kind(Kind::from_str(alloc, "class")?)),
    }
}

fn class_titled<'a>(
    alloc: Global,
    environment: &Environment<'a>,
    title: &Value,
    at: &Place,
) -> Result<&'a Class, Stop>
    ensures { Lends result (spec.class_titled environment.now (view title.now) at.now) }
{
    let title = check_title(alloc, title, at)?;
    let name = normal_name(alloc, &title)?;
    class_found(alloc, environment, &name, at)
}

/// A class takes its parameters and the metaparameters.
fn check_class_lines(alloc: Global, class: &Class, lines: &[Line]) -> Result<(), Stop>
    ensures { Answers result (spec.class_lines class.now (lines_of lines.now)) }
{
    let known = KnownNames::listed(param_names(alloc, class.params.as_slice())?);
    if are_taken(&known, lines) {
        return Ok(());
    }
    let name = normal_name(alloc, &class.name.text)?;
    let what = class_reference(alloc, &name)?;
    check_lines(alloc, &what, &known, lines)
}
