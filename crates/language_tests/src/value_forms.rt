//! Values out of their forms, and back: no command reads a form yet, or writes one of a value that may have none.
use json_values::{FormStop, from_form, to_form};
use pp_values::{Memory, Value, Values};
use serde_json::Value as Json;
use std::alloc::Global;
use std::test::Fail;

/// The value that a form is of; `None` where it is no form.
fn read(alloc: Global, text: &str) -> Result<Option<Value>, Fail> {
    match from_form(alloc, &Json::from_str(alloc, text)?) {
        Ok(value) => Ok(Some(value)),
        Err(FormStop::NoForm) => Ok(None),
        Err(FormStop::Memory) => Err(Fail::from(Memory)),
    }
}

/// The text of a value's form.
fn form_text(alloc: Global, value: &Value) -> Result<String, Fail> {
    Ok(to_form(alloc, value)?.to_string(alloc)?)
}

fn is_form(alloc: Global, text: &str) -> Result<bool, Fail> {
    match read(alloc, text)? {
        Some(value) => Ok(form_text(alloc, &value)?.as_str() == text),
        None => Ok(false),
    }
}

const FORMS: [&str; 13] = [
    "null",
    "false",
    "-1",
    "9223372036854775807",
    "\"\"",
    "[[],{},[null]]",
    "{\"a\":1}",
    "{\"a\":{\"b\":[2]},\"b\":\"__p\"}",
    "{\"__ptype\":\"Hash\",\"__pvalue\":[\"b\",1,\"a\",2]}",
    "{\"__ptype\":\"Hash\",\"__pvalue\":[1,[],\"1\",{\"x\":1}]}",
    "{\"__ptype\":\"Hash\",\"__pvalue\":[\"__ptype\",\"Ref\"]}",
    "{\"__ptype\":\"Ref\",\"kind\":\"web::vhost\",\"title\":\"/A\"}",
    "{\"a\":{\"__ptype\":\"Ref\",\"kind\":\"file\",\"title\":\"\"}}",
];

#[test]
fn forms(rt: HostRuntime) -> Result<(), Fail> {
    for text in FORMS.iter() {
        assert!(rt; is_form(rt.alloc(), text)?, "{text}");
    }
    Ok(())
}

const NO_FORMS: [&str; 17] = [
    "1.5",
    "9223372036854775808",
    "[1,2.0]",
    // The short form is due.
    "{\"__ptype\":\"Hash\",\"__pvalue\":[\"a\",1,\"b\",2]}",
    "{\"__ptype\":\"Hash\",\"__pvalue\":[]}",
    // A key without a value, twice, or that is none.
    "{\"__ptype\":\"Hash\",\"__pvalue\":[1]}",
    "{\"__ptype\":\"Hash\",\"__pvalue\":[\"b\",1,\"b\",2]}",
    "{\"__ptype\":\"Hash\",\"__pvalue\":[1,1,1,2]}",
    "{\"__ptype\":\"Hash\",\"__pvalue\":[null,1]}",
    "{\"__ptype\":\"Hash\",\"__pvalue\":[1,2.5]}",
    // Other members that begin with `__p`, or are missing.
    "{\"__pa\":1}",
    "{\"__ptype\":\"Hash\"}",
    "{\"__ptype\":\"Hash\",\"__pvalue\":{}}",
    "{\"__ptype\":\"Ref\",\"kind\":\"File\",\"title\":\"a\"}",
    "{\"__ptype\":\"Ref\",\"kind\":\"\",\"title\":\"a\"}",
    "{\"__ptype\":\"Ref\",\"kind\":\"file\",\"title\":1}",
    "{\"__ptype\":\"Ref\",\"kind\":\"file\",\"title\":\"a\",\"x\":1}",
];

fn is_none(alloc: Global, text: &str) -> Result<bool, Fail> {
    Ok(read(alloc, text)?.is_none())
}

#[test]
fn no_forms(rt: HostRuntime) -> Result<(), Fail> {
    for text in NO_FORMS.iter() {
        assert!(rt; is_none(rt.alloc(), text)?, "{text}");
    }
    Ok(())
}

/// A list with `default` in it.
fn with_default(alloc: Global) -> Result<Value, Memory> {
    let mut items = Values::new(alloc);
    items.push(Value::Int(1))?;
    items.push(Value::Default)?;
    Ok(Value::List(items))
}

fn has_no_form(alloc: Global) -> Result<bool, Fail> {
    Ok(matches!(to_form(alloc, &with_default(alloc)?), Err(FormStop::NoForm)))
}

#[test]
fn no_form(rt: HostRuntime) -> Result<(), Fail> {
    assert!(rt; has_no_form(rt.alloc())?);
    Ok(())
}
