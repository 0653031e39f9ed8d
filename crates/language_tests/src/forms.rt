//! What the grammar makes of texts: the outermost form of the first statement of a manifest.
use crate::reading::{MAIN, fault_text, parsed};
use pp_tree::{Expr, File, Form, Operand, Statement};
use pp_values::Stop;
use std::alloc::{AllocError, Global};
use std::test::Fail;

// An expression as its form, with what it says or how many parts it has.
fn form_text(alloc: Global, x: &Expr) -> Result<String, AllocError> {
    match x.form.get() {
        Form::Undef => format!(in alloc; "undef"),
        Form::Flag(flag) => format!(in alloc; "flag {flag}"),
        Form::Default => format!(in alloc; "default"),
        Form::Number(number) => format!(in alloc; "number {number}"),
        Form::Text(text) => format!(in alloc; "text {text}"),
        Form::Name(name) => format!(in alloc; "name {name}"),
        Form::Variable(name) => format!(in alloc; "variable {name}"),
        Form::Type(name) => format!(in alloc; "type {name}"),
        Form::Assign(name, _) => {
            let name = name.get();
            format!(in alloc; "assign {name}")
        }
        Form::Prefix(operator, _) => format!(in alloc; "prefix {operator:?}"),
        Form::Parentheses(_) => format!(in alloc; "parentheses"),
        Form::If(_) => format!(in alloc; "if"),
        Form::Unless(_) => format!(in alloc; "unless"),
        parts => parts_text(alloc, parts),
    }
}

// A form of several parts, with their number.
fn parts_text(alloc: Global, form: &Form) -> Result<String, AllocError> {
    let (word, count) = match form {
        Form::Interpolated(pieces) => ("pieces", pieces.len()),
        Form::List(items) => ("list", items.len()),
        Form::Hash(pairs) => ("hash", pairs.len()),
        Form::Call(call) => ("call", call.get().args.len()),
        Form::Case(case) => ("case", case.options.len()),
        Form::Postfix(_, postfixes) => ("postfix", postfixes.len()),
        Form::Binary(_, operations) => ("binary", operations.len()),
        _ => ("another", 0),
    };
    format!(in alloc; "{word} {count}")
}

fn operand_text(alloc: Global, operand: &Operand) -> Result<String, AllocError> {
    match operand {
        Operand::Expr(x) => form_text(alloc, x),
        Operand::Resource(resource) => {
            let resource = resource.get();
            let form = resource.form;
            let kind = &resource.kind;
            let bodies = resource.bodies.len();
            format!(in alloc; "resource {form:?} {kind} {bodies}")
        }
        Operand::Collector(collector) => {
            let collector = collector.get();
            let kind = &collector.kind;
            let exported = collector.exported;
            format!(in alloc; "collector {kind} {exported}")
        }
        Operand::Override(changed) => {
            let kind = &changed.get().target.kind;
            format!(in alloc; "override {kind}")
        }
        Operand::Defaults(defaults) => {
            let kind = &defaults.get().kind;
            format!(in alloc; "defaults {kind}")
        }
    }
}

pub fn statement_text(alloc: Global, statement: &Statement) -> Result<String, AllocError> {
    match statement {
        Statement::Chain(chain) => match chain.links.len() {
            0 => operand_text(alloc, &chain.first),
            links => format!(in alloc; "chain {links}"),
        },
        Statement::Words(words) => {
            let words = words.get();
            let function = &words.function;
            let args = words.args.len();
            format!(in alloc; "words {function} {args}")
        }
        Statement::Emit(text) => format!(in alloc; "emit {text}"),
        Statement::EmitValue(_) => String::from_str(alloc, "emit a value"),
    }
}

fn first_text(alloc: Global, file: &File) -> Result<String, AllocError> {
    match file.statements.as_slice() {
        [first, ..] => statement_text(alloc, first),
        [] => String::from_str(alloc, "nothing"),
    }
}

fn told(alloc: Global, manifest: &str) -> Result<String, AllocError> {
    match parsed(alloc, MAIN, manifest) {
        Ok(file) => first_text(alloc, &file),
        Err(Stop::Fault(fault)) => fault_text(alloc, &fault),
        Err(Stop::Memory) => String::from_str(alloc, "no memory"),
    }
}

fn forms_as(alloc: Global, manifest: &str, want: &str) -> Result<bool, AllocError> {
    Ok(told(alloc, manifest)?.as_str() == want)
}

const FORMS: [(&str, &str); 36] = [
    ("undef", "undef"),
    ("true", "flag true"),
    ("default", "default"),
    ("0x1F", "number 31"),
    ("'it\\'s'", "text it's"),
    ("\"a\"", "text a"),
    ("\"a${b}c\"", "pieces 3"),
    ("a::b", "name a::b"),
    ("$::a::b", "variable ::a::b"),
    ("Ntp::Server", "type Ntp::Server"),
    ("[1, 2,]", "list 2"),
    ("{ a => 1, b => 2, }", "hash 2"),
    ("(1)", "parentheses"),
    ("f(1, 2)", "call 2"),
    ("if a { } elsif b { }", "if"),
    ("unless a { }", "unless"),
    ("case a { 1: { } default: { } }", "case 2"),
    ("$a[1].f(2)", "postfix 2"),
    ("!$a", "prefix Not"),
    ("-$a", "prefix Negate"),
    ("*$a", "prefix Splat"),
    ("1 + 2 - 3", "binary 2"),
    ("1 + 2 * 3", "binary 1"),
    ("1 * 2 + 3", "binary 1"),
    ("! $a == 1", "binary 1"),
    ("$a = $b = 1", "assign a"),
    ("a { 'x': ; 'y': }", "resource Plain a 2"),
    ("@a { 'x': }", "resource Virtual a 1"),
    ("@@a { 'x': }", "resource Exported a 1"),
    ("A <| |>", "collector A false"),
    ("A <<| |>>", "collector A true"),
    ("A['x'] { b => 1 }", "override A"),
    ("A { b => 1 }", "defaults A"),
    ("a -> b ~> c", "chain 2"),
    ("include a, b", "words include 2"),
    ("class a { }", "nothing"),
];

#[test]
fn texts_have_their_forms(rt: HostRuntime) -> Result<(), Fail> {
    for (manifest, want) in FORMS.iter() {
        assert!(rt; forms_as(rt.alloc(), manifest, want)?, "{manifest}");
    }
    Ok(())
}

const TEXTS: [(&str, &str); 11] = [
    ("''", "text "),
    ("'it\\'s'", "text it's"),
    ("'a\\\\b'", "text a\\b"),
    ("'a\\nb'", "text a\\nb"),
    ("\"\"", "text "),
    ("\"a\\tb\\nc\\rd\\se\"", "text a\tb\nc\rd e"),
    ("\"\\\"\\'\\$\\\\\"", "text \"'$\\"),
    ("\"\\u{2603}\\u00fc\"", "text ☃ü"),
    ("\"\\q\"", "text \\q"),
    ("\"a\\\nb\"", "text ab"),
    ("'Zürich'", "text Zürich"),
];

#[test]
fn texts_say_what_they_spell(rt: HostRuntime) -> Result<(), Fail> {
    for (spelling, want) in TEXTS.iter() {
        assert!(rt; forms_as(rt.alloc(), spelling, want)?, "{spelling}");
    }
    Ok(())
}
