//! The calls for one expression, for one block and for one template, at lawful depths and past them.
use class_eval::Evaluator;
use epp_text::{Templates, parse_epp};
use eval_world::{Environment, Evaluated, Here};
use hiera_config::SiteData;
use pp_parser::parse;
use pp_tree::{Expr, File, Operand, Statement, Template};
use pp_values::{MAIN_MANIFEST, Memory, Pairs, Stop, Text, Value, text_of};
use site_docs::fault_text;
use std::alloc::Global;
use std::collections::BTreeMap;
use std::test::Fail;

/// The tree of a main manifest, which is not long.
fn parsed(alloc: Global, manifest: &str) -> Result<File, Stop> {
    let file = Text::from_str(alloc, MAIN_MANIFEST)?;
    let text = Text::from_str(alloc, manifest)?;
    if text.as_str().len() < 65536 {
        parse(alloc, &file, &text)
    } else {
        Err(Stop::Memory)
    }
}

fn stop_told(alloc: Global, stop: &Stop) -> Result<String, Memory> {
    match stop {
        Stop::Fault(fault) => Ok(fault_text(alloc, fault)?.into_string(alloc)?),
        Stop::Memory => Err(Memory),
    }
}

/// What is asked of an evaluator.
#[derive(Clone, Copy)]
enum Asked<'t> {
    /// The value of the main manifest's first expression.
    Expression,
    /// That of its statements, as a block of line 5.
    Block,
    /// The text of a template.
    Template(&'t Template),
}

/// The value of a manifest's first expression, or of its statements, at a depth, as a text.
fn value_told(alloc: Global, is_block: bool, manifest: &str, depth: u32) -> Result<String, Memory> {
    let asked = if is_block {
        Asked::Block
    } else {
        Asked::Expression
    };
    match parsed(alloc, manifest) {
        Ok(main) => told_in(alloc, &main, &asked, depth),
        Err(stop) => stop_told(alloc, &stop),
    }
}

/// The text of a template whose statements stand at a depth.
fn text_told(alloc: Global, template: &str, depth: u32) -> Result<String, Memory> {
    let file = Text::from_str(alloc, "modules/m/templates/t.epp")?;
    let text = Text::from_str(alloc, template)?;
    match parse_epp(alloc, &file, &text) {
        Ok(template) => rendered_told(alloc, &template, depth),
        Err(stop) => stop_told(alloc, &stop),
    }
}

fn rendered_told(alloc: Global, template: &Template, depth: u32) -> Result<String, Memory> {
    match parsed(alloc, "") {
        Ok(main) => told_in(alloc, &main, &Asked::Template(template), depth),
        Err(stop) => stop_told(alloc, &stop),
    }
}

fn told_in(alloc: Global, main: &File, asked: &Asked<'_>, depth: u32) -> Result<String, Memory> {
    let node = Text::from_str(alloc, "a")?;
    let facts = Value::Hash(Pairs::new(alloc));
    let files = BTreeMap::new(alloc);
    let site_data = SiteData::new(alloc);
    let templates = Templates::new(alloc);
    let environment = Environment::new(main, &files, &site_data, &templates);
    let mut evaluator = Evaluator::start(alloc, environment, &node, &facts)?;
    match asked {
        Asked::Expression => match first_expression(main) {
            Some(expr) => given(alloc, evaluator.value_of(expr, Here::top(), depth)),
            None => Ok(String::new(alloc)),
        },
        Asked::Block => given(
            alloc,
            evaluator.run_block(&main.statements, 5, Here::top(), depth),
        ),
        Asked::Template(template) => match evaluator.render(template, Here::top(), depth) {
            Ok(text) => Ok(text.into_string(alloc)?),
            Err(stop) => stop_told(alloc, &stop),
        },
    }
}

fn first_expression(main: &File) -> Option<&Expr> {
    match main.statements.as_slice() {
        [Statement::Chain(chain), ..] => match &chain.first {
            Operand::Expr(expr) => Some(expr),
            _ => None,
        },
        _ => None,
    }
}

fn given(alloc: Global, answer: Result<Evaluated, Stop>) -> Result<String, Memory> {
    match answer {
        Ok(value) => Ok(text_of(alloc, value.as_value())?.into_string(alloc)?),
        Err(stop) => stop_told(alloc, &stop),
    }
}

/// Whether it is a block, a manifest, a depth, and what is told.
const AT_DEPTHS: [(bool, &str, u32, &str); 6] = [
    (false, "[1].map |$x| { $x + 1 }", 1, "[2]"),
    (false, "\n1", 1000, "1"),
    (false, "\n1", 1001, "F29 manifests/site.pp:2 DepthLimit"),
    (true, "$a = 1\n$a + 1\nnotify { 'n': }", 1, "2"),
    (true, "\n1", 1000, "F29 manifests/site.pp:2 DepthLimit"),
    (true, "1", 1001, "F29 manifests/site.pp:5 DepthLimit"),
];

/// A template, a depth, and what is told.
const TEMPLATES_AT_DEPTHS: [(&str, u32, &str); 4] = [
    (
        "a <%= 1 + 1 %>\n<% [1, 2].each |$x| { -%>\n<%= $x %>,<% } -%>\n",
        1,
        "a 2\n1,2,",
    ),
    ("<%= 1 %>", 1000, "1"),
    ("<%= 1 %>", 1001, "F29 manifests/site.pp:1 DepthLimit"),
    ("<%= fail('so') %>", 1, "F25 manifests/site.pp:1 Failed so"),
];

fn is_value_told(alloc: Global, row: &(bool, &str, u32, &str)) -> Result<bool, Memory> {
    Ok(value_told(alloc, row.0, row.1, row.2)?.as_str() == row.3)
}

fn is_text_told(alloc: Global, row: &(&str, u32, &str)) -> Result<bool, Memory> {
    Ok(text_told(alloc, row.0, row.1)?.as_str() == row.2)
}

#[test]
fn templates_have_texts(rt: HostRuntime) -> Result<(), Fail> {
    for row in TEMPLATES_AT_DEPTHS.iter() {
        assert!(rt; is_text_told(rt.alloc(), row)?, "{}", row.0);
    }
    Ok(())
}

#[test]
fn expressions_and_blocks_have_values(rt: HostRuntime) -> Result<(), Fail> {
    for row in AT_DEPTHS.iter() {
        assert!(rt; is_value_told(rt.alloc(), row)?, "{}", row.1);
    }
    Ok(())
}
