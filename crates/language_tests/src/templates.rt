//! What the grammar makes of templates: their parameters and statements, or the fault and its line.
use crate::forms::statement_text;
use crate::reading::fault_text;
use epp_text::parse_epp;
use pp_tree::Template;
use pp_values::{Stop, Text};
use std::alloc::{AllocError, Global};
use std::test::Fail;

fn read(alloc: Global, template: &str) -> Result<Template, Stop> {
    let file = Text::from_str(alloc, "modules/m/templates/t.epp")?;
    let text = Text::from_str(alloc, template)?;
    parse_epp(alloc, &file, &text)
}

// The number of the parameters, where there are any, and then each statement.
fn template_text(alloc: Global, template: &Template) -> Result<String, AllocError> {
    let mut out = String::new(alloc);
    if let Some(params) = &template.params {
        let params = params.len();
        out.push_str(format!(in alloc; "|{params}|")?.as_str())?;
    }
    for statement in template.block.as_slice() {
        out.push_str("/")?;
        out.push_str(statement_text(alloc, statement)?.as_str())?;
    }
    Ok(out)
}

fn told(alloc: Global, template: &str) -> Result<String, AllocError> {
    match read(alloc, template) {
        Ok(template) => template_text(alloc, &template),
        Err(Stop::Fault(fault)) => fault_text(alloc, &fault),
        Err(Stop::Memory) => String::from_str(alloc, "no memory"),
    }
}

fn reads_as(alloc: Global, template: &str, want: &str) -> Result<bool, AllocError> {
    Ok(told(alloc, template)?.as_str() == want)
}

// Texts, tags, and what is dropped round them.
const PIECES: [(&str, &str); 22] = [
    ("", ""),
    ("a", "/emit a"),
    ("a\nb\n", "/emit a\nb\n"),
    ("<%= 1 %>", "/emit a value"),
    ("a<%= 1 %>b", "/emit a/emit a value/emit b"),
    ("<% 1 %>", "/number 1"),
    ("<% %>a", "/emit a"),
    ("<%# a %>b", "/emit b"),
    ("<%%a", "/emit <%/emit a"),
    ("a%%>", "/emit a/emit %>"),
    ("a %> b", "/emit a %> b"),
    ("  <%- 1 %>", "/number 1"),
    ("a <%- 1 %>", "/emit a /number 1"),
    ("a\n  <%- 1 %>", "/emit a\n/number 1"),
    ("<% 1 -%> \n a", "/number 1/emit  a"),
    ("<% 1 -%>\r\na", "/number 1/emit a"),
    ("<% 1 -%>\n\na", "/number 1/emit \na"),
    ("<% 1 -%> a", "/number 1/emit a"),
    ("<% 1 %>\na", "/number 1/emit \na"),
    ("<%# a -%>\nb", "/emit b"),
    ("<%= 1 -%>\nb", "/emit a value/emit b"),
    ("<%-%><%--%>", ""),
];

#[test]
fn texts_and_tags_are_statements(rt: HostRuntime) -> Result<(), Fail> {
    for (template, want) in PIECES.iter() {
        assert!(rt; reads_as(rt.alloc(), template, want)?, "{template}");
    }
    Ok(())
}

// Parameters, and blocks over several tags.
const BLOCKS: [(&str, &str); 20] = [
    ("<%- | $x | -%>\na", "|1|/emit a"),
    ("<%- | Array $x, $y = 1, | -%>", "|2|"),
    ("<%| |%>", "|0|"),
    ("<%- | $x = f(1) | -%>", "|1|"),
    ("<%# a %><%| $x |%>", "|1|"),
    ("a<%| $x |%>", "|1|/emit a"),
    ("<% $a.each |$x| { %>b<% } %>", "/postfix 1"),
    ("<% $a.each |$x| %><% { %>b<% } %>", "/postfix 1"),
    (
        "<% if $a { %>b<% } elsif $c { %>d<% } else { %>e<% } %>f",
        "/if/emit f",
    ),
    ("<% $x = 1; %><%= $x %>", "/assign x/emit a value"),
    (
        "<% notice 1 %>a<% notice 2 %>",
        "/words notice 1/emit a/words notice 1",
    ),
    (
        "<% notice 1 %><% notice 2 %>",
        "/words notice 1/words notice 1",
    ),
    ("<% $x %>;<% ; %>", "/variable x/emit ;"),
    ("<%= [1, 2].map |$x| { $x } %>", "/emit a value"),
    ("<%= $x\n%>", "/emit a value"),
    ("<% $x = $y %>\n<% + 1 %>", "F1 2"),
    ("<%= $x ? { 1 => 'a' } %>", "/emit a value"),
    ("<% f('a', %>b", "F1 1"),
    (
        "<% case $a { 1: { %>b<% } default: { %>c<% } } %>",
        "/case 2",
    ),
    ("<% a { 'b': } %>", "/resource Plain a 1"),
];

#[test]
fn tags_form_blocks(rt: HostRuntime) -> Result<(), Fail> {
    for (template, want) in BLOCKS.iter() {
        assert!(rt; reads_as(rt.alloc(), template, want)?, "{template}");
    }
    Ok(())
}

// What forms no block, and where.
const REFUSED: [(&str, &str); 18] = [
    ("<%", "F1 1"),
    ("a\n<% b", "F1 2"),
    ("<%# a", "F1 1"),
    ("<%=%>", "F1 1"),
    ("<%=\n1\n2 %>", "F1 3"),
    ("<%= notice 1 %>", "F1 1"),
    ("<%= 1; %>", "F1 1"),
    ("<% 'a %>\nb", "F1 1"),
    ("<% { %>a", "F1 1"),
    ("<% $a.each |$x| { %>\na\n", "F1 3"),
    ("<% } %>", "F1 1"),
    ("a\n<% ) %>\n<% b", "F1 2"),
    ("<%| $x %>", "F1 1"),
    ("<%| $x | 1 %>", "F1 1"),
    ("<% 1 %><%| $x |%>", "F1 1"),
    ("<% class a { } %>", "F1 1"),
    ("<% function a { } %>", "F1 1"),
    ("<% { a => 1, a => 2 } %>", "F1 1"),
];

#[test]
fn what_forms_no_block_is_refused(rt: HostRuntime) -> Result<(), Fail> {
    for (template, want) in REFUSED.iter() {
        assert!(rt; reads_as(rt.alloc(), template, want)?, "{template}");
    }
    Ok(())
}
