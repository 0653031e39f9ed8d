use pp_lexer::{Kind, Token, end_line, lex, scan};
use pp_values::{Fault, Stop, Text};
use std::alloc::{AllocError, Global};
use std::test::Fail;

// A token in short: its line if it is not the first, what it is, and what it says.
fn write_token(alloc: Global, out: &mut String, token: &Token<'_>) -> Result<(), Fail> {
    let line = token.line();
    let text = token.text(alloc)?;
    if line != 1 {
        write!(out, "{line}:")?;
    }
    match token.kind() {
        Kind::Number => {
            let number = token.number();
            write!(out, "{number} ")?;
        }
        Kind::Name => write!(out, "{text} ")?,
        kind => write!(out, "{kind:?}{text} ")?,
    }
    Ok(())
}

fn write_tokens(alloc: Global, out: &mut String, tokens: &[Token<'_>]) -> Result<(), Fail> {
    for token in tokens {
        write_token(alloc, out, token)?;
    }
    Ok(())
}

// The tokens of the manifest, and the line of its end.
fn scanned(alloc: Global, manifest: &str) -> Result<String, Fail> {
    let mut out = String::new(alloc);
    if manifest.len() < 4096 {
        let tokens = scan(alloc, manifest)?;
        write_tokens(alloc, &mut out, tokens.as_slice())?;
        let end = end_line(manifest);
        write!(out, "/{end}")?;
    }
    Ok(out)
}

fn scans_as(alloc: Global, manifest: &str, want: &str) -> Result<bool, Fail> {
    Ok(scanned(alloc, manifest)?.as_str() == want)
}

const SCANNED: [(&str, &str); 28] = [
    ("", "/1"),
    (
        "node 'web1.example' { include web::site }\n",
        "Nodenode Textweb1.example OpenBrace StatementFunctioninclude web::site CloseBrace /2",
    ),
    (
        "class a ($x = 1) inherits b {\n  file { '/etc/motd':\n    ensure => file,\n  }\n}\n",
        "Classclass a OpenParen Variablex Assign 1 CloseParen Inheritsinherits b OpenBrace 2:file 2:OpenBrace 2:Text/etc/motd 2:Colon 3:ensure 3:Arrow 3:file 3:Comma 4:CloseBrace 5:CloseBrace /6",
    ),
    (
        "# a\n/* b\n*/ $::x[0] [$x] é",
        "3:QualifiedVariable::x 3:TightBracket 3:0 3:CloseBracket 3:OpenBracket 3:Variablex 3:CloseBracket 3:Bad /3",
    ),
    (
        "if $a =~ String or !($b in [1, 0x1F, 017]) { }",
        "Ifif Variablea Match TypeString Oror Bang OpenParen Variableb Inin OpenBracket 1 Comma 31 Comma 15 CloseBracket CloseParen OpenBrace CloseBrace /1",
    ),
    (
        "each($l) |$i, $v| { } map |$x|\n# c\n{",
        "each OpenParen Variablel CloseParen Bar Variablei Comma Variablev LastBar OpenBrace CloseBrace map Bar Variablex LastBar 3:OpenBrace /3",
    ),
    (
        "File <| tag == 'a' |> -> B <<| |>> ~> C['d'] <- e <~ f",
        "TypeFile OpenCollector tag Equal Texta CloseCollector InEdge TypeB OpenExported CloseExported InEdgeSub TypeC TightBracket Textd CloseBracket OutEdge e OutEdgeSub f /1",
    ),
    (
        ">> >>= > > |>>",
        "Returns Returns Assign Greater Greater CloseExported /1",
    ),
    (
        "'it\\'s \\\\ \\n' 'Zürich ☃'",
        "Textit's \\ \\n TextZürich ☃ /1",
    ),
    (
        "\"a\\tb\\u{2603}\\u00fc\\q ${x[0]} $y-z $::w::v $1\\\n!\"",
        "TextBegin Piecea\tb☃ü\\q  InterpolationBegin x TightBracket 0 CloseBracket InterpolationEnd Piece  VariableInTexty Piece-z  VariableInText::w::v Piece $1! 2:TextEnd /2",
    ),
    (
        "\"${ {'k' => \"${$v}\"}['k'] }\" }",
        "TextBegin InterpolationBegin OpenBrace Textk Arrow TextBegin InterpolationBegin Variablev InterpolationEnd TextEnd CloseBrace TightBracket Textk CloseBracket InterpolationEnd TextEnd CloseBrace /1",
    ),
    (
        "\"a\n${b\n}c\n\" d",
        "TextBegin Piecea\n 2:InterpolationBegin 2:b 3:InterpolationEnd 3:Piecec\n 4:TextEnd 4:d /4",
    ),
    ("'a\n", "TextBegin 2:Unclosed /2"),
    ("\"a\n", "TextBegin Piecea\n 2:Unclosed /2"),
    ("/* a\n", "2:Unclosed /2"),
    ("\"${a\n", "TextBegin InterpolationBegin a /2"),
    ("12abc", "Bad /1"),
    ("a\n1.5 b", "a 2:Bad /2"),
    (
        "x => 9223372036854775807 - 9223372036854775808",
        "x Arrow 9223372036854775807 Minus Bad /1",
    ),
    ("a ~ b", "a Bad /1"),
    ("\u{feff}a", "Bad /1"),
    ("a\u{a0}b", "a Bad /1"),
    ("$Foo", "Bad /1"),
    ("@@a { } @b", "AtAt a OpenBrace CloseBrace At b /1"),
    (
        "* % ? . : ; , < <= > >= != !~ += +>",
        "Star Percent Question Dot Colon Semicolon Comma Less AtMost Greater AtLeast NotEqual NoMatch Plus Assign PlusArrow /1",
    ),
    (
        "\"\\\"\"['a']",
        "TextBegin Piece\" TextEnd TightBracket Texta CloseBracket /1",
    ),
    (
        "case $x { default: { undef } }",
        "Casecase Variablex OpenBrace Defaultdefault Colon OpenBrace Undefundef CloseBrace CloseBrace /1",
    ),
    ("false true andy ::and", "Falsefalse Truetrue andy ::and /1"),
];

#[test]
fn manifests_are_scanned(rt: HostRuntime) -> Result<(), Fail> {
    for (manifest, want) in SCANNED.iter() {
        assert!(rt; scans_as(rt.alloc(), manifest, want)?, "{manifest}");
    }
    Ok(())
}

fn lexed(alloc: Global, manifest: &str) -> Result<usize, Stop> {
    let file = Text::from_str(alloc, "manifests/site.pp")?;
    let text = Text::from_str(alloc, manifest)?;
    if text.as_str().len() < 4096 {
        let tokens = lex(alloc, &file, &text)?;
        Ok(tokens.len())
    } else {
        Err(Stop::Memory)
    }
}

fn place_text(alloc: Global, fault: &Fault) -> Result<String, AllocError> {
    let file = fault.at.file.as_str();
    let line = fault.at.line;
    format!(in alloc; "{file}:{line}")
}

// The number of the tokens, or the place of the fault.
fn told(alloc: Global, manifest: &str) -> Result<String, AllocError> {
    match lexed(alloc, manifest) {
        Ok(count) => format!(in alloc; "{count}"),
        Err(Stop::Memory) => String::from_str(alloc, "no memory"),
        Err(Stop::Fault(fault)) => place_text(alloc, &fault),
    }
}

fn lexes_as(alloc: Global, manifest: &str, want: &str) -> Result<bool, AllocError> {
    Ok(told(alloc, manifest)?.as_str() == want)
}

const LEXED: [(&str, &str); 6] = [
    ("", "0"),
    ("include web\n", "2"),
    ("a\n08 b", "manifests/site.pp:2"),
    ("a\n'b\n", "manifests/site.pp:3"),
    ("/*\n", "manifests/site.pp:2"),
    ("\"${\n", "2"),
];

#[test]
fn manifests_are_lexed(rt: HostRuntime) -> Result<(), Fail> {
    for (manifest, want) in LEXED.iter() {
        assert!(rt; lexes_as(rt.alloc(), manifest, want)?, "{manifest}");
    }
    Ok(())
}
