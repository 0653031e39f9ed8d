use crate::reading::{MAIN, reads_as};
use std::test::Fail;

// One line of the grammar after the other: how many statements, and how many names of definitions.
const GRAMMAR: [(&str, &str); 46] = [
    // files and blocks
    ("", "0 0"),
    ("a; b c;\n", "3 0"),
    ("a;;", "F1 1"),
    (";", "F1 1"),
    ("if a { } else { b; c }", "1 0"),
    ("if a {\n", "F1 2"),
    // chains
    (
        "A['x'] -> b { 'y': } ~> C <| |> { d => 1 } <- [e] <~ $f",
        "1 0",
    ),
    ("A['x'] ->\n", "F1 2"),
    ("a -> -> b", "F1 1"),
    // resources
    ("a { 'x': }", "1 0"),
    (
        "a { 'x': b => 1, c => 2, ; ['y', 'z']: * => $h; default: d => e; }",
        "1 0",
    ),
    ("@a { 'x': } @@class { 'y': } class { 'z': }", "3 0"),
    ("a {\n}", "F1 2"),
    ("a { 'x':\n b +> 1 }", "F1 2"),
    (
        "a { 'x': and => 1, case => 1, class => 1, default => 1, define => 1, else => 1, elsif => 1, false => 1, function => 1 }",
        "1 0",
    ),
    (
        "a { 'x': if => 1, in => 1, inherits => 1, node => 1, or => 1, true => 1, undef => 1, unless => 1, include => 1 }",
        "1 0",
    ),
    // overrides and defaults
    ("A['x', 'y'] { b +> 1, c => 2 } A { b => 1 }", "2 0"),
    ("A { b => 1 }\n-> C['x']", "F1 2"),
    ("A['x'] { }\n-> C['x']", "F1 2"),
    ("A {\n1 => 2 }", "F1 2"),
    // collectors
    (
        "A <| |> A <<| |>> B <| title == 'x' and (b != 1 or c == $d[0]) or tag == e |> { f +> 1 }",
        "3 0",
    ),
    ("A <| b = 1 |>", "F1 1"),
    ("A <<| b == 1\n|>", "F1 2"),
    // definitions
    (
        "class a { } class b($c, Integer $d = 1,) inherits ::a { } define e::f() { }",
        "0 3",
    ),
    ("node 'a', \"b\", c::d, default { } node e { }", "0 5"),
    ("class a b { }", "F1 1"),
    ("node 'a',\n{ }", "F1 2"),
    ("node \"a${b}\" { }", "F1 1"),
    ("function a { }", "0 1"),
    (
        "function ::a::b($c, Integer $d = 1,) >> Array[E, F] { notice $c, 1; f(2) $c } function g() >> H { }",
        "0 2",
    ),
    ("function a >>\nb { }", "F1 2"),
    ("function a >> B\n[C] { }", "F1 2"),
    ("class a\n>> B { }", "F1 2"),
    // statement functions
    (
        "include a, b include c\nnotice 'x', [1], { a => 1 }, $b + 1 fail",
        "4 0",
    ),
    ("include a, b { 'x': }", "2 0"),
    ("notice a,", "1 0"),
    // expressions
    (
        "$a = $b = 1 + 2 * -3 - ! $c in [4] << 5 == 6 and 7 >= 8 or 9 =~ Integer",
        "1 0",
    ),
    ("1 + $x\n= 2", "F1 2"),
    (
        "undef true false default 0x1F 017 'a' \"b\" c D $e $::f::g [1, 2,] { h => 1, } (i)",
        "15 0",
    ),
    (
        "f(1, 2,) |$a, Integer $b = 2| { $a } g() $x.h.i(1) |$j| { }",
        "3 0",
    ),
    (
        "$a[1][2, 3] ? { 1 => 2, default => 3, } \"a${b}c${d[1]}e$f\"",
        "2 0",
    ),
    (
        "if a { } elsif b { } elsif c { } else { } unless d { } else { } case e { 1, 2: { } default: { } }",
        "3 0",
    ),
    ("$a ? { }", "F1 1"),
    ("$a[\n]", "F1 2"),
    ("case a { 1\n{ } }", "F1 2"),
    ("{ a =>\n}", "F1 2"),
];

#[test]
fn each_line_of_the_grammar_is_read(rt: HostRuntime) -> Result<(), Fail> {
    for (manifest, want) in GRAMMAR.iter() {
        assert!(rt; reads_as(rt.alloc(), MAIN, manifest, want)?, "{manifest}");
    }
    Ok(())
}

// What is told apart by a rule of its own.
const RULES: [(&str, &str); 54] = [
    // white space, comments, ends of files
    ("a\u{c}b", "F1 1"),
    ("a # b\n/* c\n*/ d", "2 0"),
    ("a\n'b\n\n", "F1 4"),
    ("a(\n}\n'b\n", "F1 2"),
    ("class\n'b\n", "F1 2"),
    ("a /* b\n", "F1 2"),
    ("a \"b${c\n\n", "F1 3"),
    // numbers
    ("12abc", "F1 1"),
    ("08", "F1 1"),
    ("9223372036854775807", "1 0"),
    ("9223372036854775808", "F1 1"),
    ("1.5", "F1 1"),
    // interpolation
    (
        "\"${a} ${a.b} ${a[1]} ${f(1)} ${1 + 2} ${'x'} $ ${a-b}\"",
        "1 0",
    ),
    ("\"\n${class}\"", "F1 2"),
    ("\"a ${}\"", "F1 1"),
    // a tight bracket is access
    ("a [1]", "2 0"),
    ("a[1]", "1 0"),
    ("A ['x'] { }", "3 0"),
    // names that are defined twice, and keys that stand twice
    ("class aB { } class c { }\ndefine ::ab { }", "F1 2"),
    ("class a { } node a { } node b { }", "0 3"),
    ("node a { } node\n'c', 'a' { }", "F1 2"),
    ("node default { }\nnode 'default' { }", "F1 2"),
    ("{ a => 1,\n'a' => 2 }", "F1 2"),
    ("{ 1 => 1, '1' => 2, ('1') => 3 }", "1 0"),
    (
        "{ 1 => { b => 1,\nb => 2 },\n0x1 => 3 }\nclass c { } class\nc { }",
        "F1 2",
    ),
    ("{ a => 1, a => 2 }\n)", "F1 2"),
    // classes within blocks
    ("if a { class { 'b': } }", "1 0"),
    ("if a { class\nb { } }", "F1 2"),
    ("if a {\ndefine b { } }", "F1 2"),
    // functions hold words and expressions alone
    ("function a { b\n{ 'c': } }", "F1 2"),
    ("function a { notice b\n{ 'c': } }", "F1 2"),
    ("function a { notice\n{ 'c': } }", "F1 2"),
    ("function a { B['c']\n-> d }", "F1 2"),
    ("function a { B\n<| |> }", "F1 2"),
    ("function a {\nclass { 'b': } }", "F1 2"),
    ("function a { if b { c { 'd': } } }", "0 1"),
    ("if a {\nfunction b { } }", "F1 2"),
    ("1\n>> 2", "F1 2"),
    // prefix operators
    ("! - * ! $x", "1 0"),
    // parameters
    ("class a($b $c) { }", "0 1"),
    ("$::x = 1", "F1 1"),
    ("class a(Integer\n$x::y) { }", "F1 2"),
    ("class a($x::y\n) { }", "F1 2"),
    ("f() |$a = g()| { }", "1 0"),
    ("f() |$a = g() |$b| { }| { }", "1 0"),
    ("f() |g() |{} $y| { } $x| { }", "1 0"),
    ("f() |$x.g| {\n$a }", "F1 2"),
    // a token goes on where it can
    ("notice T\n<| |>", "F1 2"),
    ("notice\n.foo", "F1 2"),
    ("notice 1\n-> B['x']", "F1 2"),
    ("include(a) -> B['x']", "1 0"),
    ("include include a", "2 0"),
    ("A['x'] -> B['y'] { a => 1 }", "2 0"),
    ("A['x'] -> B['y'] { a\n+> 1 }", "F1 2"),
];

#[test]
fn manifests_are_read_by_the_rules(rt: HostRuntime) -> Result<(), Fail> {
    for (manifest, want) in RULES.iter() {
        assert!(rt; reads_as(rt.alloc(), MAIN, manifest, want)?, "{manifest}");
    }
    Ok(())
}

// A module file holds classes, defines and functions alone.
const MODULES: [(&str, &str); 5] = [
    ("class a { include b } define c { };", "0 2"),
    ("function a { } function b { };", "0 2"),
    ("class a { }\nnode b { }", "F1 2"),
    ("class a { }\nnotice 1", "F1 2"),
    ("class\n{ 'a': }", "F1 2"),
];

#[test]
fn module_files_are_read(rt: HostRuntime) -> Result<(), Fail> {
    for (manifest, want) in MODULES.iter() {
        assert!(rt;
            reads_as(rt.alloc(), "modules/m/manifests/init.pp", manifest, want)?,
            "{manifest}"
        );
    }
    Ok(())
}
