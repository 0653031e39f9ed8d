//! Override lines and default statements, by scenes of a few words: what is declared, what is said of it, and what comes of it.
use override_rules::{OverrideLine, Overrides, Right};
use pp_values::{
    Fault, Kind, Memory, Place, Reference, Stop, Text, Texts, Value, Values, What, text_of,
};
use res_book::{Book, Mode};
use res_core::{Attribute, Attributes, Declared, KnownNames, Resource, Tags};
use std::alloc::Global;
use std::test::Fail;

/// A value by its word: `-` and `undef` are Undef, and `a+b` is a list of two texts.
fn value(alloc: Global, word: &str) -> Result<Value, Memory> {
    if word == "-" || word == "undef" {
        return Ok(Value::Undef);
    }
    match word.split_once("+") {
        Some((first, second)) => {
            let mut items = Values::new(alloc);
            items.push(Value::Text(Text::from_str(alloc, first)?))?;
            items.push(Value::Text(Text::from_str(alloc, second)?))?;
            Ok(Value::List(items))
        }
        None => Ok(Value::Text(Text::from_str(alloc, word)?)),
    }
}

fn file(alloc: Global, title: &str) -> Result<Reference, Memory> {
    let title = Text::from_str(alloc, title)?;
    let kind = Kind::from_str(alloc, "file")?;
    Ok(Reference { kind, title })
}

fn at(alloc: Global) -> Result<Place, Memory> {
    let file = Text::from_str(alloc, "site.pp")?;
    Ok(Place { file, line: 1 })
}

/// The right of a line in class `web`, in a class that inherits from it, or of a collector.
fn right(alloc: Global, word: &str) -> Result<Right, Memory> {
    let web = Text::from_str(alloc, "class web")?;
    match word {
        "web" => Ok(Right::From(web, Texts::new(alloc))),
        "below" => {
            let mut above = Texts::new(alloc);
            above.push(web)?;
            let own = Text::from_str(alloc, "class below")?;
            Ok(Right::From(own, above))
        }
        _ => Ok(Right::Any),
    }
}

fn attributes(alloc: Global, mode: &str) -> Result<Attributes, Memory> {
    if mode == "-" {
        return Ok(Attributes::new(alloc));
    }
    let mut items = Vec::new(alloc);
    let name = Text::from_str(alloc, "mode")?;
    let value = value(alloc, mode)?;
    items.push(Attribute { name, value })?;
    Ok(Attributes::from_vec(items))
}

/// The file `x` with this mode.
fn resource(alloc: Global, mode: &str) -> Result<Resource, Memory> {
    Ok(Resource {
        kind: Kind::from_str(alloc, "file")?,
        title: Text::from_str(alloc, "x")?,
        tags: Tags::new(alloc),
        attributes: attributes(alloc, mode)?,
    })
}

fn known(alloc: Global) -> Result<KnownNames, Memory> {
    let mut known = Texts::new(alloc);
    known.push(Text::from_str(alloc, "mode")?)?;
    Ok(KnownNames::listed(known))
}

fn line(
    alloc: Global,
    name: &str,
    append: bool,
    word: &str,
    source: &str,
) -> Result<OverrideLine, Memory> {
    Ok(OverrideLine {
        target: file(alloc, "x")?,
        name: Text::from_str(alloc, name)?,
        append,
        at: at(alloc)?,
        right: right(alloc, source)?,
        value: value(alloc, word)?,
    })
}

/// What a scene has come to.
#[derive(Drop)]
struct Scene {
    book: Book,
    overrides: Overrides,
}

impl Scene {
    /// Scope 5 was entered from scope 2, and that from 0.
    fn new(alloc: Global) -> Result<Scene, Memory> {
        let mut overrides = Overrides::new(alloc);
        overrides.open_scope(0, None)?;
        overrides.open_scope(2, Some(0))?;
        overrides.open_scope(5, Some(2))?;
        Ok(Scene {
            book: Book::new(alloc),
            overrides,
        })
    }
}

/// What happens in a scene, to the file `x`.
#[derive(Clone, Copy)]
enum Step {
    /// It is declared, with this mode; `-` is none.
    Declare(&'static str),
    /// It is imported, without a mode.
    Import,
    /// Its parameters are bound.
    Evaluate,
    /// `=>` on an attribute, of this value and source.
    Set(&'static str, &'static str, &'static str),
    /// `+>` on its mode.
    Add(&'static str),
    /// A scope says this of the mode of files.
    Default(u32, &'static str),
    Nothing,
}

/// Declares the file in class `web` and scope 5.
fn declare(alloc: Global, scene: &mut Scene, mode: &str, way: Mode) -> Result<(), Stop> {
    let item = Declared {
        at: at(alloc)?,
        scope: 5,
        container: None,
        class: Text::from_str(alloc, "class web")?,
        known: known(alloc)?,
        item: resource(alloc, mode)?,
    };
    let number = scene.book.declare(alloc, item, way)?;
    if number < scene.book.count() {
        scene.overrides.stand(alloc, &scene.book, number)?;
    }
    Ok(())
}

fn import(alloc: Global, scene: &mut Scene) -> Result<(), Stop> {
    let node = Text::from_str(alloc, "n")?;
    declare(alloc, scene, "-", Mode::Imported { node, place: 0 })
}

fn add_default(alloc: Global, scene: &mut Scene, scope: u32, word: &str) -> Result<(), Stop> {
    let kind = Kind::from_str(alloc, "file")?;
    let name = Text::from_str(alloc, "mode")?;
    let at = at(alloc)?;
    let value = value(alloc, word)?;
    scene
        .overrides
        .add_default(alloc, scope, &kind, &name, value, &at)
}

fn act(alloc: Global, scene: &mut Scene, step: &Step) -> Result<(), Stop> {
    match *step {
        Step::Declare(mode) => declare(alloc, scene, mode, Mode::Plain),
        Step::Import => import(alloc, scene),
        Step::Evaluate => {
            if scene.book.count() > 0 {
                scene.book.set_bound(0, Attributes::new(alloc));
            }
            Ok(())
        }
        Step::Set(name, word, source) => {
            let line = line(alloc, name, false, word, source)?;
            scene.overrides.add_line(alloc, &scene.book, line)
        }
        Step::Add(word) => {
            let line = line(alloc, "mode", true, word, "any")?;
            scene.overrides.add_line(alloc, &scene.book, line)
        }
        Step::Default(scope, word) => add_default(alloc, scene, scope, word),
        Step::Nothing => Ok(()),
    }
}

/// The text of the file's mode.
fn mode(alloc: Global, scene: &Scene) -> Result<Text, Memory> {
    if scene.book.count() == 0 {
        return Text::from_str(alloc, "undeclared");
    }
    let name = Text::from_str(alloc, "mode")?;
    match scene.overrides.attribute(alloc, &scene.book, 0, &name)? {
        Some(value) => text_of(alloc, &value),
        None => Text::from_str(alloc, "unset"),
    }
}

fn played(alloc: Global, steps: &[Step]) -> Result<Text, Stop> {
    let mut scene = Scene::new(alloc)?;
    for step in steps {
        act(alloc, &mut scene, step)?;
    }
    Ok(mode(alloc, &scene)?)
}

fn fault_word(fault: &Fault) -> &'static str {
    match fault.what.get() {
        What::UnknownParameter {
            reference: _,
            name: _,
        } => "F10",
        What::AlreadySet {
            subject: _,
            name: _,
        } => "F15",
        _ => "another fault",
    }
}

fn comes_to(alloc: Global, row: &([Step; 3], &str)) -> Result<bool, Memory> {
    match played(alloc, &row.0) {
        Ok(text) => Ok(text.is(row.1)),
        Err(Stop::Fault(fault)) => Ok(fault_word(&fault) == row.1),
        Err(Stop::Memory) => Err(Memory),
    }
}

const SCENES: [([Step; 3], &str); 21] = [
    ([Step::Declare("a"), Step::Nothing, Step::Nothing], "a"),
    ([Step::Declare("-"), Step::Nothing, Step::Nothing], "unset"),
    (
        [Step::Declare("undef"), Step::Default(5, "b"), Step::Nothing],
        "b",
    ),
    (
        [
            Step::Declare("undef"),
            Step::Set("mode", "b", "web"),
            Step::Nothing,
        ],
        "b",
    ),
    (
        [
            Step::Declare("a"),
            Step::Set("mode", "b", "any"),
            Step::Nothing,
        ],
        "b",
    ),
    (
        [
            Step::Set("mode", "b", "any"),
            Step::Declare("a"),
            Step::Nothing,
        ],
        "b",
    ),
    (
        [
            Step::Declare("a"),
            Step::Set("mode", "-", "any"),
            Step::Nothing,
        ],
        "unset",
    ),
    (
        [Step::Declare("a"), Step::Add("b"), Step::Add("c+d")],
        "[a, b, c, d]",
    ),
    ([Step::Declare("-"), Step::Add("b"), Step::Nothing], "b"),
    (
        [Step::Declare("-"), Step::Default(0, "b"), Step::Nothing],
        "b",
    ),
    (
        [
            Step::Declare("-"),
            Step::Default(0, "b"),
            Step::Default(2, "c"),
        ],
        "c",
    ),
    (
        [
            Step::Declare("-"),
            Step::Default(0, "b"),
            Step::Default(2, "-"),
        ],
        "unset",
    ),
    (
        [Step::Declare("a"), Step::Default(5, "b"), Step::Nothing],
        "a",
    ),
    (
        [Step::Import, Step::Default(5, "b"), Step::Nothing],
        "unset",
    ),
    (
        [
            Step::Declare("-"),
            Step::Set("mode", "b", "web"),
            Step::Nothing,
        ],
        "b",
    ),
    (
        [
            Step::Declare("a"),
            Step::Set("mode", "b", "web"),
            Step::Nothing,
        ],
        "F15",
    ),
    (
        [
            Step::Declare("a"),
            Step::Set("mode", "b", "below"),
            Step::Nothing,
        ],
        "b",
    ),
    (
        [
            Step::Declare("a"),
            Step::Set("size", "b", "web"),
            Step::Nothing,
        ],
        "F10",
    ),
    (
        [
            Step::Set("size", "b", "any"),
            Step::Declare("a"),
            Step::Nothing,
        ],
        "F10",
    ),
    (
        [
            Step::Declare("a"),
            Step::Evaluate,
            Step::Set("mode", "b", "any"),
        ],
        "F15",
    ),
    (
        [
            Step::Declare("a"),
            Step::Default(5, "b"),
            Step::Default(5, "c"),
        ],
        "F15",
    ),
];

#[test]
fn lines_and_defaults_make_the_value(rt: HostRuntime) -> Result<(), Fail> {
    for row in &SCENES {
        assert!(rt; comes_to(rt.alloc(), row)?, "{}", row.1);
    }
    Ok(())
}

/// How many attributes are set, how much concerns the file, and whether a line waits, once these steps are done.
fn counted(alloc: Global, steps: &[Step]) -> Result<(usize, u32, bool), Stop> {
    let mut scene = Scene::new(alloc)?;
    for step in steps {
        act(alloc, &mut scene, step)?;
    }
    let waits = scene.overrides.orphans(&scene.book).is_some();
    if scene.book.count() == 0 {
        return Ok((0, 0, waits));
    }
    let touched = scene.overrides.touched(&scene.book, 0);
    let attributes = scene.overrides.attributes(alloc, &scene.book, 0)?;
    Ok((attributes.len(), touched, waits))
}

fn counts(alloc: Global, row: &([Step; 3], (usize, u32, bool))) -> Result<bool, Memory> {
    match counted(alloc, &row.0) {
        Ok(count) => Ok(count == row.1),
        Err(Stop::Fault(_)) => Ok(false),
        Err(Stop::Memory) => Err(Memory),
    }
}

const COUNTS: [([Step; 3], (usize, u32, bool)); 4] = [
    ([Step::Nothing, Step::Nothing, Step::Nothing], (0, 0, false)),
    (
        [Step::Set("mode", "b", "any"), Step::Nothing, Step::Nothing],
        (0, 0, true),
    ),
    (
        [
            Step::Declare("-"),
            Step::Set("tag", "b", "any"),
            Step::Default(2, "c"),
        ],
        (2, 2, false),
    ),
    (
        [
            Step::Declare("a"),
            Step::Set("mode", "-", "any"),
            Step::Default(7, "c"),
        ],
        (0, 2, false),
    ),
];

#[test]
fn what_concerns_a_declaration(rt: HostRuntime) -> Result<(), Fail> {
    for row in &COUNTS {
        assert!(rt; counts(rt.alloc(), row)?, "{}", row.1.1);
    }
    Ok(())
}
