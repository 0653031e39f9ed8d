//! The declarations of a compile: numbers, marks, and what is still to be evaluated. Which are refused is told by manifests.
use pp_values::{Kind, Memory, Place, Reference, Stop, Text};
use res_book::{Book, Collector, Containment, Mode, RelationLine, Relations};
use res_core::{
    Attributes, Declared, KnownNames, Lines, Operands, Query, QueryBox, Resource, Tags,
};
use std::alloc::Global;
use std::test::Fail;

/// One after another in a book, at lines from 1 on: kind, title, and how it is declared. What is declared twice, and a class that
/// is virtual, is refused.
const DECLARED: [(&str, &str, &str); 15] = [
    ("class", "main", ""),
    ("file", "/a", ""),
    ("file", "/a", ""),
    ("file", "/a", "@"),
    ("file", "/a", "import"),
    ("class", "main", ""),
    ("class", "main", "@"),
    ("class", "web", "@@"),
    ("web::vhost", "a", ""),
    ("web::vhost", "b", "@"),
    ("web::vhost", "c", "@@"),
    ("web::vhost", "d", "import"),
    ("file", "/A", ""),
    ("user", "/a", ""),
    ("file", "/A", "@@"),
];

/// A kind, a title, and the number that they find.
const FOUND: [(&str, &str, Option<u32>); 6] = [
    ("class", "main", Some(0)),
    ("file", "/a", Some(1)),
    ("file", "/A", Some(6)),
    ("user", "/a", Some(7)),
    ("web::vhost", "/a", None),
    ("class", "web", None),
];

/// A number, whether it is live, and whether a mark makes it live.
const MARKED: [(u32, bool, bool); 5] = [
    (0, true, false),
    (2, true, false),
    (3, false, true),
    (4, false, true),
    (5, true, false),
];

/// What is marked, what is evaluated, and what is pending then.
const PENDING: [(Option<u32>, Option<u32>, &str); 7] = [
    (None, None, " 2 5"),
    (Some(3), None, " 2 3 5"),
    (Some(4), None, " 2 4 5"),
    (None, Some(2), " 5"),
    (Some(4), Some(5), " 2 4"),
    (Some(3), Some(3), " 2 5"),
    (None, Some(0), " 2 5"),
];

fn kind(alloc: Global, name: &str) -> Result<Kind, Memory> {
    match Kind::from_text(Text::from_str(alloc, name)?) {
        Some(kind) => Ok(kind),
        None => Err(Memory),
    }
}

fn place(alloc: Global, line: u32) -> Result<Place, Memory> {
    let file = Text::from_str(alloc, "site.pp")?;
    Ok(Place { file, line })
}

fn resource(alloc: Global, name: &str, title: &str) -> Result<Resource, Memory> {
    Ok(Resource {
        kind: kind(alloc, name)?,
        title: Text::from_str(alloc, title)?,
        attributes: Attributes::new(alloc),
        tags: Tags::new(alloc),
    })
}

fn mode(alloc: Global, sign: &str) -> Result<Mode, Memory> {
    match sign {
        "@" => Ok(Mode::Virtual),
        "@@" => Ok(Mode::Exported),
        "import" => {
            let node = Text::from_str(alloc, "b.example.com")?;
            Ok(Mode::Imported { node, place: 4 })
        }
        _ => Ok(Mode::Plain),
    }
}

fn declare(
    alloc: Global,
    book: &mut Book,
    name: &str,
    title: &str,
    sign: &str,
    line: u32,
) -> Result<u32, Stop> {
    let item = resource(alloc, name, title)?;
    let at = place(alloc, line)?;
    let class = Text::from_str(alloc, "class main")?;
    let mode = mode(alloc, sign)?;
    let item = Declared {
        item,
        at,
        scope: 0,
        container: None,
        class,
        known: KnownNames::none(alloc),
    };
    book.declare(alloc, item, mode)
}

fn declare_row(alloc: Global, book: &mut Book, row: u32) -> Result<u32, Stop> {
    match DECLARED.get(row as usize) {
        Some((name, title, sign)) => {
            declare(alloc, book, name, title, sign, row.saturating_add(1))
        }
        None => Err(Stop::Memory),
    }
}

/// A book with so many declarations of the table; the refused ones leave it as it is.
fn book(alloc: Global, rows: u32) -> Book {
    let mut book = Book::new(alloc);
    for row in 0..rows {
        let _answer = declare_row(alloc, &mut book, row);
    }
    book
}

fn finds(alloc: Global, name: &str, title: &str, number: Option<u32>) -> Result<bool, Memory> {
    let book = book(alloc, 15);
    let reference = Reference {
        kind: kind(alloc, name)?,
        title: Text::from_str(alloc, title)?,
    };
    Ok(book.find(&reference) == number)
}

fn is_live(book: &Book, number: u32) -> bool {
    number < book.count() && book.live(number)
}

fn realize(book: &mut Book, number: u32) -> Result<bool, Memory> {
    if number < book.count() {
        return book.realize(number);
    }
    Ok(false)
}

fn marks(alloc: Global, number: u32, live: bool, realized: bool) -> Result<bool, Memory> {
    let mut book = book(alloc, 15);
    let was = is_live(&book, number) == live;
    let first = realize(&mut book, number)? == realized;
    let second = realize(&mut book, number)?;
    Ok(was && first && !second && is_live(&book, number))
}

/// The numbers of what is pending, with a blank before each.
fn pending(alloc: Global, book: &Book) -> Result<String, Memory> {
    let mut out = String::new(alloc);
    let mut after = None;
    for _turn in 0..9u32 {
        match book.pending(after) {
            Some(number) => {
                write!(out, " {number}")?;
                after = Some(number);
            }
            None => return Ok(out),
        }
    }
    Ok(out)
}

fn evaluate(alloc: Global, book: &mut Book, number: u32) {
    if number < book.count() {
        book.set_bound(number, Attributes::new(alloc));
    }
}

fn waits(
    alloc: Global,
    marked: Option<u32>,
    evaluated: Option<u32>,
    told: &str,
) -> Result<bool, Memory> {
    let mut book = book(alloc, 15);
    if let Some(number) = marked {
        let _realized = realize(&mut book, number)?;
    }
    if let Some(number) = evaluated {
        evaluate(alloc, &mut book, number);
    }
    Ok(pending(alloc, &book)?.as_str() == told)
}

fn collector(alloc: Global, exported: bool) -> Result<Collector, Memory> {
    Ok(Collector {
        kind: kind(alloc, "file")?,
        query: QueryBox::new(alloc, Query::All)?,
        at: place(alloc, 4)?,
        exported,
        owner: 0,
        lines: Lines::new(alloc),
        realized: None,
    })
}

fn line(alloc: Global, signal: bool) -> Result<RelationLine, Memory> {
    Ok(RelationLine {
        left: Operands::new(alloc),
        right: Operands::new(alloc),
        signal,
        at: place(alloc, 5)?,
    })
}

fn relates(alloc: Global) -> Result<bool, Memory> {
    let mut relations = Relations::new(alloc);
    let first = relations.add_collector(collector(alloc, false)?)?;
    let second = relations.add_collector(collector(alloc, true)?)?;
    relations.add_line(line(alloc, false)?)?;
    relations.add_line(line(alloc, true)?)?;
    relations.add_containment(Containment { outer: 1, inner: 2 })?;
    Ok(first == 0 && second == 1 && are_related(&relations))
}

fn are_related(relations: &Relations) -> bool {
    if relations.collector_count() != 2 {
        return false;
    }
    relations.collector(1).exported
        && relations.lines().len() == 2
        && relations.containments().len() == 1
}

#[test]
fn references_find_numbers(rt: HostRuntime) -> Result<(), Fail> {
    for (name, title, number) in FOUND.iter() {
        assert!(rt; finds(rt.alloc(), name, title, *number)?, "{name} {title}");
    }
    Ok(())
}

#[test]
fn marks_make_live(rt: HostRuntime) -> Result<(), Fail> {
    for (number, live, realized) in MARKED.iter() {
        assert!(rt; marks(rt.alloc(), *number, *live, *realized)?, "{number}");
    }
    Ok(())
}

#[test]
fn instances_wait_for_their_evaluation(rt: HostRuntime) -> Result<(), Fail> {
    for (marked, evaluated, told) in PENDING.iter() {
        assert!(rt; waits(rt.alloc(), *marked, *evaluated, told)?, "{told}");
    }
    Ok(())
}

#[test]
fn relations_are_kept_in_order(rt: HostRuntime) -> Result<(), Fail> {
    assert!(rt; relates(rt.alloc())?);
    Ok(())
}
