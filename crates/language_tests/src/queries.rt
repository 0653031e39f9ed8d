use collector_query::matches;
use pp_values::{Memory, Text, Texts, Value, Values};
use res_core::{Attribute, Attributes, Queries, Query, QueryBox, Tags, tags_of};
use std::alloc::Global;
use std::test::Fail;

fn text(alloc: Global, word: &str) -> Result<Value, Memory> {
    Ok(Value::Text(Text::from_str(alloc, word)?))
}

fn list(alloc: Global, words: &str) -> Result<Value, Memory> {
    let mut items = Values::new(alloc);
    for word in words.split_whitespace() {
        items.push(text(alloc, word)?)?;
    }
    Ok(Value::List(items))
}

/// A query, whose words are texts.
#[derive(Clone, Copy)]
enum Ask {
    All,
    Title(&'static str),
    Tag(&'static str),
    /// A tag that is this number.
    Number(i64),
    /// `owner` is this text.
    Owner(&'static str),
    /// `owner` is this list.
    Owners(&'static str),
    /// This attribute is Undef.
    Unset(&'static str),
    NotTag(&'static str),
    /// Tags with `and` between them.
    Each(&'static str),
    /// Tags with `or` between them.
    Some(&'static str),
    /// A tag, `or` tags with `and` between them.
    OrEach(&'static str, &'static str),
}

fn tag(alloc: Global, word: &str) -> Result<Query, Memory> {
    Ok(Query::Tag(text(alloc, word)?))
}

fn tags(alloc: Global, words: &str) -> Result<Queries, Memory> {
    let mut queries = Queries::new(alloc);
    for word in words.split_whitespace() {
        queries.push(tag(alloc, word)?)?;
    }
    Ok(queries)
}

fn or_each(alloc: Global, first: &str, words: &str) -> Result<Queries, Memory> {
    let mut queries = Queries::new(alloc);
    queries.push(tag(alloc, first)?)?;
    queries.push(Query::And(tags(alloc, words)?))?;
    Ok(queries)
}

fn owner(alloc: Global, value: Value) -> Result<Query, Memory> {
    Ok(Query::Attribute(Text::from_str(alloc, "owner")?, value))
}

fn query(alloc: Global, ask: Ask) -> Result<Query, Memory> {
    match ask {
        Ask::All => Ok(Query::All),
        Ask::Title(word) => Ok(Query::Title(text(alloc, word)?)),
        Ask::Tag(word) => tag(alloc, word),
        Ask::Number(number) => Ok(Query::Tag(Value::Int(number))),
        Ask::Owner(word) => owner(alloc, text(alloc, word)?),
        Ask::Owners(words) => owner(alloc, list(alloc, words)?),
        Ask::Unset(name) => Ok(Query::Attribute(Text::from_str(alloc, name)?, Value::Undef)),
        Ask::NotTag(word) => Ok(Query::Not(QueryBox::new(alloc, tag(alloc, word)?)?)),
        Ask::Each(words) => Ok(Query::And(tags(alloc, words)?)),
        Ask::Some(words) => Ok(Query::Or(tags(alloc, words)?)),
        Ask::OrEach(first, words) => Ok(Query::Or(or_each(alloc, first, words)?)),
    }
}

// The owners as a list, or the one as a text.
fn owners(alloc: Global, words: &str) -> Result<Value, Memory> {
    if words.contains(" ") {
        list(alloc, words)
    } else {
        text(alloc, words)
    }
}

fn attributes(alloc: Global, words: &str) -> Result<Attributes, Memory> {
    let name = Text::from_str(alloc, "owner")?;
    let value = owners(alloc, words)?;
    let mut items = Vec::new(alloc);
    items.push(Attribute { name, value })?;
    Ok(Attributes::from_vec(items))
}

// `file { 'Motd': owner => .. }`, of which contracts say each answer: here that it has one.
fn matched(alloc: Global, ask: Ask, words: &str) -> Result<bool, Memory> {
    let kind = Text::from_str(alloc, "file")?;
    let title = Text::from_str(alloc, "Motd")?;
    let tags = tags_of(alloc, &kind, &title, &Texts::new(alloc), &Tags::new(alloc))?;
    let attributes = attributes(alloc, words)?;
    let query = query(alloc, ask)?;
    Ok(matches(&query, &title, &tags, &attributes))
}

const TABLE: [(Ask, &str, bool, &str); 20] = [
    (Ask::All, "root", true, "all"),
    (Ask::Title("motd"), "root", true, "title in lower case"),
    (Ask::Title("mot"), "root", false, "part of a title"),
    (Ask::Tag("FILE"), "root", true, "tag in upper case"),
    (Ask::Tag("fil"), "root", false, "part of a tag"),
    (Ask::Number(1), "root", false, "number as tag"),
    (Ask::Owner("Root"), "root", true, "attribute"),
    (Ask::Owner("bin"), "root", false, "other value"),
    (Ask::Owner("admin"), "root Admin", true, "member"),
    (Ask::Owner("bin"), "root admin", false, "no member"),
    (Ask::Owners("root admin"), "root admin", false, "whole list"),
    (Ask::Unset("mode"), "root", true, "not set"),
    (Ask::Unset("owner"), "root", false, "set"),
    (Ask::NotTag("file"), "root", false, "not"),
    (Ask::Each(""), "root", true, "and of none"),
    (Ask::Each("file motd"), "root", true, "and"),
    (
        Ask::Each("file web"),
        "root",
        false,
        "and of one that is false",
    ),
    (Ask::Some(""), "root", false, "or of none"),
    (Ask::Some("web motd"), "root", true, "or"),
    (
        Ask::OrEach("file", "motd web"),
        "root",
        true,
        "or before and",
    ),
];

#[test]
fn queries_match(rt: HostRuntime) -> Result<(), Fail> {
    for (ask, owners, want, name) in TABLE.iter() {
        assert!(rt; matched(rt.alloc(), *ask, owners)? == *want, "{name}");
    }
    Ok(())
}
