//! What the definitions of a file put into its table.
ghost use Rattle.std.specs.Prelude.{◌≡◌, [], ◌∷◌, ◌++◌, IfOk, OnOk, map, reverse};
ghost use Rattle.pp_tree.specs.declared.definition.Definition.TheVariants.{Class, Define, Function, Node, SameNode};
ghost use Rattle.pp_tree.specs.Tables.{rows_of, all_rows, node_rows, further_row};

use crate::definition::{Definition, Node, NodeName};
use crate::table::{DefinitionName, copy_name};
use pp_values::{Items, Memory, Text};
use std::alloc::Global;

/// A name, what stands under it, and the line of the name.
#[derive(Drop)]
pub struct Row {
    pub name: DefinitionName,
    pub definition: Definition,
    pub at: u32,
}

/// The rows of all definitions, in order.
#[tactic(auto, unfolding(crate::specs::Tables::all_rows))]
pub fn all_rows(alloc: Global, definitions: Items<Definition>) -> Result<Vec<Row>, Memory>
    ensures { IfOk result (λ rows. rows.items ≡ all_rows definitions) }
{
    let mut rows = Vec::new(alloc);
    let mut left = reversed(alloc, definitions)?;
    while let Some(definition) = left.pop() {
        put_rows(alloc, &mut rows, definition)?;
    }
    Ok(rows)
}

/// The items from the last to the first.
fn reversed<T: Drop>(alloc: Global, mut items: Items<T>) -> Result<Items<T>, Memory>
    ensures { IfOk result (λ back. back ≡ reverse items) }
{
    let mut back = Items::new(alloc);
    while let Some(item) = items.pop() {
        back.push(item)?;
    }
    Ok(back)
}

/// Appends the rows of one definition.
#[tactic(auto, unfolding(crate::specs::Tables::rows_of))]
fn put_rows(alloc: Global, rows: &mut Vec<Row>, definition: Definition) -> Result<(), Memory>
    ensures { OnOk result (rows.new.items ≡ rows.old.items ++ rows_of definition) }
{
    match definition {
        Definition::Class(class) => {
            let name = DefinitionName::code(alloc, &class.name.text)?;
            let at = class.name.at;
            rows.push(Row {
                name,
                definition: Definition::Class(class),
                at,
            })?;
            Ok(())
        }
        Definition::Define(define) => {
            let name = DefinitionName::code(alloc, &define.name.text)?;
            let at = define.name.at;
            rows.push(Row {
                name,
                definition: Definition::Define(define),
                at,
            })?;
            Ok(())
        }
        Definition::Function(function) => {
            let name = DefinitionName::function(alloc, &function.name.text)?;
            let at = function.name.at;
            rows.push(Row {
                name,
                definition: Definition::Function(function),
                at,
            })?;
            Ok(())
        }
        Definition::Node(node) => put_node(alloc, rows, node),
        Definition::SameNode(_) => Ok(()),
    }
}

/// Appends the rows of a node definition.
fn put_node(alloc: Global, rows: &mut Vec<Row>, node: Node) -> Result<(), Memory>
    ensures { OnOk result (rows.new.items ≡ rows.old.items ++ node_rows node node.names) }
{
    let Some((first, more)) = node.names.as_slice().split_first() else {
        return Ok(());
    };
    let name = copy_name(alloc, &first.name)?;
    let at = first.at;
    let further = further_rows(alloc, &first.name, more)?;
    rows.push(Row {
        name: DefinitionName::Node(name),
        definition: Definition::Node(node),
        at,
    })?;
    put_all(rows, further)
}

/// Appends these rows.
fn put_all(rows: &mut Vec<Row>, mut more: Vec<Row>) -> Result<(), Memory>
    ensures { OnOk result (rows.new.items ≡ rows.old.items ++ more.items) }
{
    rows.append(&mut more)?;
    Ok(())
}

/// The rows of the names after the first.
fn further_rows(alloc: Global, first: &Option<Text>, names: &[NodeName]) -> Result<Vec<Row>, Memory>
    ensures { IfOk result (λ rows. rows.items ≡ map (further_row first.now) names.now) }
{
    let mut rows = Vec::new(alloc);
    for name in names {
        rows.push(further_row(alloc, first, name)?)?;
    }
    Ok(rows)
}

fn further_row(alloc: Global, first: &Option<Text>, name: &NodeName) -> Result<Row, Memory>
    ensures { IfOk result (λ row. row ≡ further_row first.now name.now) }
{
    Ok(Row {
        name: DefinitionName::Node(copy_name(alloc, &name.name)?),
        definition: Definition::SameNode(copy_name(alloc, first)?),
        at: name.at,
    })
}
