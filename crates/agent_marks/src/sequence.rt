//! An order of nodes in which levels rise soon. Nothing is promised of it: in another order they rise later.
use std::alloc::{AllocError, Global};

/// How many arrows lead to each node.
fn counts_of(
    alloc: Global,
    nodes: usize,
    table: &Vec<Vec<usize>>,
) -> Result<Vec<usize>, AllocError> {
    let mut counts = vec![in alloc; 0; nodes]?;
    for targets in table.as_slice() {
        count_all(targets.as_slice(), &mut counts);
    }
    Ok(counts)
}

fn count_all(targets: &[usize], counts: &mut Vec<usize>) {
    for target in targets {
        if let Some(count) = counts.get_mut(*target) {
            *count = count.saturating_add(1);
        }
    }
}

/// The nodes to which no arrow leads.
fn first_nodes(alloc: Global, counts: &[usize]) -> Result<Vec<usize>, AllocError> {
    let mut first = Vec::new(alloc);
    for (node, count) in counts.iter().enumerate() {
        if *count == 0 {
            first.push(node)?;
        }
    }
    Ok(first)
}

/// Takes these arrows away, and puts the nodes to which no other leads on the stack.
fn take_away(
    targets: &[usize],
    counts: &mut Vec<usize>,
    stack: &mut Vec<usize>,
) -> Result<(), AllocError> {
    for target in targets {
        if is_last(counts.get_mut(*target)) {
            stack.push(*target)?;
        }
    }
    Ok(())
}

/// Counts one less. Answers whether it was the last one.
fn is_last(count: Option<&mut usize>) -> bool {
    match count {
        Some(count) => {
            let left = count.saturating_sub(1);
            let was_last = *count == 1;
            *count = left;
            was_last
        }
        None => false,
    }
}

/// The nodes, each behind those from which arrows lead to it.
pub fn sequence(
    alloc: Global,
    nodes: usize,
    table: &Vec<Vec<usize>>,
) -> Result<Vec<usize>, AllocError> {
    let mut counts = counts_of(alloc, nodes, table)?;
    let mut stack = first_nodes(alloc, counts.as_slice())?;
    let mut order = Vec::new(alloc);
    for _node in 0..nodes {
        let Some(node) = stack.pop() else {
            break;
        };
        order.push(node)?;
        if let Some(targets) = table.get(node) {
            take_away(targets.as_slice(), &mut counts, &mut stack)?;
        }
    }
    Ok(order)
}
