//! Where resources begin and end on a line, on which nothing stands before what leads to it, and those alone share a place
//! that lead to each other. This is an attempt: what the line shows, `spans` tells.
use std::alloc::{AllocError, Global};

/// An arrow to a point that is to come no earlier than the one that it leads from.
#[derive(Clone, Copy)]
struct Arrow {
    to: usize,
    /// How many arrows there were when the one before it from the same point was put, or 0 where it is the first.
    before: usize,
}

/// Points, two for each resource, and which of them are to come after which.
#[derive(Drop)]
struct Points {
    arrows: Vec<Arrow>,
    /// For each point how many arrows there were when the last one from it was put, or 0 where there is none. A walk
    /// takes the arrows away as it follows them.
    last: Vec<usize>,
}

/// A walk along the arrows that turns round where no arrow is left.
#[derive(Drop)]
struct Walk {
    /// For each point how many were entered when it was, itself among them, or 0 where it was not.
    entered: Vec<usize>,
    /// For each point the least of these numbers that is known to be led to from it.
    lowest: Vec<usize>,
    /// For each point its place on the line, or 0 while it has none.
    places: Vec<usize>,
    /// What was entered and has no place, in the order of entering.
    open: Vec<usize>,
    /// The way from where the walk began.
    way: Vec<usize>,
    count: usize,
    /// The place that is given next.
    place: usize,
}

/// The point at which a resource begins.
fn begin(at: u32) -> usize {
    at as usize * 2
}

/// The point at which it ends.
fn end(at: u32) -> usize {
    at as usize * 2 + 1
}

fn number_at(numbers: &[usize], point: usize) -> usize {
    match numbers.get(point) {
        Some(number) => *number,
        None => 0,
    }
}

fn set_number(numbers: &mut [usize], point: usize, number: usize) {
    if point < numbers.len() {
        numbers[point] = number;
    }
}

fn no_points(alloc: Global, count: u32) -> Result<Points, AllocError> {
    let arrows = Vec::new(alloc);
    let last = vec![in alloc; 0; end(count)]?;
    Ok(Points { arrows, last })
}

fn put_arrow(points: &mut Points, from: usize, to: usize) -> Result<(), AllocError> {
    let before = number_at(points.last.as_slice(), from);
    points.arrows.push(Arrow { to, before })?;
    let number = points.arrows.len();
    set_number(&mut points.last, from, number);
    Ok(())
}

/// A resource begins before it ends.
fn put_resources(points: &mut Points, count: u32) -> Result<(), AllocError> {
    for at in 0..count {
        put_arrow(points, begin(at), end(at))?;
    }
    Ok(())
}

/// What is contained begins after its container and ends before it.
fn put_containers(points: &mut Points, containers: &[(u32, u32)]) -> Result<(), AllocError> {
    for pair in containers {
        put_arrow(points, begin(pair.0), begin(pair.1))?;
        put_arrow(points, end(pair.1), end(pair.0))?;
    }
    Ok(())
}

/// What comes later begins after what comes earlier has ended.
fn put_edges(points: &mut Points, edges: &[(u32, u32)]) -> Result<(), AllocError> {
    for edge in edges {
        put_arrow(points, end(edge.0), begin(edge.1))?;
    }
    Ok(())
}

/// The next arrow from this point, which is not met again.
fn take_arrow(points: &mut Points, point: usize) -> Option<usize> {
    let number = number_at(points.last.as_slice(), point);
    match number.checked_sub(1) {
        Some(at) => {
            let arrow = points.arrows.get(at).copied()?;
            set_number(&mut points.last, point, arrow.before);
            Some(arrow.to)
        }
        None => None,
    }
}

fn no_walk(alloc: Global, count: usize) -> Result<Walk, AllocError> {
    let entered = vec![in alloc; 0; count]?;
    let lowest = vec![in alloc; 0; count]?;
    let places = vec![in alloc; 0; count]?;
    let open = Vec::new(alloc);
    let way = Vec::new(alloc);
    Ok(Walk {
        entered,
        lowest,
        places,
        open,
        way,
        count: 0,
        place: count,
    })
}

fn enter(walk: &mut Walk, point: usize) -> Result<(), AllocError> {
    let count = walk.count.wrapping_add(1);
    walk.count = count;
    set_number(&mut walk.entered, point, count);
    set_number(&mut walk.lowest, point, count);
    walk.open.push(point)?;
    walk.way.push(point)?;
    Ok(())
}

/// This point leads to what has this number.
fn lower(walk: &mut Walk, point: usize, number: usize) {
    if number < number_at(walk.lowest.as_slice(), point) {
        set_number(&mut walk.lowest, point, number);
    }
}

/// Goes on to where an arrow leads, unless the walk was there.
fn follow_arrow(walk: &mut Walk, from: usize, to: usize) -> Result<(), AllocError> {
    let number = number_at(walk.entered.as_slice(), to);
    if number == 0 {
        return enter(walk, to);
    }
    if number_at(walk.places.as_slice(), to) == 0 {
        lower(walk, from, number);
    }
    Ok(())
}

/// Gives one place to this point and all that were entered since and have none: they lead to each other.
fn settle(walk: &mut Walk, point: usize) {
    let place = walk.place;
    walk.place = place.wrapping_sub(1);
    for _turn in 0..walk.open.len() {
        match walk.open.pop() {
            Some(member) => {
                set_number(&mut walk.places, member, place);
                if member == point {
                    return;
                }
            }
            None => return,
        }
    }
}

/// Goes back from this point.
fn leave(walk: &mut Walk, point: usize) {
    walk.way.pop();
    let lowest = number_at(walk.lowest.as_slice(), point);
    if lowest == number_at(walk.entered.as_slice(), point) {
        settle(walk, point);
    }
    if let Some(from) = walk.way.last().copied() {
        lower(walk, from, lowest);
    }
}

/// Walks to all that this point leads to. Each arrow is followed once, and each point left once.
fn walk_from(points: &mut Points, walk: &mut Walk, point: usize) -> Result<(), AllocError> {
    enter(walk, point)?;
    for _turn in 0..points.arrows.len().saturating_add(points.last.len()) {
        match walk.way.last().copied() {
            Some(at) => match take_arrow(points, at) {
                Some(to) => follow_arrow(walk, at, to)?,
                None => leave(walk, at),
            },
            None => return Ok(()),
        }
    }
    Ok(())
}

/// The place of each point on the line.
fn line_up(alloc: Global, points: Points) -> Result<Vec<usize>, AllocError> {
    let mut points = points;
    let mut walk = no_walk(alloc, points.last.len())?;
    for point in 0..points.last.len() {
        if number_at(walk.entered.as_slice(), point) == 0 {
            walk_from(&mut points, &mut walk, point)?;
        }
    }
    let Walk { places, .. } = walk;
    Ok(places)
}

/// Where each resource begins and where it ends.
pub fn laid_out(
    alloc: Global,
    containers: &[(u32, u32)],
    edges: &[(u32, u32)],
    count: u32,
) -> Result<Vec<(usize, usize)>, AllocError> {
    let mut points = no_points(alloc, count)?;
    put_resources(&mut points, count)?;
    put_containers(&mut points, containers)?;
    put_edges(&mut points, edges)?;
    let line = line_up(alloc, points)?;
    let mut spans = Vec::new(alloc);
    for at in 0..count {
        spans.push((
            number_at(line.as_slice(), begin(at)),
            number_at(line.as_slice(), end(at)),
        ))?;
    }
    Ok(spans)
}
