//! What it shows of cycles that resources lie on a line of numbers.
ghost use Rattle.std.specs.Prelude.{◌≡◌, ◌↔◌, ◌+◌, ◌≤◌, IsTrue};
ghost use Rattle.std.specs.List.{All};
ghost use Rattle.rel_graph.specs.Spans.{span, LiesWithin, ComesLater, IsLine};

/// Where a resource begins and where it ends.
pub fn span(spans: &[(usize, usize)], at: u32) -> (usize, usize)
    ensures { result ≡ span spans.now at }
{
    match spans.get(at as usize) {
        Some(found) => *found,
        None => (0, 0),
    }
}

fn is_behind(gap: usize, before: usize, after: usize) -> bool
    ensures { IsTrue result ↔ before + gap ≤ after }
{
    before <= after && after - before >= gap
}

fn are_spans(spans: &[(usize, usize)]) -> bool
    ensures { IsTrue result ↔ All (λ s. s.0 ≤ s.1) spans.now }
{
    for found in spans {
        if found.0 > found.1 {
            return false;
        }
    }
    true
}

fn lies_within(gap: usize, spans: &[(usize, usize)], container: u32, member: u32) -> bool
    ensures { IsTrue result ↔ LiesWithin gap spans.now (container, member) }
{
    let outer = span(spans, container);
    let inner = span(spans, member);
    is_behind(gap, outer.0, inner.0) && inner.1 <= outer.1
}

fn comes_later(gap: usize, spans: &[(usize, usize)], earlier: u32, later: u32) -> bool
    ensures { IsTrue result ↔ ComesLater gap spans.now (earlier, later) }
{
    is_behind(gap, span(spans, earlier).1, span(spans, later).0)
}

fn do_all_lie_within(gap: usize, spans: &[(usize, usize)], containers: &[(u32, u32)]) -> bool
    ensures { IsTrue result ↔ All (LiesWithin gap spans.now) containers.now }
{
    for pair in containers {
        if !lies_within(gap, spans, pair.0, pair.1) {
            return false;
        }
    }
    true
}

fn do_all_come_later(gap: usize, spans: &[(usize, usize)], edges: &[(u32, u32)]) -> bool
    ensures { IsTrue result ↔ All (ComesLater gap spans.now) edges.now }
{
    for pair in edges {
        if !comes_later(gap, spans, pair.0, pair.1) {
            return false;
        }
    }
    true
}

/// Whether these spans keep to what contains what and what comes before what, with this gap.
pub fn is_line(
    gap: usize,
    spans: &[(usize, usize)],
    containers: &[(u32, u32)],
    edges: &[(u32, u32)],
) -> bool
    ensures { IsTrue result ↔ IsLine gap spans.now containers.now edges.now }
{
    are_spans(spans)
        && do_all_lie_within(gap, spans, containers)
        && do_all_come_later(gap, spans, edges)
}
