// A walk to smallest predecessors among the nodes left, until a node repeats: it finds a cycle where none of those left can be taken.
// A node is a number below the graph's `count`; it is left while its number in `deg` is not 0.
#![tactic(auto)]

ghost use Rattle.std.specs.Prelude.{◌≡◌, ◌&&◌, ◌==◌, not, ◌≤◌, ◌<◌, length, position};
ghost use Rattle.edges.specs.Matrix.{edge_at};
ghost use Rattle.taking.specs.Nodes.{is_left, left_of, FirstOf};
ghost use Rattle.walking.specs.Walked.{Stepped, Walked};

use edges::Graph;
use std::ops::Range;

// The smallest node left with an edge to `at`.
fn predecessor(graph: Graph, deg: &[u16], at: usize) -> Option<usize>
    requires node { at < graph.count }
    requires numbers { graph.count ≤ length deg.now }
    ensures { FirstOf (λ j. is_left deg.now j && edge_at graph.entry.matrix.now j at) graph.entry.count result }
{
    (0..graph.count).find(|&j| deg[j] != 0 && graph.edge(j, at))
}

// The first place of a path at which the node stands.
fn place_of(path: &[u16], node: usize) -> Option<usize>
    ensures { result ≡ position (λ x. x == node) path.now }
{
    path.iter().position(|&x| usize::from(x) == node)
}

// From `at`, steps to the smallest node left with an edge to it, until a node repeats. `path` has the nodes passed, the newest first, from `top` on,
// so that there is room for `top` nodes not yet visited. Answers the part of `path` that is the cycle, along its edges.
fn walk(graph: Graph, deg: &[u16], at: usize, path: &mut [u16], top: usize) -> Option<Range<usize>>
    requires node { at < graph.count }
    requires numbers { graph.count ≤ length deg.now }
    requires place { top ≤ length path.old }
    ensures { Stepped (edge_at graph.entry.matrix.now) graph.entry.count top at deg.now path.old path.new result }
{
    if top == 0 {
        return None;
    }
    let top = top - 1;
    path[top] = at as u16;
    let next = predecessor(graph, deg, at)?;
    match place_of(&path[top..], next) {
        Some(i) => Some(top..top + i + 1),
        None => walk(graph, deg, next, path, top),
    }
}

// The smallest node left.
fn first_left(deg: &[u16]) -> Option<usize>
    ensures { result ≡ position (λ d. not (d == 0)) deg.now }
{
    deg.iter().position(|&d| d != 0)
}

// The closed path that the walk from the smallest node left finds, among the `left` nodes that are left.
pub fn find_cycle(graph: Graph, deg: &[u16], left: usize, path: &mut [u16]) -> Option<Range<usize>>
    requires numbers { graph.count ≤ length deg.now }
    requires those_left { left ≡ length (left_of graph.count deg.now) }
    requires some_left { 0 < left }
    requires places { left ≤ length path.old }
    ensures { Walked (edge_at graph.entry.matrix.now) left (left_of graph.entry.count deg.now) path.new result }
{
    let at = first_left(&deg[..graph.count])?;
    walk(graph, deg, at, &mut path[..left], left)
}
