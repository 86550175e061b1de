// Taking the nodes of a graph, smallest first, by how many edges lead to each from nodes left.
// A node is a number below the graph's `count`; `deg` has a number for each, 0 once it is taken.
#![tactic(auto)]

ghost use Rattle.std.specs.Prelude.{◌≡◌, ◌==◌, ◌≤◌, ◌<◌, length, position};
ghost use Rattle.edges.specs.Matrix.{edge_at};
ghost use Rattle.taking.specs.Nodes.{indices, tally};
ghost use Rattle.taking.specs.Taken.{Counted, Lowered, Taken};

use edges::Graph;

// ---- counting

// How many edges lead to k.
fn degree(graph: Graph, k: usize) -> u16
    requires { k < graph.count }
    ensures { result ≡ tally (λ j. edge_at graph.entry.matrix.now j k) (indices graph.entry.count) }
{
    (0..graph.count).filter(|&j| graph.edge(j, k)).count() as u16
}

// Gives each node its number: how many edges lead to it, and one.
fn count_all(graph: Graph, deg: &mut [u16])
    requires { graph.count ≤ length deg.old }
    ensures { Counted (edge_at graph.entry.matrix.now) graph.entry.count deg.new }
{
    for k in 0..graph.count {
        // By index: the buffer may be longer than the nodes, and of a lent part a loop by iter_mut says too little.
        deg[k] = degree(graph, k) + 1;
    }
}

// ---- taking

// The first node whose number is 1: one that is left, with no edge from a node left.
fn first_free(deg: &[u16]) -> Option<usize>
    ensures { result ≡ position (λ d. d == 1) deg.now }
{
    deg.iter().position(|&d| d == 1)
}

// Takes the node k: its number is 0, and those with an edge from it are less by one.
fn take_node(graph: Graph, k: usize, deg: &mut [u16])
    requires node { k < graph.count }
    requires numbers { graph.count ≤ length deg.old }
    ensures { Lowered (edge_at graph.entry.matrix.now) graph.entry.count k deg.old deg.new }
{
    for j in 0..graph.count {
        // By index, as above. Each number is stored, also where no edge leads to it, so that the loop is vector code.
        deg[j] = deg[j].saturating_sub(u16::from(graph.edge(k, j)));
    }
    deg[k] = 0;
}

// Takes nodes, each time the smallest that has no edge from a node left, until none can be taken. Answers how many; `path` has them in their
// order, and the number of each node that is left is not 0.
pub fn take_all(graph: Graph, deg: &mut [u16], path: &mut [u16]) -> usize
    requires numbers { graph.count ≤ length deg.old }
    requires places { graph.count ≤ length path.old }
    ensures { Taken (edge_at graph.entry.matrix.now) graph.entry.count path.new deg.new result }
{
    count_all(graph, deg);
    for taken in 0..graph.count {
        let Some(k) = first_free(&deg[..graph.count]) else {
            return taken;
        };
        path[taken] = k as u16;
        take_node(graph, k, deg);
    }
    graph.count
}
