// The edges between committed transactions as a matrix of bytes that the caller lends: one read of the log draws its edges. A node is a
// committed transaction's number, counted by rising stamps.
#![tactic(auto)]

ghost use Rattle.std.specs.Prelude.{◌≡◌, ◌+◌, ◌*◌, ◌≤◌, ◌<◌, length, get_or, unwrap_or};
ghost use Rattle.numbers.specs.Numbers.{items};
ghost use Rattle.edges.specs.Matrix.{most_nodes, matrix_size, edge_at, with_edge};
ghost use Rattle.edges.specs.Drawn.{Drew};
ghost use Rattle.edges.specs.Adding.{Adds, One, Others};

use numbers::{ITEMS, MAX_COMMITTED};

// ---- reading

// A graph whose edges are drawn: its matrix, and how many nodes it has.
#[derive(Clone, Copy, Debug, PartialEq, Eq)]
pub struct Graph<'a> {
    pub matrix: &'a [u8],
    pub count: usize,
    pub ghost matrix_fits: { matrix_size ≤ length matrix.now },
    pub ghost few_nodes: { count ≤ most_nodes },
}

impl Graph<'_> {
    // Whether there is an edge from one node to the other.
    pub fn edge(&self, from: usize, to: usize) -> bool
        requires from_node { from < self.now.count }
        requires to_node { to < self.now.count }
        ensures { result ≡ edge_at self.now.matrix.now from to }
    {
        self.matrix[from * MAX_COMMITTED + to] == 1
    }
}

// The matrix that is written is lent as bytes: a struct round the reference would need a clause about it in each function.
// ---- drawing

// The ranks of the nodes' versions, 64 a node, one an item: one more than the place of the node's version among the item's versions,
// oldest first, or 0 where it has none.
#[derive(Clone, Copy, Debug, PartialEq, Eq)]
pub struct Ranks<'a> {
    pub ranks: &'a [u16],
    pub count: usize,
    pub ghost few_nodes: { count ≤ most_nodes },
    pub ghost ranks_fit: { count * items ≤ length ranks.now },
}

// A node's version of the item that is read: its rank, 0 where the node has none.
#[derive(Clone, Copy, Debug, PartialEq, Eq)]
struct Version {
    node: usize,
    rank: u16,
}

impl Ranks<'_> {
    // A node's version of an item.
    fn version(&self, node: usize, item: usize) -> Version
        requires its_node { node < self.now.count }
        requires its_item { item < items }
        ensures its_node { result.node ≡ node }
        ensures its_rank { result.rank ≡ get_or self.now.ranks.now (node * items + item) 0 }
    {
        Version {
            node,
            rank: self.ranks[node * ITEMS + item],
        }
    }
}

// Sets the edge from a to b.
fn set_edge(mat: &mut [u8], a: usize, b: usize)
    requires matrix_fits { matrix_size ≤ length mat.old }
    requires from_node { a < most_nodes }
    requires to_node { b < most_nodes }
    ensures { mat.new ≡ with_edge mat.old a b }
{
    mat[a * MAX_COMMITTED + b] = 1;
}

// The edge for a node's version beside the reader's read of another, `source`: from the node to the source's if it comes before, from the
// reader to the node if after; none where the node is the reader or has no version.
fn draw_version(mat: &mut [u8], other: Version, reader: usize, source: Version)
    requires matrix_fits { matrix_size ≤ length mat.old }
    requires other_node { other.node < most_nodes }
    requires reader_node { reader < most_nodes }
    requires source_node { 0 < source.rank → source.node < most_nodes }
    ensures { Adds (One other.node other.rank reader source.node source.rank) mat.old mat.new }
{
    if other.node == reader || other.rank == 0 {
        return;
    }
    if other.rank < source.rank {
        set_edge(mat, other.node, source.node);
    } else if source.rank < other.rank {
        set_edge(mat, reader, other.node);
    }
}

// The edges for every node's version of the item, beside the reader's read of `source`.
fn draw_versions(mat: &mut [u8], ranks: Ranks, reader: usize, source: Version, item: usize)
    requires matrix_fits { matrix_size ≤ length mat.old }
    requires its_item { item < items }
    requires reader_node { reader < most_nodes }
    requires source_node { 0 < source.rank → source.node < most_nodes }
    ensures { Adds (Others ranks.entry.ranks.now item reader source.node source.rank ranks.entry.count) mat.old mat.new }
{
    for node in 0..ranks.count {
        draw_version(mat, ranks.version(node, item), reader, source);
    }
}

// The edges of node k's read of the item from a node, or from version 0 where that is none: the matrix has them beside those that it had.
// A read of one's own version draws none.
pub fn draw_read(mat: &mut [u8], ranks: Ranks, k: usize, source: Option<usize>, item: usize)
    requires matrix_fits { matrix_size ≤ length mat.old }
    requires its_item { item < items }
    requires reader_node { k < ranks.count }
    ensures { Drew ranks.entry.ranks.now ranks.entry.count k item (unwrap_or source ranks.entry.count) mat.old mat.new }
{
    // A number that is no node's means version 0 as well, as the promise has it, so none becomes such a number.
    let node = source.unwrap_or(ranks.count);
    if node == k {
        return;
    }
    if node < ranks.count {
        set_edge(mat, node, k);
        draw_versions(mat, ranks, k, ranks.version(node, item), item);
    } else {
        // Version 0 comes before all others, so no edge leads to it, and its node stands in none.
        draw_versions(mat, ranks, k, Version { node, rank: 0 }, item);
    }
}
