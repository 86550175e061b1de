// The verdict on a graph: nodes are taken, smallest first; if some are left, a walk finds a cycle among them. The stamps taken, or those of the cycle,
// go into the answer.
// A node is a number below the graph's `count`; `nodes` has the stamps, rising, so that the smaller node has the smaller stamp.
#![tactic(auto)]

ghost use Rattle.std.specs.Prelude.{◌≡◌, ◌+◌, ◌*◌, ◌≤◌, ◌<◌, nat_lt, length, All};
ghost use Rattle.std.specs.List.{IsFirstBest};
ghost use Rattle.log_format.specs.Bytes.{stamp_bytes, splice};
ghost use Rattle.graph.specs.Answer.{stamps_at, Turned, Answered, verdict_at};

use edges::Graph;
use graph_theory::Verdict;
use log_writer::put4;
use taking::take_all;
use walking::find_cycle;

// The first place of a cycle's smallest node.
fn least_at(cycle: &[u16]) -> usize
    requires { 0 < length cycle.now }
    ensures { IsFirstBest nat_lt cycle.now (length cycle.now) result }
{
    // By index: min_by_key promises a smallest, and not that it is the first of them.
    let mut least = 0;
    for i in 1..cycle.len() {
        if cycle[i] < cycle[least] {
            least = i;
        }
    }
    least
}

// Writes the stamps of the nodes of a path, from a place of the answer on.
fn put_stamps(nodes: &[u32], path: &[u16], answer: &mut [u8], at: usize)
    requires room { at + 4 * length path.now ≤ length answer.old }
    requires those_nodes { All (λ k. k < length nodes.now) path.now }
    ensures { answer.new ≡ splice answer.old at (stamp_bytes (stamps_at nodes.now path.now)) }
{
    for (i, &node) in path.iter().enumerate() {
        put4(answer, at + 4 * i, nodes[usize::from(node)]);
    }
}

// Writes the stamps of a cycle, turned so that its smallest comes first.
fn put_cycle(nodes: &[u32], cycle: &[u16], answer: &mut [u8])
    requires some { 0 < length cycle.now }
    requires room { 4 * length cycle.now ≤ length answer.old }
    requires those_nodes { All (λ k. k < length nodes.now) cycle.now }
    ensures { Turned nodes.now cycle.now answer.old answer.new }
{
    let (front, back) = cycle.split_at(least_at(cycle));
    put_stamps(nodes, back, answer, 0);
    put_stamps(nodes, front, answer, 4 * back.len());
}

// Judges the graph: writes its nodes' stamps in the order of taking, or, if not all can be taken, those of a cycle; answers which, and how many
// stamps. No byte of the answer past the last stamp changes. `deg` and `path` are working memory.
pub fn judge_graph(
    graph: Graph,
    nodes: &[u32],
    deg: &mut [u16],
    path: &mut [u16],
    answer: &mut [u8],
) -> Verdict
    requires stamps { graph.count ≤ length nodes.now }
    requires numbers { graph.count ≤ length deg.old }
    requires places { graph.count ≤ length path.old }
    requires room { 4 * graph.count ≤ length answer.old }
    ensures { Answered (verdict_at graph.entry.matrix.now graph.entry.count nodes.now) answer.old answer.new result }
{
    let taken = take_all(graph, deg, path);
    if taken == graph.count {
        put_stamps(nodes, &path[..taken], answer, 0);
        return Verdict::Accepted(taken);
    }
    // None of the nodes left can be taken, so each has a predecessor among them, and the walk closes.
    let part = find_cycle(graph, deg, graph.count - taken, path).unwrap();
    let cycle = &path[part];
    put_cycle(nodes, cycle, answer);
    Verdict::Cycle(cycle.len())
}
