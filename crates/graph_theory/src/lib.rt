// Paths, cycles and topological orders in any graph over numbers; taking nodes away smallest first; the predecessor walk; the verdict. It has no function.
#![tactic(auto)]

// The verdict on a graph, with how many stamps tell it: those of all nodes, in the order of taking, or those of a cycle.
#[derive(Clone, Copy, Debug, PartialEq, Eq)]
pub enum Verdict {
    Accepted(usize),
    Cycle(usize),
}
