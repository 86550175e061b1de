// The checker: one top function owns the working memory, walks the log, then judges the version order, draws the edges and gives the
// verdict; and the call that writes a log's timestamp order.
#![tactic(auto)]

ghost use Rattle.std.specs.Prelude.{◌≡◌, ◌*◌, ◌≤◌, length};
ghost use Rattle.checker_rules.specs.Answers.{CheckIs, PanelIs, Small, returned};
ghost use Rattle.checker_rules.specs.Orders.{OrderIs};
ghost use Rattle.drawing.specs.Drawing.{Tables};
ghost use Rattle.history.specs.Reads.{ReadLog};
ghost use Rattle.checker.specs.Reads.{GraphIs};

use checker_rules::Refusal;
use edges::{Graph, Ranks};
use graph_theory::Verdict;
use version_order::Committed;

// A rank for each committed transaction and item, and a byte for each two committed transactions.
const RANKS: usize = numbers::MAX_COMMITTED * numbers::ITEMS;

const CELLS: usize = numbers::MAX_COMMITTED * numbers::MAX_COMMITTED;

// ---- the timestamp order

// Writes the timestamp order of a log that was read.
fn order_read(log: &[u8], committed: &Committed, out: &mut [u8]) -> Result<usize, Refusal>
    requires { ReadLog log.now committed.now.map.now committed.now.nodes.now (length committed.now.nodes.now) }
    ensures { OrderIs log.now out.old result out.new }
{
    Ok(order_writer::write_timestamp_order(committed, out)?)
}

// Writes the timestamp order of a log at the buffer's front, and answers the number of its bytes; codes 21 to 27 as the checker, then
// 29 with 0 where the buffer is too short, and then writes nothing.
pub fn write_order(log: &[u8], out: &mut [u8]) -> Result<usize, Refusal>
    ensures { OrderIs log.now out.old result out.new }
{
    // The working memory stands in the top function, since it is lent until the end.
    let mut map = [0u64; index::WORDS];
    let mut nodes = [0u32; numbers::MAX_COMMITTED];
    let count = history::read_history(log, &mut map, &mut nodes)?;
    let committed = Committed {
        map: &map,
        nodes: &nodes[..count],
    };
    order_read(log, &committed, out)
}

// ---- the verdict

// The verdict on the graph of a log and its order, whose ranks are at hand: its stamps are written at the buffer's front.
fn check_graph(log: &[u8], nodes: &[u32], rank: &[u16], answer: &mut [u8]) -> Verdict
    requires { (Tables nodes.now rank.now (length nodes.now)) × (4 * length nodes.now ≤ length answer.old) }
    ensures { GraphIs log.now nodes.now rank.now (length nodes.now) answer.old result answer.new }
{
    let count = nodes.len();
    let mut mat = [0u8; CELLS];
    let ranks = Ranks { ranks: rank, count };
    drawing::draw_log(log, nodes, ranks, &mut mat);
    let mut deg = [0u16; numbers::MAX_COMMITTED];
    let mut path = [0u16; numbers::MAX_COMMITTED];
    let graph = Graph {
        matrix: &mat,
        count,
    };
    graph::judge_graph(graph, nodes, &mut deg, &mut path, answer)
}

// The answer for a log that was read: 28, then 29, then the verdict.
fn check_read(
    log: &[u8],
    order: &[u8],
    committed: &Committed,
    answer: &mut [u8],
) -> Result<Verdict, Refusal>
    requires { ReadLog log.now committed.now.map.now committed.now.nodes.now (length committed.now.nodes.now) }
    ensures { CheckIs log.now order.now answer.old result answer.new }
{
    let mut rank = [0u16; RANKS];
    version_order::ranks(order, committed, &mut rank)?;
    if answer.len() < 4 * committed.nodes.len() {
        return Err(Refusal::NoRoom);
    }
    Ok(check_graph(log, committed.nodes, &rank, answer))
}

// Judges a log under a version order, for any bytes: codes 21 to 30 in the page's order. Accepted or a cycle writes the stamps at the
// buffer's front; a refusal writes nothing, and no byte past the last stamp changes.
pub fn check(log: &[u8], order: &[u8], answer: &mut [u8]) -> Result<Verdict, Refusal>
    ensures { CheckIs log.now order.now answer.old result answer.new }
{
    // The working memory stands in the top function, since it is lent until the end.
    let mut map = [0u64; index::WORDS];
    let mut nodes = [0u32; numbers::MAX_COMMITTED];
    let count = history::read_history(log, &mut map, &mut nodes)?;
    let committed = Committed {
        map: &map,
        nodes: &nodes[..count],
    };
    check_read(log, order, &committed, answer)
}

// ---- the C call

// Code times 65,536 plus number.
fn one_number(answer: Result<Verdict, Refusal>) -> u32
    requires { Small answer }
    ensures { result ≡ returned answer }
{
    match answer {
        Ok(Verdict::Accepted(stamps)) => stamps as u32,
        Ok(Verdict::Cycle(stamps)) => 30 * 65536 + stamps as u32,
        Err(refusal) => refusal.code() * 65536 + refusal.number() as u32,
    }
}

// The check as the C program on the mill's panel calls it: one number, and the buffer as `check` leaves it.
pub fn svelmings_check(log: &[u8], order: &[u8], answer: &mut [u8]) -> u32
    ensures { PanelIs log.now order.now answer.old result answer.new }
{
    one_number(check(log, order, answer))
}
