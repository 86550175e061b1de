// Judging a version order, code 28, over the map that holds a log's events and the committed stamps, rising: one walk over the order's bytes, which
// leaves each version's rank.
#![tactic(auto)]

ghost use Rattle.std.specs.Prelude.{◌≡◌, not, ℕ, ◌+◌, ◌-◌, ◌*◌, ◌≤◌, ◌<◌, length, get_or};
ghost use Rattle.numbers.specs.Numbers.{items};
ghost use Rattle.lists.specs.Member.{Rising};
ghost use Rattle.history_rules.specs.WellFormed.{most_item};
ghost use Rattle.history_rules.specs.Faults.{differ};
ghost use Rattle.history_rules.specs.Held.{written_in};
ghost use Rattle.index.specs.Index.{table_of, Table};
ghost use Rattle.order_rules.specs.Reading.{found_at, bodied, stamps_at};
ghost use Rattle.order_rules.specs.Right.{some_below};
ghost use Rattle.version_order.specs.Judging.{Rising-prop, passes, Clear, gap_at, Noted, FieldRanked, Ranked};

use log_format::Stamp;
use log_reader::{be32, body_len};
use numbers::MAX_ITEM;
use order_rules::{BadOrder, Head, TAG};
use transactions::Transactions;

// ---- the bytes

// How a field with a body of so many bytes begins, or it is no field.
fn body_at(order: &[u8], at: usize, body: usize) -> Result<Option<Head>, BadOrder>
    requires { (at < length order.now) × (body ≤ length order.now - (at + 3)) }
    ensures { result ≡ bodied order.now at body }
{
    if body < 5 || body % 4 != 1 {
        return Err(BadOrder);
    }
    Ok(Some(Head {
        item: order[at + 3],
        stamps: body / 4,
    }))
}

// What stands at a place of an order: how a field begins, or nothing any more.
#[tactic(auto, unfolding(order_rules::specs::Reading::found_at))]
fn found_at(order: &[u8], at: usize) -> Result<Option<Head>, BadOrder>
    ensures { result ≡ found_at order.now at }
{
    if order.len() <= at {
        return Ok(None);
    }
    if order[at] != TAG {
        return Err(BadOrder);
    }
    let body = body_len(order, at).ok_or(BadOrder)?;
    body_at(order, at, body)
}

// ---- what the committed wrote

// Whether the map says that the transaction wrote the item.
pub fn wrote(map: &[u64], stamp: u32, item: u8) -> bool
    requires { Table map.now }
    ensures { result ≡ differ (written_in (table_of map.now) stamp item) 0 }
{
    let noted = Transactions { map };
    noted.written(Stamp(stamp), item).is_some()
}

// The committed transactions of a log: the map that says what each wrote, and their stamps.
#[derive(Clone, Copy)]
pub struct Committed<'a> {
    pub map: &'a [u64],
    pub nodes: &'a [u32],
    ghost table: { Table map.now },
    ghost rising: { Rising 0 nodes.now } by { Rising-prop 0 nodes.now },
}

impl Committed<'_> {
    // The same, of what the committed are told by.
    pub fn wrote(&self, stamp: u32, item: u8) -> bool
        ensures { result ≡ differ (written_in (table_of self.now.map.now) stamp item) 0 }
    {
        wrote(self.map, stamp, item)
    }
}

// ---- the ranks

// Notes the stamp as the item's version with this rank. Refused, and nothing changes, where it is no committed version of the item or has a rank.
// `near` has the node of the stamp before it, from which its own is looked for.
fn note(
    committed: &Committed,
    item: u8,
    stamp: u32,
    place: u16,
    near: &mut usize,
    rank: &mut [u16],
) -> Result<(), BadOrder>
    requires { (item ≤ most_item) × (length committed.now.nodes.now * items ≤ length rank.old) }
    ensures { Noted (written_in (table_of committed.now.map.now)) committed.now.nodes.now item stamp place rank.old (passes result)
        rank.new }
{
    let Some(node) = sorted::find_near(committed.nodes, *near, stamp) else {
        return Err(BadOrder);
    };
    *near = node;
    if !committed.wrote(stamp, item) {
        return Err(BadOrder);
    }
    let cell = node * numbers::ITEMS + usize::from(item);
    if rank[cell] != 0 {
        return Err(BadOrder);
    }
    rank[cell] = place;
    Ok(())
}

// Notes the stamps of the field at a place as its item's versions, oldest first. Refused unless each is a committed version of the item and stands once;
// if not, their ranks stand in the item's cells. Other items' cells never change.
fn note_all(
    order: &[u8],
    at: usize,
    head: Head,
    committed: &Committed,
    rank: &mut [u16],
) -> Result<(), BadOrder>
    requires { (at + 4 + 4 * head.stamps ≤ length order.now) × (head.stamps < 16384)
        × (head.item ≤ most_item) × (length committed.now.nodes.now * items ≤ length rank.old) × Clear committed.now.nodes.now head.item rank.old }
    ensures { FieldRanked (written_in (table_of committed.now.map.now)) committed.now.nodes.now head.item
        (stamps_at order.now (at + 4) head.stamps) rank.old (passes result) rank.new }
{
    let mut near = 0;
    // By index: the i-th stamp, as the clause says it.
    for i in 0..head.stamps {
        let stamp = be32(order, at + 4 + 4 * i);
        note(committed, head.item, stamp, (i + 1) as u16, &mut near, rank)?;
    }
    Ok(())
}

// ---- none left out

// Whether the node and item of a cell have a committed version without a rank.
fn is_gap(committed: &Committed, rank: &[u16], cell: usize) -> bool
    requires { (cell < length committed.now.nodes.now * items) × (cell < length rank.now) }
    ensures { result ≡ gap_at (written_in (table_of committed.now.map.now)) committed.now.nodes.now rank.now cell }
{
    let stamp = committed.nodes[cell / numbers::ITEMS];
    rank[cell] == 0 && committed.wrote(stamp, (cell % numbers::ITEMS) as u8)
}

// Whether each committed version has a rank.
fn all_ranked(committed: &Committed, rank: &[u16]) -> bool
    requires { length committed.now.nodes.now * items ≤ length rank.now }
    ensures { result ≡ not (some_below (gap_at (written_in (table_of committed.now.map.now)) committed.now.nodes.now rank.now)
        (length committed.now.nodes.now * items)) }
{
    !(0..committed.nodes.len() * numbers::ITEMS).any(|cell| is_gap(committed, rank, cell))
}

// ---- the whole order

// Judges bytes as a version order, code 28 where they are no right one. If they are, each cell has the rank of its node's version of its item, 0 where
// there is none.
pub fn ranks(order: &[u8], committed: &Committed, rank: &mut [u16]) -> Result<(), BadOrder>
    requires { (length committed.now.nodes.now * items ≤ length rank.old)
        × ((p : ℕ) → p < length committed.now.nodes.now * items → get_or rank.old p 0 ≡ 0) }
    ensures { Ranked (written_in (table_of committed.now.map.now)) committed.now.nodes.now order.now (passes result) rank.new }
{
    let mut at: usize = 0;
    let mut least: u8 = 0;
    while let Some(head) = found_at(order, at)? {
        if head.item < least || MAX_ITEM < head.item {
            return Err(BadOrder);
        }
        note_all(order, at, head, committed, rank)?;
        least = head.item + 1;
        at += 4 + 4 * head.stamps;
    }
    if all_ranked(committed, rank) {
        Ok(())
    } else {
        Err(BadOrder)
    }
}
