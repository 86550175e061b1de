// Writing the timestamp order of a log into a lent buffer, from its committed transactions.
#![tactic(auto)]

ghost use Rattle.std.specs.Prelude.{◌≡◌, ◌∷◌, [], ◌++◌, ◌+◌, ◌≤◌, length};
ghost use Rattle.log_format.specs.Bytes.{stamp_bytes, splice};
ghost use Rattle.history_rules.specs.WellFormed.{most_committed};
ghost use Rattle.history_rules.specs.Held.{written_in};
ghost use Rattle.index.specs.Index.{table_of};
ghost use Rattle.order_rules.specs.Fields.{bytes2, body_of};
ghost use Rattle.order_rules.specs.Timestamps.{versions_by, order_by, Wrote};
ghost use Rattle.order_writer.specs.Writing.{size_of, stamp_if, field_bytes, Placed};

use log_writer::put_bytes;
use order_rules::{NoRoom, TAG};
use version_order::Committed;

// How many items there are, as a field has them.
const ITEMS: u8 = numbers::ITEMS as u8;

// ---- how many bytes

// How many of the committed wrote the item.
fn count_versions(committed: &Committed, item: u8) -> usize
    ensures { (result ≡ length (versions_by (written_in (table_of committed.now.map.now)) committed.now.nodes.now item))
        × (result ≤ length committed.now.nodes.now) }
{
    committed
        .nodes
        .iter()
        .filter(|stamp| committed.wrote(**stamp, item))
        .count()
}

// The bytes of a field with so many stamps; an item without a version has no field.
fn field_size(versions: usize) -> usize
    requires { versions ≤ most_committed }
    ensures { (result ≡ size_of versions) × (result ≤ 1028) }
{
    if versions == 0 { 0 } else { 4 + 4 * versions }
}

// The bytes of the whole order.
fn needed(committed: &Committed) -> usize
    requires { length committed.now.nodes.now ≤ most_committed }
    ensures { result ≡ length (order_by (written_in (table_of committed.now.map.now)) committed.now.nodes.now) }
{
    let mut size: usize = 0;
    // By hand, and not by sum: the invariant ties the sum so far to the order's length.
    for item in 0..ITEMS {
        size += field_size(count_versions(committed, item));
    }
    size
}

// ---- a field

// A field's tag, length and item.
fn put_front(out: &mut [u8], at: usize, item: u8, versions: usize)
    requires { (at + 4 ≤ length out.old) × (versions ≤ most_committed) }
    ensures { out.new ≡ splice out.old at (32 ∷ bytes2 (body_of versions) ++ (item ∷ [])) }
{
    let [high, low] = (1 + 4 * versions as u16).to_be_bytes();
    put_bytes(out, at, &[TAG, high, low, item]);
}

// The stamp's four bytes, if it wrote the item; the place after them.
fn put_if(committed: &Committed, stamp: u32, item: u8, out: &mut [u8], at: usize) -> usize
    requires { at + length (stamp_if (written_in (table_of committed.now.map.now)) item stamp) ≤ length out.old }
    ensures { Placed out.old at (stamp_if (written_in (table_of committed.now.map.now)) item stamp) result out.new }
{
    if committed.wrote(stamp, item) {
        return put_bytes(out, at, &stamp.to_be_bytes());
    }
    at
}

// The stamps of those that wrote the item, rising; the place after them.
fn put_stamps(committed: &Committed, item: u8, out: &mut [u8], at: usize) -> usize
    requires { at + length (stamp_bytes (versions_by (written_in (table_of committed.now.map.now)) committed.now.nodes.now item)) ≤ length out.old }
    ensures { Placed out.old at (stamp_bytes
        (versions_by (written_in (table_of committed.now.map.now)) committed.now.nodes.now item)) result out.new }
{
    let mut next = at;
    for stamp in committed.nodes {
        next = put_if(committed, *stamp, item, out, next);
    }
    next
}

// The item's field, if it has a version; the place after it.
fn put_field(committed: &Committed, item: u8, out: &mut [u8], at: usize) -> usize
    requires { (length committed.now.nodes.now ≤ most_committed)
        × (at + length (field_bytes item (versions_by (written_in (table_of committed.now.map.now)) committed.now.nodes.now item)) ≤ length out.old) }
    ensures { Placed out.old at (field_bytes item
        (versions_by (written_in (table_of committed.now.map.now)) committed.now.nodes.now item)) result out.new }
{
    let versions = count_versions(committed, item);
    if versions == 0 {
        return at;
    }
    put_front(out, at, item, versions);
    put_stamps(committed, item, out, at + 4)
}

// ---- the whole order

// Writes the timestamp order at the buffer's front and answers its length; code 29 where the buffer is too short, and then nothing is written. No later
// byte changes.
pub fn write_timestamp_order(committed: &Committed, out: &mut [u8]) -> Result<usize, NoRoom>
    requires { length committed.now.nodes.now ≤ most_committed }
    ensures { Wrote out.old (order_by (written_in (table_of committed.now.map.now)) committed.now.nodes.now) result out.new }
{
    let size = needed(committed);
    if out.len() < size {
        return Err(NoRoom);
    }
    let mut at: usize = 0;
    for item in 0..ITEMS {
        at = put_field(committed, item, out, at);
    }
    Ok(size)
}
