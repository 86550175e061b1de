// All reads of a log drawn: one walk over its fields leaves the edges between its committed transactions in a matrix of bytes that the caller lends. `nodes`
// has their stamps, rising; `ranks` the ranks of their versions.
#![tactic(auto)]

ghost use Rattle.std.specs.Prelude.{◌≤◌, length};
ghost use Rattle.log_format.specs.Events.{event_of};
ghost use Rattle.edges.specs.Matrix.{matrix_size};
ghost use Rattle.drawing.specs.Drawing.{Tables, DrewEvent, Drawable, DrewAll};

use edges::Ranks;
use log_format::{Place, Record};
use numbers::MAX_ITEM;

// Draws the edges of a record: those of a read by a committed transaction; none for any other.
fn draw_record(mat: &mut [u8], nodes: &[u32], ranks: Ranks, r: Record)
    requires tables { Tables nodes.now ranks.ranks.now ranks.count }
    requires matrix_fits { matrix_size ≤ length mat.old }
    ensures { DrewEvent nodes.now ranks.entry.ranks.now ranks.entry.count (event_of r) mat.old mat.new }
{
    let Record::Read {
        stamp,
        item,
        version,
        ..
    } = r
    else {
        return;
    };
    let nodes = &nodes[..ranks.count];
    let Some(reader) = sorted::find(nodes, stamp.0) else {
        return;
    };
    if MAX_ITEM < item {
        return;
    }
    let source = sorted::find(nodes, version.0);
    edges::draw_read(mat, ranks, reader, source, usize::from(item));
}

// Draws all reads of a log into a matrix of zeros. If the log passes, and the nodes and ranks are those of it and a version order, the matrix then has its
// edges, and no others.
pub fn draw_log(log: &[u8], nodes: &[u32], ranks: Ranks, mat: &mut [u8])
    requires { Drawable nodes.now ranks.ranks.now ranks.count mat.old }
    ensures { DrewAll log.now nodes.now ranks.entry.ranks.now ranks.entry.count mat.new }
{
    let mut at = Place::FIRST;
    while let Ok(Some((record, next))) = log_reader::decode_at(log, at) {
        draw_record(mat, nodes, ranks, record);
        at = next;
    }
}
