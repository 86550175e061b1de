// Puts states of any numbers to the scheduler, for the comparison with the second program. Standard input has the cases one after the
// other, each a run of numbers of four bytes, high byte first: kind, stamp, item, value, buffer length, number of settings, last begun,
// bytes used, open count, version count; then place and number of each setting. The places are those of the state's tables one after
// the other: 32 open stamps, 64 initial marks, and the 1,024 items, stamps, values and marks of the versions; those without a setting
// are 0. For each case, one line: the reply's three numbers, last begun, bytes used, open count and version count of the state after
// the call, the hash of its tables, and the hash of the buffer.
#![tactic(auto)]

ghost use Rattle.std.specs.Prelude.{◌+◌, ◌≤◌};

use decision::Core;
use log_format::{Place, Stamp};
use open_table::OpenTable;
use scheduler::State;
use scheduler_rules::{Op, Reply};
use std::io;
use std::io::{BufReader, BufWriter, Read, Write};
use version_columns::Versions;

// ---- reading

// The numbers at the front of bytes, each of four, high byte first; 0 where the bytes have no more.
fn numbers<const N: usize>(bytes: &[u8]) -> [u32; N] {
    let mut numbers = [0u32; N];
    for (n, &b) in numbers.iter_mut().zip(bytes.as_chunks::<4>().0) {
        *n = u32::from_be_bytes(b);
    }
    numbers
}

// Reads so many settings, and gives the tables that they make.
fn read_tables<R: Read>(input: &mut R, settings: u32) -> io::Result<[u32; 4192]> {
    let mut tables = [0u32; 4192];
    let mut setting = [0u8; 8];
    for _ in 0..settings {
        told::read_full(input, &mut setting)?;
        let [place, n]: [u32; 2] = numbers(&setting);
        if let Some(x) = tables.get_mut(place as usize) {
            *x = n;
        }
    }
    Ok(tables)
}

// The column that stands in the tables from a place on.
fn column<const N: usize>(tables: &[u32; 4192], from: usize) -> [u32; N]
    requires { from + N ≤ 4192 }
{
    let mut column = [0u32; N];
    column.copy_from_slice(&tables[from..from + N]);
    column
}

fn open_table(tables: &[u32; 4192], count: usize) -> OpenTable {
    let mut stamps = [Stamp(0); 32];
    for (stamp, &n) in stamps.iter_mut().zip(tables) {
        *stamp = Stamp(n);
    }
    OpenTable { stamps, count }
}

fn versions(tables: &[u32; 4192], count: usize) -> Versions {
    Versions {
        items: column(tables, 96),
        stamps: column(tables, 1120),
        values: column(tables, 2144),
        marks: column(tables, 3168),
        count,
    }
}

// ---- telling

// The hash of the tables, place after place.
fn hash_of_state(state: &State) -> u64 {
    let open = state
        .core
        .live
        .stamps
        .iter()
        .fold(1, |h, k| told::hashed(h, k.0));
    let versions = &state.versions;
    let columns: [&[u32]; 5] = [
        &state.marks,
        &versions.items,
        &versions.stamps,
        &versions.values,
        &versions.marks,
    ];
    columns
        .iter()
        .fold(open, |h, column| told::hash_of(h, column))
}

// What a call answered, and the state and the buffer that it left.
fn tell<W: Write>(out: &mut W, reply: Reply, state: &State, log: &[u8]) -> io::Result<()> {
    writeln!(
        out,
        "{} {} {} {} {} {} {} {} {}",
        reply.code,
        reply.stamp.0,
        reply.value,
        state.core.last.0,
        state.core.used.0,
        state.core.live.count,
        state.versions.count,
        hash_of_state(state),
        told::hash_of(1, log),
    )
}

// ---- the cases

// The case that ten numbers begin; its settings are still to be read. Its answer is written before the next case is read.
fn put_case<R: Read, W: Write>(
    input: &mut R,
    out: &mut W,
    front: &[u8; 40],
    log: &mut [u8],
) -> io::Result<()> {
    let [
        kind,
        stamp,
        item,
        value,
        room,
        settings,
        last,
        used,
        live,
        held,
    ]: [u32; 10] = numbers(front);
    let tables = read_tables(input, settings)?;
    let mut state = State {
        core: Core {
            last: Stamp(last),
            used: Place(used as usize),
            live: open_table(&tables, live as usize),
        },
        marks: column(&tables, 32),
        versions: versions(&tables, held as usize),
    };
    let op = Op {
        kind,
        stamp: Stamp(stamp),
        item,
        value,
    };
    if let Some(log) = log.get_mut(..room as usize) {
        told::fill(log);
        let reply = state.call(op, log);
        tell(out, reply, &state, log)?;
    }
    out.flush()
}

// A proved loop has to end, and nothing says that the input does, so its turns are as many as no run uses up.
fn main(rt: HostRuntime) -> io::Result<()> {
    let mut input = BufReader::new(rt.alloc(), rt.stdin())?;
    let mut out = BufWriter::new(rt.alloc(), rt.stdout())?;
    let mut log = [0u8; 65600];
    let mut front = [0u8; 40];
    for _ in 0..u64::MAX {
        if told::read_full(&mut input, &mut front)? < front.len() {
            break;
        }
        put_case(&mut input, &mut out, &front, &mut log)?;
    }
    out.flush()
}
