// A workload for measuring calls, the same as bench/plain.rs: a begin, a read, a write, a read and an abort in turn, over no version
// where the number of calls ends in 0, else over 1,000. Standard input has the number of calls; what is written is a sum over the
// replies, by which the two programs are compared.
#![tactic(auto)]

use log_format::Stamp;
use scheduler::State;
use scheduler_rules::{Op, Reply};
use std::io;
use std::io::Read;

// The decimal at the front of the bytes, at most nine digits.
fn decimal(text: &[u8]) -> u64 {
    let mut n: u64 = 0;
    for b in text.iter().take(9) {
        if !b.is_ascii_digit() {
            break;
        }
        n = n % 100000000 * 10 + u64::from(b - b'0');
    }
    n
}

// 1,000 versions, 64 to a transaction, all committed.
fn fill(state: &mut State, log: &mut [u8]) {
    for i in 0..1000 {
        let stamp = Stamp(i / 64 + 1);
        if i % 64 == 0 {
            state.call(Op::begin(stamp), log);
        }
        state.call(Op::write(stamp, i % 64, i), log);
        if i % 64 == 63 {
            state.call(Op::commit(stamp), log);
        }
    }
    state.call(Op::commit(Stamp(16)), log);
}

// The next number of a simple row.
fn shaken(x: u32) -> u32 {
    ((u64::from(x) * 1103515245 + 12345) % 2147483648) as u32
}

fn chosen(turn: u64, stamp: Stamp, x: u32) -> Op {
    let item = x / 64 % 64;
    match turn {
        0 => Op::begin(stamp),
        2 => Op::write(stamp, item, x),
        4 => Op::abort(stamp),
        _ => Op::read(stamp, item),
    }
}

fn folded(sum: u64, r: Reply) -> u64 {
    let said = u64::from(r.code) * 7 + u64::from(r.stamp.0) + u64::from(r.value);
    (sum % 1000000007 * 31 + said) % 1000000007
}

// The bytes used, back to a place before the log is full.
fn rewound(used: usize, base: usize) -> usize {
    if 65000 < used { base } else { used }
}

// A begin takes the next stamp.
fn turned(turn: u64, stamp: u32) -> u32 {
    if turn == 0 {
        return stamp % 4294967295 + 1;
    }
    stamp
}

fn measured(state: &mut State, n: u64, log: &mut [u8]) -> u64 {
    let base = state.core.used.0;
    let mut stamp = state.core.last.0;
    let mut sum: u64 = 0;
    let mut x: u32 = 1;
    for i in 0..n {
        stamp = turned(i % 5, stamp);
        let op = chosen(i % 5, Stamp(stamp), x);
        x = shaken(x);
        state.core.used.0 = rewound(state.core.used.0, base);
        sum = folded(sum, state.call(op, log));
    }
    sum % 1000000007 + (state.versions.count % 4096) as u64
}

fn main(rt: HostRuntime) -> io::Result<()> {
    let mut text = Vec::new(rt.alloc());
    rt.stdin().take(16).read_to_end(&mut text)?;
    let n = decimal(text.as_slice());
    let mut log = [0u8; 65536];
    let mut state = scheduler::fresh(&mut log).state;
    if n % 10 != 0 {
        fill(&mut state, &mut log);
    }
    let sum = measured(&mut state, n, &mut log);
    println!(rt; "{sum}")
}
