// The scheduler at its limits: 32 and 33 open, 1,024 and 1,025 versions and room after an abort, a full log refused by each kind of
// record, a late write with 7 and with 8 bytes left, item 63 and 64, buffers of 0 to 4 bytes. The expected output is written by hand
// from document 01.
#![tactic(auto)]

use log_format::Stamp;
use scheduler::Called;
use scheduler_rules::Op;
use std::io;

// ---- operations

fn begin(stamp: u32) -> Op {
    Op::begin(Stamp(stamp))
}

fn read(stamp: u32, item: u32) -> Op {
    Op::read(Stamp(stamp), item)
}

fn write(stamp: u32, item: u32, value: u32) -> Op {
    Op::write(Stamp(stamp), item, value)
}

fn commit(stamp: u32) -> Op {
    Op::commit(Stamp(stamp))
}

fn abort(stamp: u32) -> Op {
    Op::abort(Stamp(stamp))
}

// ---- calls

// One operation on a copy of the state that the call before left.
fn next(o: Called, op: Op, log: &mut [u8]) -> Called {
    let mut state = o.state;
    let reply = state.call(op, log);
    Called { state, reply }
}

// The reply and the bytes used, under a name.
fn show(rt: &impl Print, name: &str, o: Called) -> io::Result<()> {
    let Called { state, reply } = o;
    println!(rt;
        "{name} {} {} {} used {}",
        reply.code, reply.stamp.0, reply.value, state.core.used.0,
    )
}

// Begins of the stamps from 1 to n.
fn begins(first: Called, n: u32, log: &mut [u8]) -> Called {
    let mut o = first;
    for k in 1..=n {
        o = next(o, begin(k), log);
    }
    o
}

// ---- the cases

fn open_limit(rt: &impl Print) -> io::Result<()> {
    let mut log = [0u8; 4096];
    let o = begins(scheduler::fresh(&mut log), 32, &mut log);
    show(rt, "begin 32:", o)?;
    let p = next(o, begin(33), &mut log);
    show(rt, "begin 33:", p)?;
    let q = next(p, commit(7), &mut log);
    show(rt, "commit 7:", q)?;
    let r = next(q, begin(33), &mut log);
    show(rt, "begin 33:", r)
}

// A write of each item by a stamp.
fn writes(first: Called, k: u32, log: &mut [u8]) -> Called {
    let mut o = first;
    for x in 0..64 {
        o = next(o, write(k, x, x), log);
    }
    o
}

// Writes of each item by the stamps from 1 to 16: 1,024 versions.
fn all_writes(first: Called, log: &mut [u8]) -> Called {
    let mut o = first;
    for k in 1..=16 {
        o = writes(o, k, log);
    }
    o
}

fn version_limit(rt: &impl Print) -> io::Result<()> {
    let mut log = [0u8; 65536];
    let o = all_writes(begins(scheduler::fresh(&mut log), 17, &mut log), &mut log);
    show(rt, "version 1024:", o)?;
    let p = next(o, write(17, 0, 5), &mut log);
    show(rt, "version 1025:", p)?;
    let q = next(p, write(16, 0, 5), &mut log);
    show(rt, "written already:", q)?;
    let r = next(q, abort(16), &mut log);
    show(rt, "abort 16:", r)?;
    let s = next(r, write(17, 0, 5), &mut log);
    show(rt, "room again:", s)
}

fn full_log(rt: &impl Print) -> io::Result<()> {
    let mut log = [0u8; 34];
    let o = begins(scheduler::fresh(&mut log), 2, &mut log);
    let p = next(o, write(1, 0, 5), &mut log);
    show(rt, "write:", p)?;
    show(rt, "begin, 4 bytes left:", next(p, begin(3), &mut log))?;
    show(rt, "read, 4 bytes left:", next(p, read(2, 1), &mut log))?;
    show(
        rt,
        "write, 4 bytes left:",
        next(p, write(2, 1, 7), &mut log),
    )?;
    show(rt, "commit, 4 bytes left:", next(p, commit(1), &mut log))?;
    show(rt, "abort, 4 bytes left:", next(p, abort(1), &mut log))
}

// 2 has read the version beneath a write by 1: it is late.
fn late(rt: &impl Print, log: &mut [u8]) -> io::Result<()> {
    let o = begins(scheduler::fresh(log), 2, log);
    let p = next(o, read(2, 5), log);
    let q = next(p, write(1, 5, 9), log);
    show(rt, "late:", q)?;
    show(rt, "commit 1:", next(q, commit(1), log))
}

fn items(rt: &impl Print) -> io::Result<()> {
    let mut log = [0u8; 4096];
    let o = begins(scheduler::fresh(&mut log), 1, &mut log);
    show(rt, "item 63:", next(o, read(1, 63), &mut log))?;
    show(rt, "item 64:", next(o, read(1, 64), &mut log))?;
    show(
        rt,
        "kind 6:",
        next(
            o,
            Op {
                kind: 6,
                ..begin(1)
            },
            &mut log,
        ),
    )?;
    show(
        rt,
        "begin 4294967295:",
        next(o, begin(4294967295), &mut log),
    )
}

fn short_buffer(rt: &impl Print) -> io::Result<()> {
    let mut none = [0u8; 0];
    let o = scheduler::fresh(&mut none);
    show(rt, "fresh in 0:", o)?;
    let mut three = [7u8; 3];
    let p = scheduler::fresh(&mut three);
    show(rt, "fresh in 3:", p)?;
    show(rt, "then begin:", next(p, begin(1), &mut three))?;
    let mut four = [7u8; 4];
    let q = scheduler::fresh(&mut four);
    show(rt, "fresh in 4:", q)?;
    show(rt, "then begin:", next(q, begin(1), &mut four))?;
    show(rt, "over 3 bytes:", next(q, begin(1), &mut three))
}

fn main(rt: HostRuntime) -> io::Result<()> {
    open_limit(&rt)?;
    version_limit(&rt)?;
    full_log(&rt)?;
    let mut tight = [0u8; 41];
    late(&rt, &mut tight)?;
    let mut enough = [0u8; 42];
    late(&rt, &mut enough)?;
    items(&rt)?;
    short_buffer(&rt)
}
