// The checker at its limits: logs of 65,536 and 65,537 bytes, 256 and 257 committed, an answer one byte too short, a cycle of 200
// transactions, dense graphs of 256. The expected output is written by hand from document 01.
#![tactic(auto)]

ghost use Rattle.std.specs.Prelude.{◌≡◌, ◌≤◌, length};

use log_format::{Place, Record, Stamp};
use std::io;

// The verdict on a log and an order, under a name.
fn judged(rt: &impl Print, name: &str, log: &[u8], order: &[u8]) -> io::Result<()> {
    let mut line = [0u8; 2825];
    let n = verdict_line::write_verdict(log, order, &mut line);
    print!(rt; "{name}")?;
    rt.write_all(&line[..n])
}

// ---- logs

// A log in a buffer, and how many bytes it has.
#[derive(Clone, Copy)]
struct Log<const N: usize> {
    bytes: [u8; N],
    used: usize,
}

impl<const N: usize> Log<N> {
    // The header, and begins of the stamps from 1 to n.
    fn begun(n: u32) -> Self {
        let mut bytes = [0u8; N];
        let used = log_writer::write_header(&mut bytes).map_or(0, |next| next.0);
        let mut log = Log { bytes, used };
        for k in 1..=n {
            log.add(Record::Begin(Stamp(k)));
        }
        log
    }

    // One record more, where it fits.
    fn add(&mut self, record: Record) {
        if let Ok(next) = log_writer::append(&mut self.bytes, Place(self.used), record) {
            self.used = next.0;
        }
    }

    // A read of what the stamp j wrote.
    fn read(&mut self, k: u32, item: u8, j: u32) {
        self.add(Record::Read {
            stamp: Stamp(k),
            item,
            version: Stamp(j),
            value: j,
        });
    }

    // A write of the writer's own stamp.
    fn write(&mut self, k: u32, item: u8) {
        self.add(Record::Write {
            stamp: Stamp(k),
            item,
            value: k,
        });
    }

    // Commits of the stamps from 1 to n.
    fn commit(&mut self, n: u32) {
        for k in 1..=n {
            self.add(Record::Commit(Stamp(k)));
        }
    }

    // The bytes that it has.
    fn written(&self) -> &[u8] {
        self.bytes.get(..self.used).unwrap_or(&self.bytes)
    }
}

// ---- version orders

// Fills a field of a version order: an item, then stamps, the first one and each further one a step below.
fn fill_field(field: &mut [u8], item: u8, first: u32, step: u32)
    requires { length field.old ≤ 4096 }
{
    if let Some((head, stamps)) = field.split_first_chunk_mut::<4>() {
        let [high, low] = (1 + stamps.len() as u16).to_be_bytes();
        *head = [32, high, low, item];
        let mut stamp = first;
        for bytes in stamps.as_chunks_mut::<4>().0 {
            *bytes = stamp.to_be_bytes();
            stamp = stamp.saturating_sub(step);
        }
    }
}

// Fills a version order of two fields: of item 0 the even stamps from 200 down, of item 1 the stamp 1.
fn fill_two(order: &mut [u8])
    requires { length order.old ≡ 412 }
{
    let (evens, one) = order.split_at_mut(404);
    fill_field(evens, 0, 200, 2);
    fill_field(one, 1, 1, 1);
}

// ---- the cases

// A header and then zeros: a byte over the limit is seen first, then the unknown tag 0.
fn long_logs(rt: &impl Print) -> io::Result<()> {
    let over: Log<65537> = Log::begun(0);
    judged(rt, "65537 bytes: ", &over.bytes, b"")?;
    let most: Log<65536> = Log::begun(0);
    judged(rt, "65536 bytes: ", &most.bytes, b"")
}

// n transactions that begin and commit.
fn committed(n: u32) -> Log<4096> {
    let mut log = Log::begun(n);
    log.commit(n);
    log
}

fn many_committed(rt: &impl Print) -> io::Result<()> {
    let few = committed(256);
    judged(rt, "256 committed: ", few.written(), b"")?;
    short_answer(rt, few.written())?;
    let many = committed(257);
    judged(rt, "257 committed: ", many.written(), b"")
}

// A log under no order, with an answer that is a byte too short for 256 stamps.
fn short_answer(rt: &impl Print, log: &[u8]) -> io::Result<()> {
    let mut answer = [0u8; 1023];
    let r = checker::svelmings_check(log, b"", &mut answer);
    println!(rt; "256 committed, 1023 bytes: {r}")
}

// 200 before 199 before 198, down to 1, and 1 before 200, which reads what 1 wrote.
fn cycle_of_200(rt: &impl Print) -> io::Result<()> {
    let mut log: Log<8192> = Log::begun(200);
    for k in 1..101 {
        log.write(2 * k, 0);
        log.read(2 * k - 1, 0, 2 * k);
    }
    log.write(1, 1);
    log.read(200, 1, 1);
    log.commit(200);
    let mut order = [0u8; 412];
    fill_two(&mut order);
    judged(rt, "cycle of 200: ", log.written(), &order)
}

// Each of 256 transactions reads item 0 from the one before, and writes it: under the order of their stamps an edge leads from each to
// each later one. Under the falling order the first reads from version 0, so an edge leads from 1 to all, and from 3 to 1.
fn dense(rt: &impl Print) -> io::Result<()> {
    let mut log: Log<16384> = Log::begun(256);
    for k in 1..257 {
        log.read(k, 0, k - 1);
        log.write(k, 0);
    }
    log.commit(256);
    let mut order = [0u8; 1028];
    fill_field(&mut order, 0, 256, 1);
    judged(rt, "dense, falling order: ", log.written(), &order)?;
    // The verdict tells whether the order was written.
    let _ = checker::write_order(log.written(), &mut order);
    judged(rt, "dense, rising order: ", log.written(), &order)
}

fn main(rt: HostRuntime) -> io::Result<()> {
    long_logs(&rt)?;
    many_committed(&rt)?;
    cycle_of_200(&rt)?;
    dense(&rt)
}
