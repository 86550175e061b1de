// Puts logs to the order call, for the comparison with the second program. Standard input has the cases one after the other: the log's
// length and the buffer's, four bytes each, high byte first, and the log's bytes. For each, one line: code, number and the hash of the
// buffer that the call leaves; before it, byte i of the buffer is 7 i + 3, mod 256.
#![tactic(auto)]

use std::io;
use std::io::{BufReader, BufWriter, Read, Write};

fn put<W: Write>(to: &mut W, log: &[u8], out: &mut [u8]) -> io::Result<()> {
    told::fill(out);
    let (code, number) = match checker::write_order(log, out) {
        Ok(bytes) => (0, bytes),
        Err(refusal) => (refusal.code(), refusal.number()),
    };
    writeln!(to, "{code} {number} {}", told::hash_of(1, out))?;
    to.flush()
}

// The next number of the input, or none at its end.
fn next_number<R: Read>(input: &mut R) -> io::Result<Option<usize>> {
    let mut bytes = [0u8; 4];
    let read = told::read_full(input, &mut bytes)?;
    Ok((read == bytes.len()).then_some(u32::from_be_bytes(bytes) as usize))
}

// A proved loop has to end, and nothing says that the input does, so its turns are as many as no run uses up.
fn main(rt: HostRuntime) -> io::Result<()> {
    let mut input = BufReader::new(rt.alloc(), rt.stdin())?;
    let mut to = BufWriter::new(rt.alloc(), rt.stdout())?;
    let mut log = [0u8; 65600];
    let mut out = [0u8; 65600];
    for _ in 0..u64::MAX {
        // One after the other: where the input ends at the first, it is not asked again.
        let Some(n) = next_number(&mut input)? else {
            break;
        };
        let Some(room) = next_number(&mut input)? else {
            break;
        };
        let Some(log) = log.get_mut(..n) else {
            continue;
        };
        told::read_full(&mut input, log)?;
        if let Some(out) = out.get_mut(..room) {
            put(&mut to, log, out)?;
        }
    }
    to.flush()
}
