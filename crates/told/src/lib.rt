// What the programs of the comparison share: the buffer before a call, the hash by which they tell it afterwards, and input read.
#![tactic(auto)]

ghost use Rattle.std.specs.Prelude.{◌≤◌, length, IfOk};

use std::io;
use std::io::Read;

// Byte i becomes 7 i + 3, mod 256.
pub fn fill(buf: &mut [u8]) {
    let mut b: u8 = 3;
    for x in buf.iter_mut() {
        *x = b;
        b = b.wrapping_add(7);
    }
}

// A hash with one number more: this times 31 plus the number, mod 4294967291. It begins with 1.
pub fn hashed(h: u64, n: u32) -> u64 {
    (h % 4294967291 * 31 + u64::from(n)) % 4294967291
}

// A hash with the numbers of a row more.
pub fn hash_of<T: Copy + Into<u32>>(h: u64, row: &[T]) -> u64 {
    row.iter().fold(h, |h, &n| hashed(h, n.into()))
}

// Reads until the buffer is full or the input ends, and says how many bytes were read, which `read_exact` does not.
pub fn read_full<R: Read>(input: &mut R, buf: &mut [u8]) -> io::Result<usize>
    ensures { IfOk result (λ n. n ≤ length buf.new) }
{
    let mut done: usize = 0;
    while done < buf.len() {
        let n = input.read(&mut buf[done..])?;
        if n == 0 {
            return Ok(done);
        }
        done += n;
    }
    Ok(done)
}
