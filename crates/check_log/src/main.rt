// Judges the log and the version order in the files that its two arguments name, and prints one line: `accepted` or `cycle` and the
// stamps, each after a space, or `refused`, code and number. A file that is not named, not opened or not read counts as empty.
#![tactic(auto)]

ghost use Rattle.std.specs.Prelude.{◌≤◌, length};

use std::io::Read;
use std::rt::Files;
use std::{env, fs, io};

// Reads until the buffer is full or the input ends, and says how many bytes were read, which `read_exact` does not: input that cannot
// be read on has ended.
fn read_on<R: Read>(input: &mut R, buf: &mut [u8]) -> usize
    ensures { result ≤ length buf.new }
{
    let mut done: usize = 0;
    while done < buf.len() {
        let n = input.read(&mut buf[done..]).unwrap_or(0);
        if n == 0 {
            return done;
        }
        done += n;
    }
    done
}

// The bytes of a file that fit the buffer; none where no file is named, or it cannot be opened.
fn read_file<'a, R: Files>(rt: &R, path: Option<&String>, buf: &'a mut [u8]) -> &'a [u8]
    ensures { length result.now ≤ length buf.old }
{
    match path.map(|path| fs::open(rt, path)) {
        Some(Ok(mut file)) => {
            let n = read_on(&mut file, buf);
            &buf[..n]
        }
        _ => &[],
    }
}

// One byte more than a log may have, so that a longer file is seen to be longer; and one more than any right version order has: 64
// fields of 4 bytes and 256 stamps each.
fn main(rt: HostRuntime) -> io::Result<()> {
    let mut log = [0u8; 65537];
    let mut order = [0u8; 65793];
    let mut line = [0u8; 2825];
    let args: Vec<String> = env::args(&rt)?.collect(rt.alloc())?;
    let log = read_file(&rt, args.get(1), &mut log);
    let order = read_file(&rt, args.get(2), &mut order);
    let n = verdict_line::write_verdict(log, order, &mut line);
    rt.write_all(&line[..n])
}
