// Runs operation lines from standard input over a log of 65,536 bytes, and writes the replies, then `log` and the bytes used, to
// standard output. With two arguments it also writes the log to the file that the first one names, and, where the log has one, its
// timestamp order to that of the second.
#![tactic(auto)]

use std::alloc::Global;
use std::io::{BufRead, BufReader, BufWriter, Read, Write};
use std::rt::Files;
use std::{env, fs, io};

// The next byte of the input, or none at its end. What was answered is written before more is read, so that who types the lines sees
// each reply at once.
fn next_byte<R: Read, W: Write>(input: &mut BufReader<R>, out: &mut W) -> io::Result<Option<u8>> {
    if input.buffer().is_empty() {
        out.flush()?;
    }
    let next = input.fill_buf()?.first().copied();
    if next.is_some() {
        input.consume(1);
    }
    Ok(next)
}

// The next line, without its newline, or none at the input's end; a last line may lack its newline, but then has a byte. Of a line over
// 63 bytes the first 64 are kept, which no operation is. A proved loop has to end, and nothing says that the input does, so its turns
// are as many as no run uses up.
fn next_line<'a, R: Read, W: Write>(
    input: &mut BufReader<R>,
    out: &mut W,
    line: &'a mut Vec<u8>,
) -> io::Result<Option<&'a [u8]>> {
    line.clear();
    for _ in 0..u64::MAX {
        match next_byte(input, out)? {
            None => break,
            Some(b'\n') => return Ok(Some(line.as_slice())),
            Some(b) if line.len() < 64 => line.push(b)?,
            Some(_) => {}
        }
    }
    Ok((!line.is_empty()).then_some(line.as_slice()))
}

// Answers each line in turn; the bytes used at the end.
fn serve<R: Read, W: Write>(
    alloc: Global,
    input: &mut BufReader<R>,
    out: &mut W,
    log: &mut [u8],
) -> io::Result<usize> {
    let mut state = scheduler::fresh(log).state;
    let mut line = Vec::with_capacity(alloc, 64)?;
    let mut said = [0u8; 40];
    for _ in 0..u64::MAX {
        let Some(line) = next_line(input, out, &mut line)? else {
            break;
        };
        let Some(op) = op_lines::parse(line) else {
            let n = reply_lines::write_bad(&mut said);
            out.write_all(&said[..n])?;
            continue;
        };
        let reply = state.call(op, log);
        let n = reply_lines::write_reply(op, reply, &mut said);
        out.write_all(&said[..n])?;
    }
    Ok(state.core.used.0)
}

// Says why a file cannot be opened: the error's words without its number.
fn say_why<R: Eprint + AllocGlobal>(rt: &R, path: &str, why: io::Error) -> io::Result<()> {
    let said = format!(in rt.alloc(); "{why}")?;
    match said.split_once(" (os error ") {
        Some((words, _)) => eprintln!(rt; "{path}: {words}"),
        None => eprintln!(rt; "{path}: {said}"),
    }
}

// Writes bytes to a file; says why the file cannot be opened.
fn write_file<R: Files + Eprint + AllocGlobal>(rt: &R, path: &str, bytes: &[u8]) -> io::Result<()> {
    match fs::create(rt, path) {
        Ok(mut file) => file.write_all(bytes),
        Err(why) => say_why(rt, path, why),
    }
}

// Writes a log's timestamp order to a file, where the log has one.
fn write_order<R: Files + Eprint + AllocGlobal>(rt: &R, path: &str, log: &[u8]) -> io::Result<()> {
    let mut order = [0u8; 65792];
    if let Ok(n) = checker::write_order(log, &mut order) {
        if let Some(order) = order.get(..n) {
            write_file(rt, path, order)?;
        }
    }
    Ok(())
}

fn main(rt: HostRuntime) -> io::Result<()> {
    let mut log = [0u8; 65536];
    let mut input = BufReader::with_capacity(rt.alloc(), 4096, rt.stdin())?;
    let mut out = BufWriter::new(rt.alloc(), rt.stdout())?;
    let used = serve(rt.alloc(), &mut input, &mut out, &mut log)?;
    let mut last = [0u8; 40];
    let n = reply_lines::write_log_line(used, &mut last);
    out.write_all(&last[..n])?;
    out.flush()?;
    let args: Vec<String> = env::args(&rt)?.collect(rt.alloc())?;
    if let ([_, path, order_path], Some(log)) = (args.as_slice(), log.get(..used)) {
        write_file(&rt, path, log)?;
        write_order(&rt, order_path, log)?;
    }
    Ok(())
}
