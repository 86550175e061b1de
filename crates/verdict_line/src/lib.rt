// The line that tells the verdict on a log and a version order.
#![tactic(auto)]

ghost use Rattle.std.specs.Prelude.{◌≡◌, ◌+◌, ◌*◌, ◌≤◌, length};
ghost use Rattle.line_format.specs.Decimals.{digits};
ghost use Rattle.reply_lines.specs.Written.{Put, Written};
ghost use Rattle.order_rules.specs.Reading.{stamps_at};
ghost use Rattle.checker_rules.specs.Answers.{answer_for};
ghost use Rattle.verdict_format.specs.Lines.{spaced, each_spaced, listed, refusal, verdict_line};
ghost use Rattle.verdict_line.specs.Told.{line_of, Few};

use checker_rules::Refusal;
use graph_theory::Verdict;
use reply_lines::Line;

// Writes a number after a space where it fits.
fn put_spaced(line: &mut Line, n: u64)
    requires { line.old.len + 1 + length (digits n) ≤ length line.old.out.now }
    ensures same_buffer { line.new.out.ghost_name ≡ line.old.out.ghost_name }
    ensures same_room { length line.new.out.now ≡ length line.old.out.now }
    ensures put { Put line.old.out.now line.old.len (spaced n) line.new.len line.new.out.now }
{
    line.word(b" ");
    line.number(n);
}

// Writes the first n stamps of an answer, each after a space, where they fit.
fn put_stamps(line: &mut Line, answer: &[u8], n: usize)
    requires { (4 * n ≤ length answer.now) × (line.old.len + 11 * n ≤ length line.old.out.now) }
    ensures same_buffer { line.new.out.ghost_name ≡ line.old.out.ghost_name }
    ensures same_room { length line.new.out.now ≡ length line.old.out.now }
    ensures put { Put line.old.out.now line.old.len (each_spaced (stamps_at answer.now 0 n)) line.new.len line.new.out.now }
{
    // By index: the i-th stamp, as the clause says it.
    for i in 0..n {
        put_spaced(line, u64::from(log_reader::be32(answer, 4 * i)));
    }
}

// Writes a word, the first n stamps of an answer and the newline from the front on, where they fit.
fn put_listed(out: &mut [u8], word: &[u8], answer: &[u8], n: usize) -> usize
    requires { (4 * n ≤ length answer.now) × (length word.now + 11 * n + 1 ≤ length out.old) }
    ensures { Put out.old 0 (listed word.now (stamps_at answer.now 0 n)) result out.new }
{
    let mut line = Line { out, len: 0 };
    line.word(word);
    put_stamps(&mut line, answer, n);
    line.word(b"\n");
    line.len
}

// Writes a refusal's code and number from the front on, where they fit.
fn put_refusal(out: &mut [u8], code: u32, number: usize) -> usize
    requires { 40 ≤ length out.old }
    ensures { Put out.old 0 (refusal code number) result out.new }
{
    let mut line = Line { out, len: 0 };
    line.word(b"refused");
    put_spaced(&mut line, u64::from(code));
    put_spaced(&mut line, number as u64);
    line.word(b"\n");
    line.len
}

// Writes the line of a verdict whose stamps stand in an answer, where any such line fits.
fn put_verdict(out: &mut [u8], told: Result<Verdict, Refusal>, answer: &[u8]) -> usize
    requires { (Few told) × (1024 ≤ length answer.now) × (2825 ≤ length out.old) }
    ensures { Put out.old 0 (line_of told answer.now) result out.new }
{
    match told {
        Ok(Verdict::Accepted(n)) => put_listed(out, b"accepted", answer, n),
        Ok(Verdict::Cycle(n)) => put_listed(out, b"cycle", answer, n),
        Err(refusal) => put_refusal(out, refusal.code(), refusal.number()),
    }
}

// Judges a log under a version order, for any bytes, and writes the line that tells the verdict, with its newline, at the buffer's
// front. Answers its length; no later byte changes.
pub fn write_verdict(log: &[u8], order: &[u8], out: &mut [u8; 2825]) -> usize
    ensures { Written out.old (verdict_line (answer_for log.now order.now 1024)) result out.new }
{
    let mut answer = [0u8; 1024];
    let told = checker::check(log, order, &mut answer);
    put_verdict(out, told, &answer)
}
