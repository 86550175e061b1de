// Reading operation lines: what a line of bytes asks.
#![tactic(auto)]

ghost use Rattle.std.specs.Prelude.{◌≡◌, ℕ, option_map, ◌≤◌, true, length, drop, SomeIff};
ghost use Rattle.scheduler_rules.specs.Run.{read, write};
ghost use Rattle.line_format.specs.Decimals.{more_digits, decimal_at};
ghost use Rattle.line_format.specs.Lines.{starts, spaced_at, ended, stamp_op, one_number, two_numbers, three_numbers, parse_line};

use line_format::LONGEST;
use log_format::Stamp;
use scheduler_rules::Op;

// ---- decimals

// The number that a first digit and the digits from a place on make, and the place after them; none over 4294967295.
fn more_digits(line: &[u8], from: usize, first: u32) -> Option<(u32, usize)>
    requires { from ≤ length line.now }
    ensures { result ≡ more_digits first from (drop from line.now) }
{
    let mut n = first;
    // By place, which is what is answered.
    for at in from..line.len() {
        let b = line[at];
        if !b.is_ascii_digit() {
            return Some((n, at));
        }
        n = n.checked_mul(10)?.checked_add(u32::from(b - b'0'))?;
    }
    Some((n, line.len()))
}

// The decimal at a place of a line, with the place after it, or none. No digit goes on after a first 0.
#[tactic(auto, using(line_format::proofs::PlaceLaws::decimal_cases))]
fn decimal_at(line: &[u8], at: usize) -> Option<(u32, usize)>
    ensures { result ≡ decimal_at line.now at }
{
    match *line.get(at)? {
        b'0' => Some((0, at + 1)),
        b @ b'1'..=b'9' => more_digits(line, at + 1, u32::from(b - b'0')),
        _ => None,
    }
}

// The decimal after one space at a place of a line, with the place after it, or none.
fn spaced_at(line: &[u8], at: usize) -> Option<(u32, usize)>
    ensures { result ≡ spaced_at line.now at }
{
    match *line.get(at)? {
        b' ' => decimal_at(line, at + 1),
        _ => None,
    }
}

// ---- lines

// An operation, where the line ends at the place.
fn ended(line: &[u8], at: usize, op: Op) -> Option<Op>
    ensures { result ≡ ended line.now at op }
{
    (at == line.len()).then_some(op)
}

// The stamp that begins at a place of a line and ends it.
#[tactic(auto, unfolding(line_format::specs::Lines::one_number))]
fn last_stamp(line: &[u8], at: usize) -> Option<Stamp>
    ensures { (f : ℕ → Op) → option_map (λ (s : Stamp). f s.0) result ≡ one_number f line.now at }
{
    let (stamp, end) = decimal_at(line, at)?;
    (end == line.len()).then_some(Stamp(stamp))
}

// A read's line: its stamp begins at a place, its item ends it.
#[tactic(auto, unfolding(line_format::specs::Lines::two_numbers))]
fn read_line(line: &[u8], at: usize) -> Option<Op>
    ensures { result ≡ two_numbers read line.now at }
{
    let (stamp, after) = decimal_at(line, at)?;
    let (item, end) = spaced_at(line, after)?;
    ended(line, end, Op::read(Stamp(stamp), item))
}

// A write's line: its stamp begins at a place, then its item, and its value ends it.
#[tactic(auto, unfolding(line_format::specs::Lines::three_numbers))]
fn write_line(line: &[u8], at: usize) -> Option<Op>
    ensures { result ≡ three_numbers write line.now at }
{
    let (stamp, after) = decimal_at(line, at)?;
    let (item, behind) = spaced_at(line, after)?;
    let (value, end) = spaced_at(line, behind)?;
    ended(line, end, Op::write(Stamp(stamp), item, value))
}

// The place after a keyword that the line begins with.
fn after(line: &[u8], keyword: &[u8]) -> Option<usize>
    ensures { SomeIff result (starts keyword.now line.now ≡ true) (length keyword.now) }
{
    line.starts_with(keyword).then_some(keyword.len())
}

// What a line asks: an operation, or none for a bad line, to which the reply is `no 2`. The line has no newline.
#[tactic(auto, unfolding(line_format::specs::Lines::parse_line))]
pub fn parse(line: &[u8]) -> Option<Op>
    ensures { result ≡ parse_line line.now }
{
    if line.len() > LONGEST {
        None
    } else if let Some(at) = after(line, b"begin ") {
        Some(Op::begin(last_stamp(line, at)?))
    } else if let Some(at) = after(line, b"read ") {
        read_line(line, at)
    } else if let Some(at) = after(line, b"write ") {
        write_line(line, at)
    } else if let Some(at) = after(line, b"commit ") {
        Some(Op::commit(last_stamp(line, at)?))
    } else if let Some(at) = after(line, b"abort ") {
        Some(Op::abort(last_stamp(line, at)?))
    } else {
        None
    }
}
