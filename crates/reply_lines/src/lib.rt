// Writing reply lines into a lent buffer. No line has more than 33 bytes.
#![tactic(auto)]

ghost use Rattle.std.specs.Prelude.{◌≡◌, ◌+◌, ◌≤◌, ◌++◌, length};
ghost use Rattle.line_format.specs.Decimals.{bytes, digits};
ghost use Rattle.line_format.specs.ReplyLines.{value_line, reply_line, log_line, bad_line};
ghost use Rattle.reply_lines.specs.Written.{Put, Written};

use scheduler_rules::{Op, Reply};

// A line that is written from the front of a lent buffer on, and its length so far.
#[derive(Drop)]
pub struct Line<'a> {
    pub out: &'a mut [u8],
    pub len: usize,
}

impl<'a> Line<'a> {
    // Writes the bytes of a word where they fit.
    pub fn word(&mut self, word: &[u8])
        requires { self.old.len + length word.now ≤ length self.old.out.now }
        ensures same_buffer { self.new.out.ghost_name ≡ self.old.out.ghost_name }
        ensures same_room { length self.new.out.now ≡ length self.old.out.now }
        ensures put { Put self.old.out.now self.old.len word.now self.new.len self.new.out.now }
    {
        let end = self.len + word.len();
        self.out[self.len..end].copy_from_slice(word);
        self.len = end;
    }

    // Writes a number in decimal where it fits.
    pub fn number(&mut self, n: u64)
        requires { self.old.len + length (digits n) ≤ length self.old.out.now }
        ensures same_buffer { self.new.out.ghost_name ≡ self.old.out.ghost_name }
        ensures same_room { length self.new.out.now ≡ length self.old.out.now }
        ensures put { Put self.old.out.now self.old.len (digits n) self.new.len self.new.out.now }
    {
        let mut printed = itoa::Buffer::new();
        self.word(printed.format(n).as_bytes());
    }
}

// Writes a word, a number and the newline from the front on, where they fit.
fn put_said(out: &mut [u8], word: &[u8], n: u64) -> usize
    requires { length word.now + 21 ≤ length out.old }
    ensures { Put out.old 0 (word.now ++ digits n ++ bytes "\n") result out.new }
{
    let mut line = Line { out, len: 0 };
    line.word(word);
    line.number(n);
    line.word(b"\n");
    line.len
}

// Writes a read's value and the stamp of the version that was read, where they fit.
fn put_value(out: &mut [u8], value: u32, stamp: u32) -> usize
    requires { 33 ≤ length out.old }
    ensures { Put out.old 0 (value_line value stamp) result out.new }
{
    let mut line = Line { out, len: 0 };
    line.word(b"value ");
    line.number(u64::from(value));
    line.word(b" from ");
    line.number(u64::from(stamp));
    line.word(b"\n");
    line.len
}

// Writes a line that is one word, where it fits.
fn put_word(out: &mut [u8], word: &[u8]) -> usize
    requires { length word.now ≤ length out.old }
    ensures { Put out.old 0 word.now result out.new }
{
    let mut line = Line { out, len: 0 };
    line.word(word);
    line.len
}

// Writes the line of an operation's reply where any such line fits.
fn put_reply(out: &mut [u8], op: Op, r: Reply) -> usize
    requires { 33 ≤ length out.old }
    ensures { Put out.old 0 (reply_line op r) result out.new }
{
    // The code is the page's number.
    match r.code {
        0 if op.kind == 2 => put_value(out, r.value, r.stamp.0),
        0 => put_word(out, b"ok\n"),
        6 => put_said(out, b"wait ", u64::from(r.stamp.0)),
        8 => put_said(out, b"late ", u64::from(r.stamp.0)),
        code => put_said(out, b"no ", u64::from(code)),
    }
}

// Writes the line of an operation's reply, with its newline, at the buffer's front. Answers its length; no later byte changes.
pub fn write_reply(op: Op, r: Reply, out: &mut [u8; 40]) -> usize
    ensures { Written out.old (reply_line op r) result out.new }
{
    put_reply(out, op, r)
}

// The same of the last line, which says the bytes used.
pub fn write_log_line(used: usize, out: &mut [u8; 40]) -> usize
    ensures { Written out.old (log_line used) result out.new }
{
    put_said(out, b"log ", used as u64)
}

// The same of the reply to a bad line.
pub fn write_bad(out: &mut [u8; 40]) -> usize
    ensures { Written out.old bad_line result out.new }
{
    put_word(out, b"no 2\n")
}
