// Version orders: the bytes of one, when one is right for a log (code 28), and the timestamp order of a log. The rules are in specs/; the crate has
// no function.
#![tactic(auto)]

// The tag of a version order's fields.
pub const TAG: u8 = 32;

// How a field of a version order begins: its item, and how many stamps follow it.
#[derive(Clone, Copy, Debug, PartialEq, Eq)]
pub struct Head {
    pub item: u8,
    pub stamps: usize,
}

// The bytes are no right version order of the log: code 28.
#[derive(Clone, Copy, Debug, PartialEq, Eq)]
pub struct BadOrder;

// The buffer is too short: code 29.
#[derive(Clone, Copy, Debug, PartialEq, Eq)]
pub struct NoRoom;
