// Operation lines and reply lines: the lines are in specs/; the crate has no function.
#![tactic(auto)]

// No operation line has more bytes.
pub const LONGEST: usize = 63;
