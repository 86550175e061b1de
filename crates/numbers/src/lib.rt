// The page's numbers, each once: every other crate takes them from here, and so do the definitions, from specs/.
#![tactic(auto)]

ghost use Rattle.std.specs.Prelude.{◌≡◌};
ghost use Rattle.numbers.specs.Numbers.{page_numbers};

// How many items there are, and the largest one.
pub const ITEMS: usize = 64;

pub const MAX_ITEM: u8 = ITEMS as u8 - 1;

// At most this many transactions are open.
pub const MAX_OPEN: usize = 32;

// At most this many versions are held, initial ones not counted.
pub const MAX_VERSIONS: usize = 1024;

// A log has at most this many bytes.
pub const MAX_LOG: usize = 65536;

// A log that is checked has at most this many committed transactions.
pub const MAX_COMMITTED: usize = 256;

// The numbers above, side by side.
#[derive(Clone, Copy, Debug, PartialEq, Eq)]
pub struct Page {
    pub items: usize,
    pub largest: u32,
    pub opens: usize,
    pub versions: usize,
    pub bytes: usize,
    pub committed: usize,
}

// The code's numbers are those of the definitions.
pub fn page_numbers() -> Page
    ensures { result ≡ page_numbers }
{
    Page {
        items: ITEMS,
        largest: u32::from(MAX_ITEM),
        opens: MAX_OPEN,
        versions: MAX_VERSIONS,
        bytes: MAX_LOG,
        committed: MAX_COMMITTED,
    }
}
