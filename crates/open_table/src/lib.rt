// The open transactions: a fixed table of 32 stamps with its count.
#![tactic(auto)]

ghost use Rattle.std.specs.Prelude.{◌<◌, ◌≤◌, min, ◌≡◌, [], ◌∷◌, ◌++◌, map, drop};
ghost use Rattle.scheduler_rules.specs.Model.{max_open, close};
ghost use Rattle.open_table.specs.Open.{number, stamps_of, table_of, Padded, holds};
ghost use Rattle.open_table.specs.Intact.{in_place, rises, zeros, is_intact};

use log_format::Stamp;

#[derive(Clone, Copy, Debug, PartialEq, Eq)]
pub struct OpenTable {
    pub stamps: [Stamp; 32],
    pub count: usize,
}

impl OpenTable {
    // At most this many transactions are open at once.
    pub const MOST: usize = 32;

    // The table with no stamp.
    pub fn empty() -> Self
        ensures { result ≡ table_of [] }
    {
        OpenTable {
            stamps: [Stamp(0); 32],
            count: 0,
        }
    }

    // How many places are taken: all 32 where the count passes them.
    fn taken(&self) -> usize
        ensures { result ≡ min self.now.count max_open }
    {
        self.count.min(OpenTable::MOST)
    }

    // Whether the table holds the stamp.
    pub fn has(&self, k: Stamp) -> bool
        ensures { result ≡ holds k.0 (stamps_of self.now) }
    {
        self.stamps[..self.taken()].contains(&k)
    }

    // The table with the stamp after the others.
    pub fn insert(mut self, k: Stamp) -> Self
        requires padded { Padded self }
        requires room { self.count < max_open }
        ensures { result ≡ table_of (stamps_of self ++ k.0 ∷ []) }
    {
        self.stamps[self.count] = k;
        self.count += 1;
        self
    }

    // The table without the stamp: what stood after it moves down, and the freed places are zeros.
    pub fn remove(self, k: Stamp) -> Self
        ensures { result ≡ table_of (close k.0 (stamps_of self)) }
    {
        let mut kept = OpenTable::empty();
        for &s in &self.stamps[..self.taken()] {
            if s != k {
                kept = kept.insert(s);
            }
        }
        kept
    }

    // Whether the stamps rise from above 0, and none passes the last begun: one look at each, and no early way out.
    fn is_rising(&self, last: Stamp) -> bool
        requires { self.now.count ≤ max_open }
        ensures { result ≡ rises 0 last.0 (stamps_of self.now) }
    {
        let mut rising = true;
        let mut before = Stamp(0);
        for &k in &self.stamps[..self.count] {
            rising &= (before < k) & (k <= last);
            before = k;
        }
        rising
    }

    // Whether the places past the count are zeros.
    fn is_blank(&self) -> bool
        requires { self.now.count ≤ max_open }
        ensures { result ≡ zeros (map number (drop self.now.count self.now.stamps)) }
    {
        self.stamps[self.count..]
            .iter()
            .fold(0, |some, k| some | k.0)
            == 0
    }

    // Whether the table is undamaged, where `last` is the last begun stamp.
    #[tactic(auto, unfolding(crate::specs::Intact::is_intact))]
    pub fn is_intact(&self, last: Stamp) -> bool
        ensures { result ≡ is_intact self.now last.0 }
    {
        self.count <= OpenTable::MOST && self.is_rising(last) && self.is_blank()
    }
}
