// The versions held, by item, then stamp, as four columns of numbers with their count: a column is gone through on its own, and changed in place.
#![tactic(auto)]

ghost use Rattle.std.specs.Prelude.{◌≡◌, ◌==◌, ◌↔◌, [], ◌≤◌, ◌<◌, IsTrue, take, position};
ghost use Rattle.scheduler_rules.specs.Model.{max_versions};
ghost use Rattle.version_columns.specs.Columns.{columns_of, versions_of};
ghost use Rattle.version_columns.specs.Change.{inserted, Without, Narrowed, with_version, without_stamp, with_mark};
ghost use Rattle.version_columns.specs.Lookup.{UpTo, up_to, Ready, Answers};

use log_format::Stamp;

#[derive(Clone, Copy, Debug, PartialEq, Eq)]
pub struct Versions {
    // Columns and not rows: the damage pass is vector code over them (docs/DECISIONS.md, "Columns and not rows").
    pub items: [u32; 1024],
    pub stamps: [u32; 1024],
    pub values: [u32; 1024],
    pub marks: [u32; 1024],
    pub count: usize,
}

// The version that a lookup met, a held one or the initial one.
#[derive(Clone, Copy, Debug, PartialEq, Eq)]
pub struct Chosen {
    // Where a new version would go.
    pub at: usize,
    // Where the held version stands.
    pub held: Option<usize>,
    pub stamp: Stamp,
    pub value: u32,
    pub mark: Stamp,
}

impl Versions {
    // No table holds more versions.
    pub const MOST: usize = 1024;

    // The columns that hold no version: all zeros.
    pub fn empty() -> Self
        ensures { result ≡ columns_of [] }
    {
        Versions {
            items: [0; 1024],
            stamps: [0; 1024],
            values: [0; 1024],
            marks: [0; 1024],
            count: 0,
        }
    }

    // Adds a version, not yet read, at its place: what stood there and after it stands one place on.
    pub fn insert(&mut self, at: usize, item: u32, stamp: Stamp, value: u32)
        requires { (at ≤ self.old.count) × (self.old.count < max_versions) }
        ensures { self.new ≡ with_version at (record { item = item; stamp = stamp.0; value = value; mark = 0 }) self.old }
    {
        let count = self.count;
        insert_in(&mut self.items, at, count, item);
        insert_in(&mut self.stamps, at, count, stamp.0);
        insert_in(&mut self.values, at, count, value);
        insert_in(&mut self.marks, at, count, 0);
        self.count = count + 1;
    }

    // Takes out the versions of a stamp: the others move up, in order, and zeros follow them.
    pub fn remove(&mut self, stamp: Stamp)
        requires { self.old.count ≤ max_versions }
        ensures { self.new ≡ without_stamp stamp.0 self.old }
    {
        let Some(from) = self.first_of(stamp) else {
            return;
        };
        let stamps = self.stamps;
        let count = self.count;
        remove_in(&mut self.items, &stamps, from, count, stamp);
        remove_in(&mut self.values, &stamps, from, count, stamp);
        remove_in(&mut self.marks, &stamps, from, count, stamp);
        self.count = remove_in(&mut self.stamps, &stamps, from, count, stamp);
    }

    // Raises the mark of the version at a place to k, if it is lower.
    pub fn raise(&mut self, at: usize, k: Stamp)
        requires { at < max_versions }
        ensures { self.new ≡ with_mark at k.0 self.old }
    {
        self.marks[at] = self.marks[at].max(k.0);
    }

    // The first place at which a version of the stamp stands.
    fn first_of(&self, stamp: Stamp) -> Option<usize>
        requires { self.now.count ≤ max_versions }
        ensures { result ≡ position (λ s. s == stamp.0) (take self.now.count self.now.stamps) }
    {
        self.stamps[..self.count].iter().position(|&s| s == stamp.0)
    }

    // How many versions stand at or before that of an item by a stamp. A binary search by hand: the library's go over one slice, and a
    // version stands in two columns.
    fn place_of(&self, item: u32, stamp: Stamp) -> usize
        requires { Ready self.now }
        ensures within { result ≤ self.now.count }
        ensures is { result ≡ up_to item stamp.0 (versions_of self.now) }
    {
        let mut lo = 0;
        let mut hi = self.count;
        while lo < hi {
            let mid = lo + (hi - lo) / 2;
            if is_up_to(self.items[mid], self.stamps[mid], item, stamp.0) {
                lo = mid + 1;
            } else {
                hi = mid;
            }
        }
        lo
    }

    // The version of an item with the largest stamp not above `stamp`, or the initial one, whose mark is `first`.
    pub fn choose(&self, item: u32, stamp: Stamp, first: Stamp) -> Chosen
        requires { Ready self.now }
        ensures { Answers (versions_of self.now) item stamp.0 first.0 result }
    {
        let at = self.place_of(item, stamp);
        match at.checked_sub(1) {
            Some(b) if self.items[b] == item => Chosen {
                at,
                held: Some(b),
                stamp: Stamp(self.stamps[b]),
                value: self.values[b],
                mark: Stamp(self.marks[b]),
            },
            _ => Chosen {
                at,
                held: None,
                stamp: Stamp(0),
                value: 0,
                mark: first,
            },
        }
    }
}

// One column: x stands at `at`, and what stood there and after it, up to the count, stands one place on.
fn insert_in(column: &mut [u32; 1024], at: usize, count: usize, x: u32)
    requires { (at ≤ count) × (count < max_versions) }
    ensures { column.new ≡ inserted at count x column.old }
{
    column.copy_within(at..count, at + 1);
    column[at] = x;
}

// One column without the entries of a stamp, of which none stands before `from`: the others move up, in order, and zeros follow them up to the
// count. Answers how many are left.
fn remove_in(
    column: &mut [u32; 1024],
    stamps: &[u32; 1024],
    from: usize,
    count: usize,
    stamp: Stamp,
) -> usize
    requires { (from ≤ count) × (count ≤ max_versions) × Without stamp.0 from stamps.now }
    ensures { Narrowed stamp.0 count stamps.now column.old column.new result }
{
    let mut left = from;
    // By index, since two columns are read at one place.
    for i in from..count {
        let x = column[i];
        column[i] = 0;
        if stamps[i] != stamp.0 {
            column[left] = x;
            left += 1;
        }
    }
    left
}

// Whether the version of item y by j stands at or before that of x by k.
fn is_up_to(y: u32, j: u32, x: u32, k: u32) -> bool
    ensures { IsTrue result ↔ UpTo x k y j }
{
    (y, j) <= (x, k)
}
