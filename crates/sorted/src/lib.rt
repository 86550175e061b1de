// Stamps that rise, in a slice that the caller lends.
#![tactic(auto)]

ghost use Rattle.std.specs.Prelude.{◌<◌, length, take};
ghost use Rattle.lists.specs.Member.{Rising};
ghost use Rattle.sorted.specs.Sorted.{Located, Added};

// The place of a stamp, if it is one of them.
pub fn find(stamps: &[u32], k: u32) -> Option<usize>
    requires { Rising 0 stamps.now }
    ensures { Located stamps.now k result }
{
    stamps.binary_search(&k).ok()
}

// The same. Stamps that are asked for one after the other mostly stand side by side, so the stamp is looked for beside a place first, that of
// the one before it, say.
pub fn find_near(stamps: &[u32], near: usize, k: u32) -> Option<usize>
    requires { Rising 0 stamps.now }
    ensures { Located stamps.now k result }
{
    let after = near.saturating_add(1);
    if after < stamps.len() && stamps[after] == k {
        return Some(after);
    }
    let before = near.saturating_sub(1);
    if before < stamps.len() && stamps[before] == k {
        return Some(before);
    }
    find(stamps, k)
}

// k in its place among the first n, where it is none of them already; their count then. No place past them changes.
pub fn add(stamps: &mut [u32], n: usize, k: u32) -> usize
    requires { (n < length stamps.old) × Rising 0 (take n stamps.old) }
    ensures { Added stamps.old n k stamps.new result }
{
    // The count is answered in both cases, since the caller needs it in both.
    let Err(at) = stamps[..n].binary_search(&k) else {
        return n;
    };
    stamps.copy_within(at..n, at + 1);
    stamps[at] = k;
    n + 1
}
