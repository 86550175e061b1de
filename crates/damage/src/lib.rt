// The damage pass over the versions' columns and the initial marks: one look at each number, and no early way out of a loop, so that the loops
// are vector code.
#![tactic(auto)]

ghost use Rattle.std.specs.Prelude.{◌≤◌, ◌≡◌, IsTrue, take, drop};
ghost use Rattle.scheduler_rules.specs.Model.{max_versions};
ghost use Rattle.open_table.specs.Intact.{zeros};
ghost use Rattle.damage.specs.Damage.{row_sound, rows_sound, columns_sound, marks_sound, Undamaged};

use log_format::Stamp;
use scheduler_rules::Op;
use version_columns::Versions;

// Whether the row of item x, stamp k and mark m is in bounds, and after the row of item w and stamp j.
fn row_sound(w: u32, j: u32, x: u32, k: u32, m: u32, last: u32) -> bool
    ensures { result ≡ row_sound w j last x k m }
{
    (x <= Op::MOST_ITEM) & (0 < k) & (k <= last) & (m <= last) & ((w < x) | ((w == x) & (j < k)))
}

// Whether the rows before the count are in bounds and rise by item, then stamp.
fn rows_sound(versions: &Versions, last: Stamp) -> bool
    requires { versions.now.count ≤ max_versions }
    ensures { result ≡ rows_sound 0 0 last.0 (take versions.now.count versions.now.items) (take versions.now.count versions.now.stamps) (take versions.now.count versions.now.marks) }
{
    let mut sound = true;
    let mut w = 0;
    let mut j = 0;
    // By index, since three columns are read at one place.
    for i in 0..versions.count {
        let x = versions.items[i];
        let k = versions.stamps[i];
        sound &= row_sound(w, j, x, k, versions.marks[i], last.0);
        w = x;
        j = k;
    }
    sound
}

// Whether a column is zeros from a place on.
fn is_zero_from(column: &[u32; 1024], from: usize) -> bool
    requires { from ≤ max_versions }
    ensures { result ≡ zeros (drop from column.now) }
{
    column[from..].iter().fold(0, |some, x| some | x) == 0
}

// Whether the versions' columns are undamaged, where `last` is the last begun stamp.
pub fn columns_sound(versions: &Versions, last: Stamp) -> bool
    ensures is { result ≡ columns_sound versions.now last.0 }
    ensures undamaged { IsTrue result → Undamaged versions.now last.0 }
{
    let count = versions.count;
    if Versions::MOST < count {
        return false;
    }
    rows_sound(versions, last)
        & is_zero_from(&versions.items, count)
        & is_zero_from(&versions.stamps, count)
        & is_zero_from(&versions.values, count)
        & is_zero_from(&versions.marks, count)
}

// Whether no initial mark is above the last begun stamp.
pub fn marks_sound(marks: &[u32; 64], last: Stamp) -> bool
    ensures { result ≡ marks_sound marks.now last.0 }
{
    marks
        .iter()
        .fold(true, |sound, &mark| sound & (mark <= last.0))
}
