// A map from key to number in one slice of words that the caller lends. Rows stand in the order of their arrival, and for each bucket a chain leads
// through its rows, the newest first. The newest row of a key has the key's number, and a key without a row has 0. Only this crate knows the layout:
// word 0 has how many rows there are, a word for each bucket follows, then three words a row (its key, the row before it in its bucket, its number).
// A row is told by one more than its place, so that 0 is none. A slice of zeros is a map without rows.
#![tactic(auto)]

ghost use Rattle.std.specs.Prelude.{◌≡◌, ◌<◌};
ghost use Rattle.index.specs.Index.{buckets, bucket_of, table_of, Table, Room, Pushed};

// How many buckets there are. A prime, so that keys which rise or fall by equal steps spread over all of them, unless the step is a multiple of it.
const BUCKETS: u64 = 8191;

// Where the first row stands.
const ROWS: usize = BUCKETS as usize + 1;

// How many rows the map of a log is to have room for: each field of a log has at least 7 of its 65,536 bytes.
const MAX_ROWS: usize = 9362;

// How many words such a map has.
pub const WORDS: usize = ROWS + 3 * MAX_ROWS;

// The bucket of a key.
fn bucket(k: u64) -> usize
    ensures { (result ≡ bucket_of k) × (result < buckets) }
{
    (k % BUCKETS) as usize
}

// The number of the key, or 0. Nothing changes.
pub fn get(map: &[u64], k: u64) -> u64
    requires { Table map.now }
    ensures { result ≡ table_of map.now k }
{
    // A chain of rows, which no method of the library walks. 0 where the key has none: the map is a function on all keys.
    let mut told = map[bucket(k) + 1] as usize;
    while let Some(row) = told.checked_sub(1) {
        let at = ROWS + 3 * row;
        if map[at] == k {
            return map[at + 2];
        }
        told = map[at + 1] as usize;
    }
    0
}

// A new row with the number v for the key k, whether or not the key has one. It walks no chain.
#[tactic(auto, unfolding(crate::specs::Index::Room))]
pub fn push(map: &mut [u64], k: u64, v: u64)
    requires { (Table map.old) × Room 1 map.old }
    ensures { Pushed map.old k v map.new }
{
    // On the words themselves: between these stores they are no table, so no type that keeps them one can do it.
    let n = map[0];
    let head = bucket(k) + 1;
    let older = map[head];
    let at = ROWS + 3 * (n as usize);
    map[at] = k;
    map[at + 1] = older;
    map[at + 2] = v;
    map[head] = n + 1;
    map[0] = n + 1;
}
