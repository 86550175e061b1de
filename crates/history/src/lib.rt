// The history of a log, codes 21 to 27, and its committed transactions. One walk finds the first bad field and notes every record in a map; a second finds
// the first read from a transaction that never commits; a third gathers the committed stamps. Each field costs a few lookups in the map, so the whole is
// near-linear in the log's bytes; a log whose stamps are chosen to share one bucket of the map costs the square of its fields, at most 9,361.
// Working memory is the caller's: words, lent, and left with the map of a log that passes.
#![tactic(auto)]

ghost use Rattle.std.specs.Prelude.{◌≡◌, ◌+◌, ◌≤◌, length, take};
ghost use Rattle.lists.specs.Member.{Rising};
ghost use Rattle.log_format.specs.Whole.{max_log};
ghost use Rattle.log_format.specs.Events.{event_of};
ghost use Rattle.history_rules.specs.WellFormed.{most_committed, is_commit, count_commits};
ghost use Rattle.history_rules.specs.History.{events_in, fields_from, dangling};
ghost use Rattle.history_rules.specs.Held.{stage_in};
ghost use Rattle.index.specs.Index.{table_of};
ghost use Rattle.history.specs.Judging.{Lent, Walked, later, Judgement};
ghost use Rattle.history.specs.Nodes.{Passes, WithCommit, Nodes};
ghost use Rattle.history.specs.Reads.{ReadIs};

use history_rules::BadLog;
use log_format::{Place, Record};
use transactions::{Stage, Transactions};

// ---- codes 22 to 25

// 1 for a commit, else 0.
fn commits_in(record: Record) -> usize
    ensures { (result ≡ is_commit (event_of «record»)) × (result ≤ 1) }
{
    usize::from(matches!(record, Record::Commit(_)))
}

// The first bad field, or how many commit; the map then has every record noted.
fn walk(log: &[u8], map: &mut [u64]) -> Result<usize, BadLog>
    requires { (Lent map.old) × ((4 ≤ length log.now) × (length log.now ≤ max_log)) }
    ensures { Walked log.now map.new result }
{
    let mut at = Place::FIRST;
    let mut commits: usize = 0;
    loop {
        // Each decoded field is taken apart by let else, the page's form; a field says where the next one begins.
        let Some((record, next)) = log_reader::decode_at(log, at)? else {
            return Ok(commits);
        };
        Transactions { map }
            .check(record)
            .map_err(|fault| BadLog::Wrong(fault, at))?;
        transactions::note(map, record);
        commits += commits_in(record);
        at = next;
    }
}

// ---- codes 26 and 27

// Whether a record is a read by a committed transaction from one that has not committed.
fn dangling_read(noted: &Transactions, record: Record) -> bool
    ensures { result ≡ dangling (stage_in (table_of noted.now.map.now)) (event_of «record») }
{
    let Record::Read { stamp, version, .. } = record else {
        return false;
    };
    noted.is_at(stamp, Stage::Committed)
        && version.0 != 0
        && !noted.is_at(version, Stage::Committed)
}

// A log whose fields are right, where so many commit, judged further: 26, then 27 with the first such read's place, else it passes.
fn settle(log: &[u8], noted: &Transactions, commits: usize) -> Result<usize, BadLog>
    requires { (4 ≤ length log.now) × (commits ≡ count_commits (events_in (fields_from log.now 4))) }
    ensures { result ≡ later (stage_in (table_of noted.now.map.now)) (fields_from log.now 4) }
{
    if numbers::MAX_COMMITTED < commits {
        return Err(BadLog::TooMany);
    }
    let mut at = Place::FIRST;
    loop {
        let Ok(Some((record, next))) = log_reader::decode_at(log, at) else {
            return Ok(commits);
        };
        if dangling_read(noted, record) {
            return Err(BadLog::Dangling(at));
        }
        at = next;
    }
}

// ---- the whole

// A log judged, with the map of its transactions in the lent words where it passes: how many committed, or why it is refused.
fn judge(log: &[u8], map: &mut [u64]) -> Result<usize, BadLog>
    requires { Lent map.old }
    ensures { Judgement log.now map.new result }
{
    if !log_reader::header_ok(log) {
        return Err(BadLog::NoLog);
    }
    let commits = walk(log, map)?;
    settle(log, &Transactions { map }, commits)
}

// ---- the committed transactions

// The stamps with that of a record that commits; their count then.
fn with_commit(nodes: &mut [u32], count: usize, record: Record) -> usize
    requires { (count + is_commit (event_of «record») ≤ length nodes.old) × Rising 0 (take count nodes.old) }
    ensures { WithCommit nodes.old count (event_of «record») nodes.new result }
{
    let Record::Commit(stamp) = record else {
        return count;
    };
    sorted::add(nodes, count, stamp.0)
}

// The stamps of the committed transactions of a log that passes, rising, and their count. No place past them changes.
fn gather(log: &[u8], nodes: &mut [u32]) -> usize
    requires { (Passes log.now) × (most_committed ≤ length nodes.old) }
    ensures { Nodes log.now nodes.old nodes.new result }
{
    let mut at = Place::FIRST;
    let mut count: usize = 0;
    loop {
        let Ok(Some((record, next))) = log_reader::decode_at(log, at) else {
            return count;
        };
        count = with_commit(nodes, count, record);
        at = next;
    }
}

// ---- a log read

// Reads a log, for any bytes: why it is refused, or how many transactions committed. Where it passes, the map has its transactions, and the
// first nodes are the stamps of the committed ones, rising.
pub fn read_history(log: &[u8], map: &mut [u64], nodes: &mut [u32]) -> Result<usize, BadLog>
    requires { (Lent map.old) × (most_committed ≤ length nodes.old) }
    ensures { ReadIs log.now map.new nodes.new result }
{
    judge(log, map)?;
    Ok(gather(log, nodes))
}
