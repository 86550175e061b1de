// What a map from key to number says of the transactions of a log: how far each has come and what it wrote; the code of a record after those noted, 23 to
// 25, and a record noted. Each asks the map at most four times and adds at most one row, so a log costs as many lookups as it has fields: near-linear in
// its bytes, unless its stamps are chosen so that their keys share one bucket, where a lookup walks all rows.
#![tactic(auto)]

ghost use Rattle.std.specs.Prelude.{◌≡◌, eqb};
ghost use Rattle.log_format.specs.Events.{begins, reads, writes, commits, event_of};
ghost use Rattle.history_rules.specs.Faults.{idle, unfit, unread};
ghost use Rattle.history_rules.specs.Held.{stage_key, item_key, stage_in, written_in};
ghost use Rattle.index.specs.Index.{table_of, Table, Room};
ghost use Rattle.transactions.specs.Transactions.{stage_number, written_number, told_code, fault_in, Noted};

use history_rules::Fault;
use log_format::{Record, Stamp};
use numbers::MAX_ITEM;

// How far a transaction has come.
#[derive(Clone, Copy, Debug, PartialEq, Eq)]
pub enum Stage {
    Unbegun,
    Running,
    Committed,
    Aborted,
}

// As the map has it, where a key without a row has 0.
impl From<Stage> for u64 {
    ghost from_gives = { λ stage n. n ≡ stage_number stage };

    fn from(stage: Stage) -> u64 {
        match stage {
            Stage::Unbegun => 0,
            Stage::Running => 1,
            Stage::Committed => 2,
            Stage::Aborted => 3,
        }
    }
}

// ---- what the map says

// Where the map has how far a transaction has come.
fn stage_key(stamp: Stamp) -> u64
    ensures { result ≡ stage_key stamp.0 }
{
    u64::from(stamp.0) * 128 + 64
}

// Where it has what a transaction wrote to an item.
fn item_key(stamp: Stamp, item: u8) -> u64
    ensures { result ≡ item_key stamp.0 item }
{
    u64::from(stamp.0) * 128 + u64::from(item)
}

// The transactions of a log, as a map has them.
#[derive(Clone, Copy)]
pub struct Transactions<'a> {
    pub map: &'a [u64],
    ghost table: { Table map.now },
}

impl Transactions<'_> {
    // How far a transaction has come, as the map has it.
    pub fn stage_of(&self, stamp: Stamp) -> u64
        ensures { result ≡ stage_in (table_of self.now.map.now) stamp.0 }
    {
        index::get(self.map, stage_key(stamp))
    }

    // Whether a transaction has come to a stage and no further.
    pub fn is_at(&self, stamp: Stamp, stage: Stage) -> bool
        ensures { result ≡ eqb (stage_in (table_of self.now.map.now) stamp.0) (stage_number stage) }
    {
        self.stage_of(stamp) == u64::from(stage)
    }

    // The value that a transaction wrote to an item, if it wrote one. The map has one more than the value, as a u64.
    pub fn written(&self, stamp: Stamp, item: u8) -> Option<u64>
        ensures { written_number result ≡ written_in (table_of self.now.map.now) stamp.0 item }
    {
        index::get(self.map, item_key(stamp, item)).checked_sub(1)
    }

    // ---- codes 23 to 25

    // Whether a stamp is 0, not begun or already ended: 23.
    fn is_idle(&self, stamp: Stamp) -> bool
        ensures { result ≡ idle (stage_in (table_of self.now.map.now)) stamp.0 }
    {
        stamp.0 == 0 || !self.is_at(stamp, Stage::Running)
    }

    // Whether a version of an item may not be read with the value: not written with it, or aborted; of version 0, the value is not 0.
    fn is_unfit(&self, item: u8, version: Stamp, value: u32) -> bool
        ensures { result ≡ unfit (stage_in (table_of self.now.map.now)) (written_in (table_of self.now.map.now)) item version.0 value }
    {
        if version.0 == 0 {
            return value != 0;
        }
        self.written(version, item) != Some(u64::from(value)) || self.is_at(version, Stage::Aborted)
    }

    // Whether the reader may not read an item in a version with the value: it has an earlier write of its own, or the version is unfit. 25.
    // The stamps are compared first, so that a read of one's own version asks the map for it once.
    fn is_unread(&self, stamp: Stamp, item: u8, version: Stamp, value: u32) -> bool
        ensures { result ≡ unread (stage_in (table_of self.now.map.now)) (written_in (table_of self.now.map.now)) stamp.0 item version.0 value }
    {
        (version != stamp && self.written(stamp, item).is_some())
            || self.is_unfit(item, version, value)
    }

    // A begin: its stamp is not 0 and has not begun.
    fn check_begin(&self, stamp: Stamp) -> Result<(), Fault>
        ensures { told_code result ≡ fault_in (table_of self.now.map.now) (begins stamp.0) }
    {
        if stamp.0 == 0 || !self.is_at(stamp, Stage::Unbegun) {
            return Err(Fault::Stamp);
        }
        Ok(())
    }

    // A commit or an abort: its stamp runs.
    fn check_end(&self, stamp: Stamp) -> Result<(), Fault>
        ensures { told_code result ≡ fault_in (table_of self.now.map.now) (commits stamp.0) }
    {
        if self.is_idle(stamp) {
            return Err(Fault::Stamp);
        }
        Ok(())
    }

    // A read: its stamp runs, then its item is one, then its version may be read.
    fn check_read(&self, stamp: Stamp, item: u8, version: Stamp, value: u32) -> Result<(), Fault>
        ensures { told_code result ≡ fault_in (table_of self.now.map.now) (reads stamp.0 item version.0 value) }
    {
        if self.is_idle(stamp) {
            return Err(Fault::Stamp);
        }
        if MAX_ITEM < item {
            return Err(Fault::Item);
        }
        if self.is_unread(stamp, item, version, value) {
            return Err(Fault::Version);
        }
        Ok(())
    }

    // A write, whatever the value: its stamp runs, then its item is one that it has not written.
    fn check_write(&self, stamp: Stamp, item: u8, value: u32) -> Result<(), Fault>
        ensures { told_code result ≡ fault_in (table_of self.now.map.now) (writes stamp.0 item value) }
    {
        if self.is_idle(stamp) {
            return Err(Fault::Stamp);
        }
        if MAX_ITEM < item || self.written(stamp, item).is_some() {
            return Err(Fault::Item);
        }
        Ok(())
    }

    // Whether a record is right after those noted, or the first of its faults.
    pub fn check(&self, record: Record) -> Result<(), Fault>
        ensures { told_code result ≡ fault_in (table_of self.now.map.now) (event_of «record») }
    {
        match record {
            Record::Begin(stamp) => self.check_begin(stamp),
            Record::Read {
                stamp,
                item,
                version,
                value,
            } => self.check_read(stamp, item, version, value),
            Record::Write { stamp, item, value } => self.check_write(stamp, item, value),
            Record::Commit(stamp) | Record::Abort { stamp, .. } => self.check_end(stamp),
        }
    }
}

// ---- a record noted

// The map with a record noted. A read leaves it as it is.
pub fn note(map: &mut [u64], record: Record)
    requires { (Table map.old) × Room 1 map.old }
    ensures { Noted map.old (event_of «record») map.new }
{
    match record {
        Record::Begin(stamp) => index::push(map, stage_key(stamp), Stage::Running.into()),
        Record::Read { .. } => {}
        Record::Write { stamp, item, value } => {
            index::push(map, item_key(stamp, item), u64::from(value) + 1)
        }
        Record::Commit(stamp) => index::push(map, stage_key(stamp), Stage::Committed.into()),
        Record::Abort { stamp, .. } => index::push(map, stage_key(stamp), Stage::Aborted.into()),
    }
}
