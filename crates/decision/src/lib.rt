// What a call decides before it changes anything, on the small part of the state by value and on lent marks and versions; and how the small part
// moves by what is decided.
#![tactic(auto)]

ghost use Rattle.std.specs.Prelude.{◌≡◌, ◌≤◌, IsTrue, IfOk, IfErr, get_or};
ghost use Rattle.scheduler_rules.specs.Model.{max_item};
ghost use Rattle.scheduler_rules.specs.Table.{Good, most_item, most_value};
ghost use Rattle.open_table.specs.Open.{stamps_of};
ghost use Rattle.version_columns.specs.Columns.{versions_of};
ghost use Rattle.version_columns.specs.Lookup.{Ready, Answers};
ghost use Rattle.decision.specs.declared.Refusal.TheVariants.{Malformed};
ghost use Rattle.decision.specs.Kind.{number_of};
ghost use Rattle.decision.specs.Plans.{bytes_of, fitting, opened, begin_plan, end_plan, read_plan, write_plan};
ghost use Rattle.decision.specs.Decided.{model_of, undamaged_in, Whole, CanDecide, Decided, PlanIs};
ghost use Rattle.decision.specs.Moves.{Movable, core_after};

use log_format::{Place, Stamp};
use open_table::OpenTable;
use scheduler_rules::{Op, Reply};
use version_columns::{Chosen, Versions};

// ---- what is asked

// What an operation asks for. Callers give it as a number, since any number may come; inside it is taken apart once.
#[derive(Clone, Copy, Debug, PartialEq, Eq)]
pub enum Kind {
    Begin,
    Read,
    Write,
    Commit,
    Abort,
}

impl TryFrom<u32> for Kind {
    type Error = Refusal;

    ghost use Rattle.decision.specs.Kind.{IsKind};

    ghost try_from_gives = { IsKind };

    fn try_from(kind: u32) -> Result<Self, Refusal> {
        match kind {
            1 => Ok(Kind::Begin),
            2 => Ok(Kind::Read),
            3 => Ok(Kind::Write),
            4 => Ok(Kind::Commit),
            5 => Ok(Kind::Abort),
            _ => Err(Refusal::Malformed),
        }
    }
}

impl Kind {
    // The largest item that an operation of the kind may name; 0 where it has no use for one.
    #[tactic(auto, unfolding(lists::specs::Choice::pick, lists::specs::Choice::either))]
    fn most_item(self) -> u32
        ensures { result ≡ most_item (number_of self) }
    {
        match self {
            Kind::Read | Kind::Write => Op::MOST_ITEM,
            Kind::Begin | Kind::Commit | Kind::Abort => 0,
        }
    }

    // The largest value; 0 where the kind has no use for one.
    #[tactic(auto, unfolding(lists::specs::Choice::pick))]
    fn most_value(self) -> u32
        ensures { result ≡ most_value (number_of self) }
    {
        match self {
            Kind::Write => u32::MAX,
            Kind::Begin | Kind::Read | Kind::Commit | Kind::Abort => 0,
        }
    }

    // What an operation asks for, where it is well-formed.
    fn of(op: Op) -> Result<Kind, Refusal>
        ensures ok { IfOk result (λ kind. Good op × (number_of kind ≡ op.kind)) }
        ensures err { IfErr result (λ e. (e ≡ Malformed) × ¬ Good op) }
    {
        let kind = Kind::try_from(op.kind)?;
        if op.stamp == Stamp(0) || kind.most_item() < op.item || kind.most_value() < op.value {
            return Err(Refusal::Malformed);
        }
        Ok(kind)
    }
}

// ---- what is answered

// Why a call changes nothing, in the order of checking.
#[derive(Clone, Copy, Debug, PartialEq, Eq)]
pub enum Refusal {
    // The state is damaged.
    Damaged,
    // The operation's numbers are not those of an operation.
    Malformed,
    // A begin with a stamp that is not above the last begun one.
    NotAbove,
    // As many transactions are open as may be.
    TooManyOpen,
    // The transaction is not open.
    NotOpen,
    // The version to read is by another open transaction, which has this stamp.
    Waits(Stamp),
    // The transaction has written the item.
    Written,
    // As many versions are held as may be.
    TooManyVersions,
    // The record does not fit the log.
    NoRoom,
}

impl From<Refusal> for Reply {
    ghost use Rattle.decision.specs.Refusal.{reply_of};

    ghost from_gives = { λ e reply. reply ≡ reply_of e };

    fn from(refusal: Refusal) -> Reply {
        let (code, stamp) = match refusal {
            Refusal::Damaged => (1, Stamp(0)),
            Refusal::Malformed => (2, Stamp(0)),
            Refusal::NotAbove => (3, Stamp(0)),
            Refusal::TooManyOpen => (4, Stamp(0)),
            Refusal::NotOpen => (5, Stamp(0)),
            Refusal::Waits(stamp) => (6, stamp),
            Refusal::Written => (7, Stamp(0)),
            Refusal::TooManyVersions => (9, Stamp(0)),
            Refusal::NoRoom => (10, Stamp(0)),
        };
        Reply {
            code,
            stamp,
            value: 0,
        }
    }
}

// The reply of a call that has nothing to tell but that it was done.
pub const DONE: Reply = Reply {
    code: 0,
    stamp: Stamp(0),
    value: 0,
};

// The record that a call is to write, and where the version that it reads or writes stands; a read of the initial version has no place.
#[derive(Clone, Copy, Debug, PartialEq, Eq)]
pub enum Due {
    Begin,
    Read(Option<usize>),
    Write(usize),
    Commit,
    Abort(u8),
}

impl Due {
    // The record is not made yet, so log_writer cannot tell its size.
    // The bytes of the record.
    fn size(self) -> usize
        ensures { result ≡ bytes_of self }
    {
        match self {
            Due::Begin | Due::Commit => 7,
            Due::Read(_) => 16,
            Due::Write(_) => 12,
            Due::Abort(_) => 8,
        }
    }
}

// What a call answers, and what it is to do.
#[derive(Clone, Copy, Debug, PartialEq, Eq)]
pub struct Plan {
    pub reply: Reply,
    pub due: Due,
}

// ---- the small part of a state

// The last begun stamp, the log bytes used, the open transactions.
#[derive(Clone, Copy, Debug, PartialEq, Eq)]
pub struct Core {
    pub last: Stamp,
    pub used: Place,
    pub live: OpenTable,
}

impl Core {
    // The plan with a reply and a record, if the record fits the room after the bytes used.
    fn plan(self, room: usize, reply: Reply, due: Due) -> Result<Plan, Refusal>
        ensures { result ≡ fitting room self.used.0 reply due }
    {
        let left = room.saturating_sub(self.used.0);
        if left < due.size() {
            return Err(Refusal::NoRoom);
        }
        Ok(Plan { reply, due })
    }

    // Begin: 3, 4, 10 or 0.
    fn plan_begin(self, room: usize, k: Stamp) -> Result<Plan, Refusal>
        ensures { result ≡ begin_plan self.last.0 self.live.count k.0 self.used.0 room }
    {
        if k <= self.last {
            return Err(Refusal::NotAbove);
        }
        if OpenTable::MOST <= self.live.count {
            return Err(Refusal::TooManyOpen);
        }
        self.plan(room, DONE, Due::Begin)
    }

    // Refuses what a transaction that is not open asks for: 5.
    fn check_open(self, k: Stamp) -> Result<(), Refusal>
        ensures { result ≡ opened k.0 (stamps_of self.live) }
    {
        if self.live.has(k) {
            Ok(())
        } else {
            Err(Refusal::NotOpen)
        }
    }

    // Commit and abort, whose record is due: 5, 10 or 0.
    fn plan_end(self, room: usize, k: Stamp, due: Due) -> Result<Plan, Refusal>
        ensures { result ≡ end_plan due (stamps_of self.live) k.0 self.used.0 room }
    {
        self.check_open(k)?;
        self.plan(room, DONE, due)
    }

    // Read by k of the version v: 5, 6, 10 or 0.
    fn plan_read(self, room: usize, k: Stamp, v: Chosen) -> Result<Plan, Refusal>
        ensures { result ≡ read_plan v (stamps_of self.live) k.0 self.used.0 room }
    {
        self.check_open(k)?;
        if v.stamp != k && self.live.has(v.stamp) {
            return Err(Refusal::Waits(v.stamp));
        }
        let reply = Reply {
            code: 0,
            stamp: v.stamp,
            value: v.value,
        };
        self.plan(room, reply, Due::Read(v.held))
    }

    // Write by k over the version v, where so many are held: 5, 7, 9, 10, 8 or 0.
    fn plan_write(self, room: usize, k: Stamp, v: Chosen, count: usize) -> Result<Plan, Refusal>
        ensures { result ≡ write_plan v count (stamps_of self.live) k.0 self.used.0 room }
    {
        self.check_open(k)?;
        if v.stamp == k {
            return Err(Refusal::Written);
        }
        if k < v.mark {
            let reply = Reply {
                code: 8,
                stamp: v.mark,
                value: 0,
            };
            return self.plan(room, reply, Due::Abort(1));
        }
        if Versions::MOST <= count {
            return Err(Refusal::TooManyVersions);
        }
        self.plan(room, DONE, Due::Write(v.at))
    }

    // The small part after a call whose record is due.
    pub fn after(mut self, op: Op, due: Due) -> Self
        requires { Movable self due }
        ensures { result ≡ core_after self op due }
    {
        self.used.0 += due.size();
        match due {
            Due::Begin => {
                self.last = op.stamp;
                self.live = self.live.insert(op.stamp);
            }
            Due::Commit | Due::Abort(_) => self.live = self.live.remove(op.stamp),
            Due::Read(_) | Due::Write(_) => {}
        }
        self
    }
}

// ---- the decision

// Whether the state is undamaged over a log of so much room.
fn is_sound(core: Core, room: usize, marks: &[u32; 64], versions: &Versions) -> bool
    requires { room ≤ 65536 }
    ensures is { result ≡ undamaged_in core room marks.now versions.now }
    ensures whole { IsTrue result → Whole core room marks.now versions.now }
{
    (4 <= core.used.0)
        & (core.used.0 <= room)
        & core.live.is_intact(core.last)
        & damage::marks_sound(marks, core.last)
        & damage::columns_sound(versions, core.last)
}

// The version of the operation's item with the largest stamp not above its own, held or initial: the one that a read gets and a write goes over.
fn choose_for(op: Op, marks: &[u32; 64], versions: &Versions) -> Chosen
    requires { (op.item ≤ max_item) × Ready versions.now }
    ensures { Answers (versions_of versions.now) op.item op.stamp.0 (get_or marks.now op.item 0) result }
{
    versions.choose(op.item, op.stamp, Stamp(marks[op.item as usize]))
}

// The plan of a well-formed operation on an undamaged state.
fn decide(
    core: Core,
    kind: Kind,
    op: Op,
    room: usize,
    marks: &[u32; 64],
    versions: &Versions,
) -> Result<Plan, Refusal>
    requires { CanDecide core kind op room marks.now versions.now }
    ensures { Decided room op (model_of core marks.now versions.now) result }
{
    let k = op.stamp;
    match kind {
        Kind::Begin => core.plan_begin(room, k),
        Kind::Read => core.plan_read(room, k, choose_for(op, marks, versions)),
        Kind::Write => { core.plan_write(room, k, choose_for(op, marks, versions), versions.count) }
        Kind::Commit => core.plan_end(room, k, Due::Commit),
        Kind::Abort => core.plan_end(room, k, Due::Abort(0)),
    }
}

// The plan of any operation on any state: a refusal where the state is damaged or the operation is not well-formed, else as decided.
pub fn planned(
    core: Core,
    op: Op,
    room: usize,
    marks: &[u32; 64],
    versions: &Versions,
) -> Result<Plan, Refusal>
    requires { room ≤ 65536 }
    ensures plan { PlanIs room op (undamaged_in core room marks.now versions.now) (model_of core marks.now versions.now) result }
    ensures whole { IsTrue (undamaged_in core room marks.now versions.now) → Whole core room marks.now versions.now }
{
    if !is_sound(core, room, marks, versions) {
        return Err(Refusal::Damaged);
    }
    let kind = Kind::of(op)?;
    decide(core, kind, op, room, marks, versions)
}
