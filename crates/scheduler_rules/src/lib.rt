// What the scheduler is asked and what it answers. The rules are in specs/.
#![tactic(auto)]

ghost use Rattle.std.specs.Prelude.{◌≡◌};

use log_format::Stamp;

// An operation: kind (1 begin, 2 read, 3 write, 4 commit, 5 abort), stamp, item, value. A number the kind has no use for is 0.
#[derive(Clone, Copy, Debug, PartialEq, Eq)]
pub struct Op {
    // A number, as the page has it: any may come, and one that is no kind is answered by 2.
    pub kind: u32,
    pub stamp: Stamp,
    pub item: u32,
    pub value: u32,
}

impl Op {
    ghost use Rattle.scheduler_rules.specs.Run.{begin, read, write, commit, abort};

    // Items are 0 to this.
    pub const MOST_ITEM: u32 = 63;

    pub fn begin(stamp: Stamp) -> Self
        ensures { result ≡ begin stamp.0 }
    {
        Op {
            kind: 1,
            stamp,
            item: 0,
            value: 0,
        }
    }

    pub fn read(stamp: Stamp, item: u32) -> Self
        ensures { result ≡ read stamp.0 item }
    {
        Op {
            kind: 2,
            item,
            ..Op::begin(stamp)
        }
    }

    pub fn write(stamp: Stamp, item: u32, value: u32) -> Self
        ensures { result ≡ write stamp.0 item value }
    {
        Op {
            kind: 3,
            stamp,
            item,
            value,
        }
    }

    pub fn commit(stamp: Stamp) -> Self
        ensures { result ≡ commit stamp.0 }
    {
        Op {
            kind: 4,
            ..Op::begin(stamp)
        }
    }

    pub fn abort(stamp: Stamp) -> Self
        ensures { result ≡ abort stamp.0 }
    {
        Op {
            kind: 5,
            ..Op::begin(stamp)
        }
    }
}

// A reply: the code, then what the page's table says of the code.
#[derive(Clone, Copy, Debug, PartialEq, Eq)]
pub struct Reply {
    // A number, as the page has it: the reply table and its laws speak of it.
    pub code: u32,
    pub stamp: Stamp,
    pub value: u32,
}
