// What a checked log must satisfy, and how one that does not is refused, codes 21 to 27. The rules are in specs/.
#![tactic(auto)]

ghost use Rattle.std.specs.Prelude.{◌≡◌};
ghost use Rattle.history_rules.specs.Refusals.{fault_code, bad_log_code, bad_log_number};

use log_format::{BadField, Place};

// What is wrong with a record after those before it: its stamp, its item, or the version that it reads.
#[derive(Clone, Copy, Debug, PartialEq, Eq)]
pub enum Fault {
    Stamp,
    Item,
    Version,
}

impl Fault {
    // The page's code.
    pub fn code(self) -> u32
        ensures { result ≡ fault_code self }
    {
        match self {
            Fault::Stamp => 23,
            Fault::Item => 24,
            Fault::Version => 25,
        }
    }
}

// Why a log is refused, with the place of the field that decides it, where one does.
#[derive(Clone, Copy, Debug, PartialEq, Eq)]
pub enum BadLog {
    NoLog,
    BadField(Place),
    Wrong(Fault, Place),
    TooMany,
    Dangling(Place),
}

impl BadLog {
    // The page's code.
    pub fn code(self) -> u32
        ensures { result ≡ bad_log_code self }
    {
        match self {
            BadLog::NoLog => 21,
            BadLog::BadField(_) => 22,
            BadLog::Wrong(fault, _) => fault.code(),
            BadLog::TooMany => 26,
            BadLog::Dangling(_) => 27,
        }
    }

    // The page's number beside the code.
    pub fn number(self) -> usize
        ensures { result ≡ bad_log_number self }
    {
        match self {
            BadLog::NoLog | BadLog::TooMany => 0,
            BadLog::BadField(place) | BadLog::Wrong(_, place) | BadLog::Dangling(place) => place.0,
        }
    }
}

impl From<BadField> for BadLog {
    ghost use Rattle.history_rules.specs.declared.BadLog.{BadLog};

    ghost from_gives = { λ field e. e ≡ BadLog.BadField field.0 };

    fn from(field: BadField) -> BadLog {
        BadLog::BadField(field.0)
    }
}
