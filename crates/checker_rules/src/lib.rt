// What the checker answers: a verdict, or why there is none. The rules are in specs/.
#![tactic(auto)]

ghost use Rattle.std.specs.Prelude.{◌≡◌};
ghost use Rattle.checker_rules.specs.Refusals.{refusal_code, refusal_number};
ghost use Rattle.checker_rules.specs.declared.Refusal.TheVariants.{Log as Refusal-as-Log, BadOrder as Refusal-as-BadOrder, NoRoom as Refusal-as-NoRoom};

use history_rules::BadLog;

// Why no verdict is given, or no timestamp order written.
#[derive(Clone, Copy, Debug, PartialEq, Eq)]
pub enum Refusal {
    Log(BadLog),
    BadOrder,
    NoRoom,
}

impl Refusal {
    // The page's code.
    pub fn code(self) -> u32
        ensures { result ≡ refusal_code self }
    {
        match self {
            Refusal::Log(why) => why.code(),
            Refusal::BadOrder => 28,
            Refusal::NoRoom => 29,
        }
    }

    // The page's number beside the code.
    pub fn number(self) -> usize
        ensures { result ≡ refusal_number self }
    {
        match self {
            Refusal::Log(why) => why.number(),
            Refusal::BadOrder | Refusal::NoRoom => 0,
        }
    }
}

impl From<BadLog> for Refusal {
    ghost from_gives = { λ why r. r ≡ Refusal-as-Log why };

    fn from(why: BadLog) -> Refusal {
        Refusal::Log(why)
    }
}

impl From<order_rules::BadOrder> for Refusal {
    ghost from_gives = { λ _ r. r ≡ Refusal-as-BadOrder };

    fn from(_: order_rules::BadOrder) -> Refusal {
        Refusal::BadOrder
    }
}

impl From<order_rules::NoRoom> for Refusal {
    ghost from_gives = { λ _ r. r ≡ Refusal-as-NoRoom };

    fn from(_: order_rules::NoRoom) -> Refusal {
        Refusal::NoRoom
    }
}
