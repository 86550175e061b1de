// The check as C programs call it: the static library of the function that panel/svelmings.h declares.
#![tactic(auto)]

ghost use Rattle.checker_rules.specs.Answers.{PanelIs};

// The code and the number in one, and the buffer as the check leaves it.
#[unsafe(no_mangle)]
pub extern "C" fn svelmings_check(log: &[u8], order: &[u8], answer: &mut [u8]) -> u32
    ensures { PanelIs log.now order.now answer.old result answer.new }
{
    checker::svelmings_check(log, order, answer)
}
