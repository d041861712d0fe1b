// Interrupts and time: TRIGGER, ENABLE, DISABLE, one tick of the clock, and sleep to the next event.
ghost use Rattle.std.specs.Prelude.{◌≡◌};
ghost use Rattle.pearl.specs.Calls.{trigger_call, enable_call, disable_call, tick_call, sleep_call};

use crate::fields::plain_call;
use layout::{Call, Mark, NO_LIST};

pub fn trigger(interrupt: u8) -> Call
    ensures { result ≡ trigger_call interrupt }
{
    plain_call(Mark::TG, interrupt, 0, 0, NO_LIST, 0)
}

pub fn enable(interrupt: u8) -> Call
    ensures { result ≡ enable_call interrupt }
{
    plain_call(Mark::EI, interrupt, 0, 0, NO_LIST, 0)
}

pub fn disable(interrupt: u8) -> Call
    ensures { result ≡ disable_call interrupt }
{
    plain_call(Mark::XI, interrupt, 0, 0, NO_LIST, 0)
}

pub fn tick() -> Call
    ensures { result ≡ tick_call }
{
    plain_call(Mark::TI, 0, 0, 0, NO_LIST, 0)
}

// To the next event.
pub fn sleep() -> Call
    ensures { result ≡ sleep_call }
{
    plain_call(Mark::SL, 0, 0, 0, NO_LIST, 0)
}
