// The five declarations. A place is filled in order, from 0.
ghost use Rattle.std.specs.Prelude.{◌≡◌};
ghost use Rattle.pearl.specs.Calls.{task_declaration, semaphore_declaration, bolt_declaration, interrupt_declaration, clock_declaration};

use crate::fields::plain_call;
use layout::{Call, Mark, NO_LIST};

pub fn declare_task(priority: u8) -> Call
    ensures { result ≡ task_declaration priority }
{
    plain_call(Mark::DT, 0, priority, 0, NO_LIST, 0)
}

pub fn declare_semaphore(preset: u32) -> Call
    ensures { result ≡ semaphore_declaration preset }
{
    plain_call(Mark::DS, 0, 0, 0, NO_LIST, preset)
}

pub fn declare_bolt() -> Call
    ensures { result ≡ bolt_declaration }
{
    plain_call(Mark::DB, 0, 0, 0, NO_LIST, 0)
}

pub fn declare_interrupt() -> Call
    ensures { result ≡ interrupt_declaration }
{
    plain_call(Mark::IT, 0, 0, 0, NO_LIST, 0)
}

// The time of day at instant 0.
pub fn declare_clock(time_of_day: u32) -> Call
    ensures { result ≡ clock_declaration time_of_day }
{
    plain_call(Mark::DC, 0, 0, 0, NO_LIST, time_of_day)
}
