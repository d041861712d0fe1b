// What a program does with tasks: ACTIVATE, TERMINATE, SUSPEND, PREVENT, CONTINUE, end, RESUME.
ghost use Rattle.std.specs.Prelude.{◌≡◌};
ghost use Rattle.pearl.specs.Calls.{activate_call, terminate_call, suspend_call, prevent_call, continue_call, end_call, resume_call};

use crate::StartCondition;
use crate::fields::{plain_call, start_call};
use layout::{Call, Mark, NO_LIST};

// At once or by a start condition. Priority 0: the declared one.
pub fn activate(task: u8, priority: u8, start: StartCondition) -> Call
    ensures { result ≡ activate_call task priority start }
{
    start_call(Mark::AC, task, priority, start)
}

pub fn terminate(task: u8) -> Call
    ensures { result ≡ terminate_call task }
{
    plain_call(Mark::TE, task, 0, 0, NO_LIST, 0)
}

pub fn suspend(task: u8) -> Call
    ensures { result ≡ suspend_call task }
{
    plain_call(Mark::SU, task, 0, 0, NO_LIST, 0)
}

pub fn prevent(task: u8) -> Call
    ensures { result ≡ prevent_call task }
{
    plain_call(Mark::PR, task, 0, 0, NO_LIST, 0)
}

// At once or by a start condition without a period. Priority 0: the one current then.
pub fn continue_task(task: u8, priority: u8, start: StartCondition) -> Call
    ensures { result ≡ continue_call task priority start }
{
    start_call(Mark::CO, task, priority, start)
}

// The running task ends.
pub fn end() -> Call
    ensures { result ≡ end_call }
{
    plain_call(Mark::EN, 0, 0, 0, NO_LIST, 0)
}

// The running task is delayed by the first time, at kind 0, or suspended until its start condition comes due.
pub fn resume(start: StartCondition) -> Call
    ensures { result ≡ resume_call start }
{
    start_call(Mark::RE, 0, 0, start)
}
