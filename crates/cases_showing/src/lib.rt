// What the programs with cases share: the line of a reply, of the running task and of a number, a start condition, an alarm, and
// kernels with values written into them.
#![tactic(auto)]

ghost use Rattle.std.specs.Prelude.{◌≡◌, set};
ghost use Rattle.std.specs.Fn.{FnOnceReturnsAtMut};
ghost use Rattle.task.specs.Continuations.{with_next};
ghost use Rattle.machine.specs.State.{task_at, with_state};

use calendar::{Duration, Instant, LONGEST_DURATION, MOST_INSTANT};
use kernel::{Kernel, Reply, StartCondition};
use kernel_values::answers::plain_answer;
use lines::line_at;
use machine::{Answer, State};
use schedule::{Alarm, Plan};

// A duration beyond the longest, and an instant beyond the largest stored one.
pub const TOO_LONG: u32 = LONGEST_DURATION + 1;

pub const TOO_FAR: u64 = MOST_INSTANT + 1;

fn print_line<P: Print>(rt: &P, a: Answer) {
    let mut out = [0u8; 4096];
    let n = line_at(a, &mut out, 0);
    let _ = rt.write_all(&out[..n]);
}

// Prints the line of a reply, unless it answers an accepted declaration, and hands its kernel on.
pub fn show<P: Print>(rt: &P, r: Reply) -> Kernel
    ensures { result ≡ r.kernel }
{
    if (r.answer.number != 0) | r.kernel.state.begun {
        print_line(rt, r.answer);
    }
    r.kernel
}

// Prints the running task on file as the line of an accepted call.
pub fn show_running<P: Print>(rt: &P, kernel: Kernel) {
    print_line(rt, plain_answer(0, kernel.running()));
}

// Prints a number as the line of an answer with nothing else in it.
pub fn show_number<P: Print>(rt: &P, number: u8) {
    print_line(rt, plain_answer(number, None));
}

// A start of a kind with its first time, on interrupt 0, once.
pub fn start(kind: u8, first: u32) -> StartCondition
    ensures { result ≡ record { kind = kind; interrupt = 0; endkind = 0; first = first; period = 0; endtime = 0 } }
{
    StartCondition {
        kind,
        interrupt: 0,
        endkind: 0,
        first,
        period: 0,
        endtime: 0,
    }
}

// The kernel with a value written into it.
pub fn changed<C: FnOnce(&mut State)>(kernel: Kernel, change: C) -> Kernel
    requires { C.IsAlwaysCallable change }
    ensures { FnOnceReturnsAtMut C.FnOnce change kernel.state tt result.state }
{
    let mut k = kernel.state;
    change(&mut k);
    Kernel { state: k }
}

// An alarm of a plan: its interrupt, delay and next due.
pub fn alarm(plan: Plan, interrupt: u8, delay: u32, next: u64) -> Alarm
    ensures { result ≡ record { plan = plan; interrupt = interrupt; delay = record { 0 = delay }; next = record { 0 = next } } }
{
    Alarm {
        plan,
        interrupt,
        delay: Duration(delay),
        next: Instant(next),
    }
}

// The kernel with another continuation of task 0.
pub fn continuing(kernel: Kernel, continuation: Alarm) -> Kernel
    ensures { let k = kernel.state in result.state ≡ with_state (set k.tasks 0 (with_next continuation (task_at k.tasks 0))) k.locks k.enabled k }
{
    changed(kernel, |k| k.tasks[0].continuation = continuation)
}
