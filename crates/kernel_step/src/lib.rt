// The step over bytes, equal to the machine's: the kernel test, then what refuses the record, then what its mark does.
// That a kernel has passed the test is a clause and no type: the next one passes by theorem (`StepPasses`), untested.
#![tactic(auto)]

ghost use Rattle.std.specs.Prelude.{◌≡◌, true};
ghost use Rattle.calendar.specs.Limits.{day_length};
ghost use Rattle.record.specs.Reading.{call_with};
ghost use Rattle.machine.specs.Running.{runner};
ghost use Rattle.machine.specs.Test.{kernel_refusal};
ghost use Rattle.machine.specs.Sorts.{sort_of, task_of};
ghost use Rattle.machine.specs.Refusals.{formal_refusal};
ghost use Rattle.machine.specs.Scripts.{one_tick};
ghost use Rattle.machine.specs.Step.{settle, step};
ghost use Rattle.kernel_values.specs.Sorts.{about_one};
ghost use Rattle.kernel_values.specs.Ticks.{is_tick, is_quiet};

use calendar::Duration;
use kernel_admitting::admit;
use kernel_changes::change_of;
use kernel_declaring::declared;
use kernel_finish::finished;
use kernel_granting::{is_missing, no_writers, writers_of};
use kernel_interrupts::interrupted;
use kernel_next::{next_event, soonest};
use kernel_refusals::state_refusal;
use kernel_sets::{nobody_turned, put_marks};
use kernel_time::arrived;
use kernel_values::answers::{answered, begun_at, no_sets};
use kernel_values::running::runner_at;
use kernel_values::sorts::asked_kind;
use kernel_values::ticks::{is_quiet, is_tick};
use layout::{Head, Mark, Numbers};
use machine::{Running, Sort, State, Stepped};
use record::Read;
use record::reader::number_of;

// What refuses a kernel whatever the record is, 1 or 16; with any other the step can go on.
pub use kernel_test::kernel_refusal;

// A call about task i and the locks: what refuses it, or what it does.
fn done_to(mut k: State, i: usize, sort: Sort, h: Head, list: Numbers, r: Running) -> Stepped
    requires k_value { kernel_refusal day_length k ≡ 0 }
    requires r_value { r ≡ runner k }
    requires list_value { formal_refusal day_length k.counts k.begun (call_with h list) ≡ 0 }
    requires sort_value { sort ≡ sort_of h.mark }
    requires sort_value_2 { about_one sort ≡ true }
    requires i_value { i ≡ task_of sort h r }
    ensures { result ≡ settle day_length k (call_with h list) }
{
    let t = k.tasks[i];
    let mut next = k.file.next;
    if let Err(refusal) = state_refusal(sort, h, list, r, t, k.locks, k.now, next) {
        return answered(k, refusal.number(), r);
    }
    let mut writers = no_writers();
    if is_missing(writers.known, asked_kind(sort)) {
        writers = writers_of(k);
    }
    let c = change_of(sort, h, list, t, k.locks, writers, k.clock, k.now);
    k.tasks[i] = c.task;
    k.locks = c.locks;
    let turned = nobody_turned().with_turn(i, t, c.task);
    if soonest(k.now, t) != soonest(k.now, c.task) {
        next = next_event(k, k.now);
    }
    finished(k, put_marks(i, c.marks, no_sets()), turned, next)
}

// A tick before the next event only moves the instant.
fn quiet_tick(k: State) -> Stepped
    requires k_value { kernel_refusal day_length k ≡ 0 }
    requires next_value { is_quiet k.now k.file.next ≡ true }
    ensures { result ≡ step day_length k one_tick }
{
    let r = k.file.running;
    answered(begun_at(k, k.now.plus(Duration(1))), 0, r)
}

// The step on a kernel that is refused with neither 1 nor 16: its running task and next event are on file. Whether the
// record is a tick has been asked.
pub fn step_on(k: State, tick: bool, s: &[u8]) -> Stepped
    requires k_value { kernel_refusal day_length k ≡ 0 }
    requires tick_value { tick ≡ is_tick s.now }
    ensures { result ≡ step day_length k s.now }
{
    let r = k.file.running;
    if tick {
        return arrived(k, Mark::TI, r);
    }
    let a = admit(k.counts, k.begun, s);
    let Ok(head) = a.answer else {
        return answered(k, number_of(a.answer), r);
    };
    let sort = a.sort;
    let list = a.list;
    match sort {
        Sort::Declaration => declared(k, head),
        Sort::EveryTask => arrived(k, head.mark, r),
        Sort::AnInterrupt => interrupted(k, head),
        Sort::OneTask => done_to(k, head.number as usize, sort, head, list, r),
        _ => done_to(k, runner_at(r), sort, head, list, r),
    }
}

// The machine's step. A tick before the next event takes the short way.
pub fn step(k: State, s: &[u8]) -> Stepped
    ensures { result ≡ step day_length k s.now }
{
    let refused = kernel_refusal(k);
    if let Err(refusal) = refused {
        return answered(k, refusal.number(), None);
    }
    let tick = is_tick(s);
    if tick & is_quiet(k.now, k.file.next) {
        return quiet_tick(k);
    }
    step_on(k, tick, s)
}
