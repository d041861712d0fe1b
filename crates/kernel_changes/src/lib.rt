// What a call does to the task that it is about and to the locks.
#![tactic(auto)]

pub mod activate;

ghost use Rattle.std.specs.Prelude.{◌≡◌, ℕ, ◌≤◌, List};
ghost use Rattle.calendar.specs.Limits.{day_length, last_instant};
ghost use Rattle.record.specs.Reading.{call_with};
ghost use Rattle.machine.specs.Sorts.{sort_of, asked_kind};
ghost use Rattle.machine.specs.Work.{by_turn, by_locks};
ghost use Rattle.machine.specs.Calls.{named_turn, runner_turn, ask_for, change_of};
ghost use Rattle.kernel_refusals.specs.Inner.{InOrder};
ghost use Rattle.kernel_granting.specs.Writers.{TellsFor, ForSome};
ghost use Rattle.kernel_changes.specs.Inner.{Returnable};
ghost use Rattle.task.specs.declared.Task.{Task};

use crate::activate::{activate_by, continue_by, resume_by};
use calendar::Instant;
use kernel_granting::{Writers, could_be_granted};
use layout::{Head, Mark, Numbers};
use lock::{Locks, Wait, Way};
use machine::{Change, Sort};
use task::{Marks, NO_MARKS, Task, Turn};

fn by_turn(locks: Locks, u: Turn) -> Change
    ensures { result ≡ by_turn locks u }
{
    Change {
        task: u.task,
        locks,
        marks: u.marks,
    }
}

fn by_locks(task: Task, locks: Locks, granted: bool) -> Change
    ensures { result ≡ by_locks task locks granted }
{
    let marks = Marks {
        granted,
        ..NO_MARKS
    };
    Change { task, locks, marks }
}

// The turn of the task that AC, TE, SU, PR or CO names.
#[tactic(auto, unfolding(machine::specs::Calls::named_turn))]
fn named_turn(t: Task, clock: u32, now: Instant, h: Head) -> Turn
    requires { now.0 ≤ last_instant }
    ensures { result ≡ named_turn day_length clock now h.mark h t }
{
    match h.mark {
        Mark::AC => activate_by(t, clock, now, h),
        Mark::TE => t.end(),
        Mark::SU => t.suspend(),
        Mark::PR => t.prevent(),
        _ => continue_by(t, clock, now, h),
    }
}

// The running task's turn at RE or EN.
#[tactic(auto, unfolding(machine::specs::Calls::runner_turn))]
fn runner_turn(t: Task, clock: u32, now: Instant, h: Head) -> Turn
    requires { now.0 ≤ last_instant }
    ensures { result ≡ runner_turn day_length clock now h.mark h t }
{
    match h.mark {
        Mark::RE => resume_by(t, clock, now, h),
        _ => t.end(),
    }
}

// The running task asks for a list: it is granted whole, or the task waits; a TRY doesn't wait.
#[tactic(auto, unfolding(machine::specs::Calls::ask_for))]
fn ask_for(
    w: Wait,
    waits: bool,
    h: Head,
    list: Numbers,
    t: Task,
    locks: Locks,
    writers: Writers,
) -> Change
    requires in_order { InOrder (call_with h list) }
    requires for_some { ForSome w writers }
    ensures { (n : ℕ) (ts : List Task) → TellsFor w n ts writers → result ≡ ask_for n ts w waits (call_with h list) t locks }
{
    let asked = &list[..h.len as usize];
    if could_be_granted(&locks, &writers, t.current, w, asked) {
        return by_locks(t, locks.move_all(Way::Take, w, asked), true);
    }
    if !waits {
        return by_locks(t, locks, false);
    }
    by_locks(t.wait_for(w, h.len, list), locks, false)
}

// What an accepted call of a sort does to the task that it is about and to the locks, at instant now.
#[tactic(auto, unfolding(machine::specs::Calls::change_of))]
pub fn change_of(
    sort: Sort,
    h: Head,
    list: Numbers,
    t: Task,
    locks: Locks,
    writers: Writers,
    clock: u32,
    now: Instant,
) -> Change
    requires le_last_instant { now.0 ≤ last_instant }
    requires in_order { InOrder (call_with h list) }
    requires sort_value { sort ≡ sort_of h.mark }
    requires returnable { Returnable sort locks (call_with h list) }
    requires for_some { ForSome (asked_kind sort) writers }
    ensures { (n : ℕ) (ts : List Task) → TellsFor (asked_kind sort) n ts writers → result ≡ change_of n ts day_length sort (call_with h list) clock now t locks }
{
    match sort {
        Sort::OneTask => by_turn(locks, named_turn(t, clock, now, h)),
        Sort::TheRunner => by_turn(locks, runner_turn(t, clock, now, h)),
        Sort::ListAsked(w, waits) => ask_for(w, waits, h, list, t, locks, writers),
        Sort::ListGiven(w) => by_locks(
            t,
            locks.move_all(Way::Give, w, &list[..h.len as usize]),
            false,
        ),
        Sort::Declaration | Sort::AnInterrupt | Sort::EveryTask => by_locks(t, locks, false),
    }
}
