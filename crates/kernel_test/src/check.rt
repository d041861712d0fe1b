// The kernel test: what passes it isn't refused with 1.
ghost use Rattle.std.specs.Prelude.{◌≡◌, true, ◌&&◌, List, ℕ, ◌≤◌};
ghost use Rattle.task.specs.declared.Task.{Task};
ghost use Rattle.kernel_test.specs.Looks.{at_ease, wait_settled, busy_ok};
ghost use Rattle.kernel_granting.specs.Writers.{TellsFor};
ghost use Rattle.calendar.specs.Limits.{day_length};
ghost use Rattle.schedule.specs.Alarms.{planned};
ghost use Rattle.machine.specs.Test.{most_priority, is_priority, is_stored, hold_ok, kept_ok, end_ok, moment_ok, listener_ok, alarm_ok, last_ok, terms_ok, schedule_ok, continuation_ok, counts_ok};

use calendar::{
    End, Instant, LONGEST_DURATION, MOST_INSTANT, Moment, is_duration, is_period, is_time_of_day,
};
use kernel_granting::{Writers, could_be_granted};
use kernel_values::counts::{are_below, count_of};
use layout::MOST_NUMBERS;
use lists::is_distinct;
use lock::{Locks, MOST_LOCKS, Wait, is_waiting};
use machine::{Counts, MOST_INTERRUPTS, MOST_TASKS};
use schedule::{Alarm, Schedule};
use task::{Hold, Task};

fn is_stored(n: Instant) -> bool
    ensures { result ≡ is_stored n }
{
    n.0 <= MOST_INSTANT
}

fn is_hold_ok(h: Hold) -> bool
    ensures { result ≡ hold_ok h }
{
    match h {
        Hold::Delayed(n) => is_stored(n),
        _ => true,
    }
}

// A priority is 1 to 255, and a byte can't be more.
fn is_priority(p: u8) -> bool
    ensures { result ≡ is_priority p }
{
    1 <= p
}

fn is_kept_ok(k: Option<u8>) -> bool
    ensures { result ≡ kept_ok k }
{
    k.is_none_or(is_priority)
}

fn is_end_ok(e: End) -> bool
    ensures { result ≡ end_ok day_length e }
{
    match e {
        End::Open => true,
        End::Until(t) => is_time_of_day(t),
        End::During(d) => is_duration(d.0),
    }
}

fn is_moment_ok(m: Moment) -> bool
    ensures { result ≡ moment_ok m }
{
    m.is_none_or(is_stored)
}

fn are_terms_ok(s: Schedule) -> bool
    ensures { result ≡ terms_ok day_length s }
{
    is_priority(s.priority) && is_period(s.period) && is_end_ok(s.end)
}

fn is_listener_ok(interrupts: u8, a: Alarm) -> bool
    ensures { result ≡ listener_ok interrupts a }
{
    (a.interrupt < interrupts) & (a.delay.0 <= LONGEST_DURATION)
}

// A WHEN waits for its interrupt; what is to come has its instant.
#[tactic(auto, unfolding(machine::specs::Test::alarm_ok))]
fn is_alarm_ok(interrupts: u8, a: Alarm) -> bool
    ensures { result ≡ alarm_ok interrupts a }
{
    (!a.plan.is_listening() || is_listener_ok(interrupts, a))
        && (!a.plan.is_pending() || is_stored(a.next))
}

// The last due, while one is to come.
fn is_last_ok(s: Schedule) -> bool
    ensures { result ≡ last_ok s }
{
    !s.alarm.plan.is_pending() || is_moment_ok(s.last)
}

// The test of a schedule that there is.
#[tactic(auto, unfolding(machine::specs::Test::schedule_ok))]
pub fn is_schedule_ok(interrupts: u8, s: Schedule) -> bool
    requires { planned s.alarm.plan ≡ true }
    ensures { result ≡ schedule_ok day_length interrupts s }
{
    is_alarm_ok(interrupts, s.alarm) && is_last_ok(s) && are_terms_ok(s)
}

// The test of a continuation that there is. Its priority can be any byte.
pub fn is_continuation_ok(interrupts: u8, a: Alarm) -> bool
    requires { planned a.plan ≡ true }
    ensures { (p : ℕ) → p ≤ most_priority → result ≡ continuation_ok interrupts a p }
{
    is_alarm_ok(interrupts, a)
}

pub fn are_priorities(p: u8, q: u8) -> bool
    ensures { result ≡ (is_priority p && is_priority q) }
{
    is_priority(p) && is_priority(q)
}

// A start is kept back for a living task alone, and with a priority.
pub fn is_kept_right(alive: bool, kept: Option<u8>) -> bool
    ensures { result ≡ (alive && kept_ok kept) }
{
    alive && is_kept_ok(kept)
}

// Waiting for nothing, unheld.
pub fn is_at_ease(wait: Wait, hold: Hold) -> bool
    ensures { result ≡ at_ease wait hold }
{
    !is_waiting(wait) && hold.is_unheld()
}

// A wait's list names one to four numbers, none twice, all declared, and could not be granted.
fn is_wait_settled(n: Counts, locks: Locks, writers: Writers, t: Task) -> bool
    requires { counts_ok n ≡ true }
    ensures { (ts : List Task) → TellsFor t.wait n.tasks ts writers → result ≡ wait_settled n ts locks t }
{
    if !is_waiting(t.wait) {
        return true;
    }
    if !((1 <= t.len) & (t.len <= MOST_NUMBERS)) {
        return false;
    }
    let list = &t.list[..t.len as usize];
    is_distinct(list)
        && are_below(list, count_of(n, t.wait))
        && !could_be_granted(&locks, &writers, t.current, t.wait, list)
}

// The test of a task that isn't at ease, beside its priorities, its schedule and a start kept back.
#[tactic(auto, unfolding(crate::specs::Looks::busy_ok))]
pub fn is_busy_ok(n: Counts, locks: Locks, writers: Writers, t: Task) -> bool
    requires { counts_ok n ≡ true }
    ensures { (ts : List Task) → TellsFor t.wait n.tasks ts writers → result ≡ busy_ok n ts locks t }
{
    t.alive && is_hold_ok(t.hold) && is_wait_settled(n, locks, writers, t)
}

pub fn are_counts_ok(n: Counts) -> bool
    ensures { result ≡ counts_ok n }
{
    (n.tasks <= MOST_TASKS)
        & (n.semaphores <= MOST_LOCKS)
        & (n.bolts <= MOST_LOCKS)
        & (n.interrupts <= MOST_INTERRUPTS)
}
