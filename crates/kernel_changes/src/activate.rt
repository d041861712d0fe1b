// What ACTIVATE, CONTINUE and RESUME do to their task, at once or on a schedule.
ghost use Rattle.std.specs.Prelude.{◌≡◌, ◌≤◌};
ghost use Rattle.calendar.specs.Limits.{day_length, last_instant, most_instant};
ghost use Rattle.machine.specs.Activation.{end_of, alarm_by, schedule_of, activate_by, continue_by, resume_by};

use calendar::{Duration, End, Instant};
use layout::Head;
use schedule::{Alarm, Schedule};
use task::continuations::or_else;
use task::{Task, Turn};

#[tactic(auto, unfolding(machine::specs::Activation::end_of))]
fn end_of(endkind: u8, t: u32) -> End
    ensures { result ≡ end_of endkind t }
{
    match endkind {
        0 => End::Open,
        1 => End::Until(t),
        _ => End::During(Duration(t)),
    }
}

// The alarm that a call at n sets.
fn alarm_by(clock: u32, n: Instant, h: Head) -> Alarm
    requires { n.0 ≤ last_instant }
    ensures { (result ≡ alarm_by day_length clock n h) × (result.next.0 ≤ most_instant) }
{
    Alarm::of_start(h.kind, h.first, h.interrupt, clock, n)
}

// The schedule that an activation at n gives a task, with the priority p.
#[tactic(auto, unfolding(machine::specs::Activation::schedule_of))]
fn schedule_of(clock: u32, n: Instant, h: Head, p: u8) -> Schedule
    requires { n.0 ≤ last_instant }
    ensures { result ≡ schedule_of day_length clock n h p }
{
    let alarm = alarm_by(clock, n, h);
    let end = end_of(h.endkind, h.endtime);
    Schedule::begin_with(alarm, end, h.period, p, clock)
}

// Kind 0 is due for the task; another kind replaces its schedule.
#[tactic(auto, unfolding(machine::specs::Activation::activate_by))]
pub(crate) fn activate_by(t: Task, clock: u32, n: Instant, h: Head) -> Turn
    requires { n.0 ≤ last_instant }
    ensures { result ≡ activate_by day_length clock n h t }
{
    let p = or_else(h.priority, t.declared);
    if h.kind == 0 {
        return t.due(p);
    }
    let s = schedule_of(clock, n, h, p);
    t.plan(s, n)
}

// CONTINUE: kind 0 unholds the task; another kind replaces its continuation.
#[tactic(auto, unfolding(machine::specs::Activation::continue_by))]
pub(crate) fn continue_by(t: Task, clock: u32, n: Instant, h: Head) -> Turn
    requires { n.0 ≤ last_instant }
    ensures { result ≡ continue_by day_length clock n h t }
{
    if h.kind == 0 {
        return t.go_on(h.priority);
    }
    t.go_on_later(alarm_by(clock, n, h), h.priority, false, n)
}

// RESUME: kind 0 delays the running task; another kind suspends it and replaces its continuation.
#[tactic(auto, unfolding(machine::specs::Activation::resume_by))]
pub(crate) fn resume_by(t: Task, clock: u32, n: Instant, h: Head) -> Turn
    requires { n.0 ≤ last_instant }
    ensures { result ≡ resume_by day_length clock n h t }
{
    if h.kind == 0 {
        return t.delay(n.plus(Duration(h.first)));
    }
    t.rest(alarm_by(clock, n, h), n)
}
