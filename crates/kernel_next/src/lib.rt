// The next event.
#![tactic(auto)]

ghost use Rattle.std.specs.Prelude.{◌≡◌, ◌≤◌, Some};
ghost use Rattle.calendar.specs.Moments.{sooner, first_after};
ghost use Rattle.schedule.specs.Coming.{next_of};
ghost use Rattle.task.specs.Coming.{delay_end, pendings};
ghost use Rattle.machine.specs.State.{most_tasks};
ghost use Rattle.machine.specs.NextEvent.{next_among};

use calendar::{Instant, Moment};
use machine::State;
use schedule::Alarm;
use task::{Hold, Task};

// The earlier of s and n, where n is later than now.
fn sooner(s: Moment, now: Instant, n: Instant) -> Moment
    ensures { result ≡ sooner now (Some n) s }
{
    if n.0 <= now.0 {
        return s;
    }
    match s {
        Some(m) => Some(Instant(m.0.min(n.0))),
        None => Some(n),
    }
}

// The earlier of s and the next due of an alarm, if it is to come.
pub fn sooner_due(s: Moment, now: Instant, alarm: Alarm) -> Moment
    ensures { result ≡ sooner now (next_of alarm) s }
{
    if alarm.plan.is_pending() {
        return sooner(s, now, alarm.next);
    }
    s
}

// The earlier of s and the end of a delay, if it is to come.
pub fn sooner_end(s: Moment, now: Instant, hold: Hold) -> Moment
    ensures { result ≡ sooner now (delay_end hold) s }
{
    match hold {
        Hold::Delayed(n) => sooner(s, now, n),
        _ => s,
    }
}

// The first that comes to a task after now.
#[tactic(auto, unfolding(calendar::specs::Moments::first_after))]
pub fn soonest(now: Instant, t: Task) -> Moment
    ensures { result ≡ first_after now (pendings t) }
{
    let s = sooner_due(None, now, t.continuation);
    sooner_end(sooner_due(s, now, t.schedule.alarm), now, t.hold)
}

// The first that comes to a declared task after now, or never.
pub fn next_event(k: State, now: Instant) -> Moment
    requires { k.counts.tasks ≤ most_tasks }
    ensures { result ≡ next_among now k.counts.tasks k.tasks }
{
    let mut soonest = None;
    for t in &k.tasks[..k.counts.tasks as usize] {
        soonest = sooner_due(soonest, now, t.continuation);
        soonest = sooner_end(sooner_due(soonest, now, t.schedule.alarm), now, t.hold);
    }
    soonest
}
