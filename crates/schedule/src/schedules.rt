// One schedule: what a due leaves of it, and how it begins.
ghost use Rattle.std.specs.Prelude.{◌≡◌, ◌≤◌};
ghost use Rattle.calendar.specs.Limits.{day_length, last_instant, most_instant};
ghost use Rattle.schedule.specs.Schedules.{no_schedule, with_alarm, advance, last_of, begin_with, triggered};

use crate::{Alarm, Schedule};
use calendar::{End, Instant, Moment, last_allowed, next_due};

// The last allowed due, counted from the one to come.
#[tactic(auto, unfolding(crate::specs::Schedules::last_of))]
fn last_of(end: End, clock: u32, alarm: Alarm) -> Moment
    requires { alarm.next.0 ≤ most_instant }
    ensures { result ≡ last_of day_length clock end alarm }
{
    if alarm.plan.is_pending() {
        return last_allowed(end, clock, alarm.next);
    }
    None
}

impl Schedule {
    pub fn none() -> Schedule
        ensures { result ≡ no_schedule }
    {
        Schedule {
            alarm: Alarm::none(),
            last: None,
            end: End::Open,
            period: 0,
            priority: 0,
        }
    }

    fn with_alarm(self, alarm: Alarm) -> Schedule
        ensures { result ≡ with_alarm alarm self }
    {
        Schedule { alarm, ..self }
    }

    // After a due at n.
    #[tactic(auto, unfolding(crate::specs::Schedules::advance))]
    pub fn advance(self, n: Instant) -> Schedule
        requires { n.0 ≤ most_instant }
        ensures { result ≡ advance n self }
    {
        match next_due(self.period, self.last, n) {
            Some(m) => self.with_alarm(self.alarm.coming_at(self.alarm.plan, m)),
            None if self.alarm.plan.is_listening() => self.with_alarm(self.alarm.rearmed()),
            None => Schedule::none(),
        }
    }

    // One that begins with an alarm.
    pub fn begin_with(alarm: Alarm, end: End, period: u32, priority: u8, clock: u32) -> Schedule
        requires { alarm.next.0 ≤ most_instant }
        ensures { result ≡ begin_with day_length clock alarm end period priority }
    {
        Schedule {
            alarm,
            last: last_of(end, clock, alarm),
            end,
            period,
            priority,
        }
    }

    // A trigger at n begins it anew.
    pub fn trigger(self, clock: u32, n: Instant) -> Schedule
        requires { n.0 ≤ last_instant }
        ensures { result ≡ triggered day_length clock n self }
    {
        let alarm = self.alarm.set_off(n);
        Schedule::begin_with(alarm, self.end, self.period, self.priority, clock)
    }
}
