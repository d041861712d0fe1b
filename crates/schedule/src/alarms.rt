// One alarm: what a start kind sets, when it falls due, what a trigger sets off.
ghost use Rattle.std.specs.Prelude.{◌≡◌, ◌≤◌};
ghost use Rattle.calendar.specs.Limits.{day_length, last_instant, most_instant};
ghost use Rattle.schedule.specs.Alarms.{no_alarm, pending, listening, planned, set_for, armed, falls, listens, coming_at, rearmed, set_off, start_of, alarm_of};

use crate::{Alarm, Plan};
use calendar::{Duration, Instant, Start, first_due};
use record::kinds::is_on_interrupt;

impl Plan {
    // Something is to come at a known instant.
    pub fn is_pending(self) -> bool
        ensures { result ≡ pending self }
    {
        matches!(self, Plan::Clock | Plan::Triggered)
    }

    // A WHEN, set off or not.
    pub fn is_listening(self) -> bool
        ensures { result ≡ listening self }
    {
        matches!(self, Plan::Armed | Plan::Triggered)
    }

    // There is an alarm.
    pub fn is_planned(self) -> bool
        ensures { result ≡ planned self }
    {
        !matches!(self, Plan::None)
    }
}

// When a start of a kind first comes due.
fn start_of(kind: u8, first: u32) -> Start
    ensures { result ≡ start_of kind first }
{
    match kind {
        1 => Start::AtTime(first),
        2 | 4 => Start::After(Duration(first)),
        _ => Start::Now,
    }
}

impl Alarm {
    // No alarm.
    pub fn none() -> Alarm
        ensures { result ≡ no_alarm }
    {
        Alarm {
            plan: Plan::None,
            interrupt: 0,
            delay: Duration(0),
            next: Instant(0),
        }
    }

    // Comes due at n.
    fn set_for(n: Instant) -> Alarm
        ensures { result ≡ set_for n }
    {
        Alarm::none().coming_at(Plan::Clock, n)
    }

    // Waits for an interrupt, and comes due a delay after it.
    fn armed(interrupt: u8, delay: Duration) -> Alarm
        ensures { result ≡ armed interrupt delay }
    {
        Alarm {
            plan: Plan::Armed,
            interrupt,
            delay,
            ..Alarm::none()
        }
    }

    // Whether it comes due at n.
    pub fn falls_on(self, n: Instant) -> bool
        ensures { result ≡ falls n self }
    {
        self.plan.is_pending() & (self.next == n)
    }

    // Whether it is a WHEN on interrupt i.
    pub fn listens_to(self, i: u8) -> bool
        ensures { result ≡ listens i self }
    {
        self.plan.is_listening() & (self.interrupt == i)
    }

    pub(crate) fn coming_at(self, plan: Plan, n: Instant) -> Alarm
        ensures { result ≡ coming_at plan n self }
    {
        Alarm {
            plan,
            next: n,
            ..self
        }
    }

    // A WHEN waits for its interrupt again.
    pub fn rearmed(self) -> Alarm
        ensures { result ≡ rearmed self }
    {
        self.coming_at(Plan::Armed, self.next)
    }

    // What a trigger at n sets off.
    pub fn set_off(self, n: Instant) -> Alarm
        requires { n.0 ≤ last_instant }
        ensures { (result ≡ set_off n self) × (result.next.0 ≤ most_instant) }
    {
        self.coming_at(Plan::Triggered, n.plus(self.delay))
    }

    // The alarm of a start of a kind at n: WHEN waits for its interrupt, AT, AFTER and ALL have their first due.
    #[tactic(auto, unfolding(crate::specs::Alarms::alarm_of))]
    pub fn of_start(kind: u8, first: u32, interrupt: u8, clock: u32, n: Instant) -> Alarm
        requires { n.0 ≤ last_instant }
        ensures { (result ≡ alarm_of day_length clock n kind first interrupt) × (result.next.0 ≤ most_instant) }
    {
        if is_on_interrupt(kind) {
            return Alarm::armed(interrupt, Duration(first));
        }
        Alarm::set_for(first_due(start_of(kind, first), clock, n))
    }
}
