// What comes due, and when: one alarm, and a schedule of starts.
#![tactic(auto)]

pub mod alarms;
pub mod schedules;

use calendar::{Duration, End, Instant, Moment};

// No alarm; one that waits for its next due; one that waits for its interrupt; one that its interrupt
// set off and that waits for its next due.
#[derive(Clone, Copy)]
pub enum Plan {
    None,
    Clock,
    Armed,
    Triggered,
}

// What comes due. Only a WHEN has an interrupt and a delay, which runs from the trigger; 0 is none.
#[derive(Clone, Copy)]
pub struct Alarm {
    pub plan: Plan,
    pub interrupt: u8,
    pub delay: Duration,
    pub next: Instant,
}

#[derive(Clone, Copy)]
pub struct Schedule {
    pub alarm: Alarm,
    pub last: Moment,
    pub end: End,
    pub period: u32,
    pub priority: u8,
}
