// One task: its priorities, wait, hold, kept-back start, schedule and continuation.
#![tactic(auto)]

pub mod continuations;
pub mod turns;

use calendar::Instant;
use layout::Numbers;
use lock::Wait;
use schedule::{Alarm, Schedule};

#[derive(Clone, Copy)]
pub enum Hold {
    Unheld,
    Suspended,
    Delayed(Instant),
}

// A continuation has three parts: its alarm, the priority that it gives (0: the one current then), and whether a RESUME
// made it. The last two stand where the fields before the hold leave room, so it takes 16 bytes of a task and not 24.
#[derive(Clone, Copy)]
pub struct Task {
    pub declared: u8,
    pub current: u8,
    pub alive: bool,
    // The priority of the start that waits for the task to end, if there is one.
    pub kept: Option<u8>,
    pub wait: Wait,
    // The list that it waits on, in fixed room, and how many of it are in use.
    pub len: u8,
    pub list: Numbers,
    pub given: u8,
    pub resumed: bool,
    pub hold: Hold,
    pub schedule: Schedule,
    pub continuation: Alarm,
}

// Which of an answer's five sets have a task.
#[derive(Clone, Copy)]
pub struct Marks {
    pub due: bool,
    pub started: bool,
    pub ended: bool,
    pub lost: bool,
    pub granted: bool,
}

// No set has the task.
pub const NO_MARKS: Marks = Marks {
    due: false,
    started: false,
    ended: false,
    lost: false,
    granted: false,
};

// What happens to one task in a call.
#[derive(Clone, Copy)]
pub struct Turn {
    pub task: Task,
    pub marks: Marks,
}
