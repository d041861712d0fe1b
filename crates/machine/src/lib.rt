// The rack kernel's state, and what a step hands back.
#![tactic(auto)]

use calendar::{Instant, Moment};
use lock::{Locks, Wait};
use task::{Marks, Task};

pub const MOST_TASKS: u8 = 32;

pub const MOST_INTERRUPTS: u8 = 8;

// A number for each task.
pub type Places = [u8; MOST_TASKS as usize];

// What a mark is about.
#[derive(Clone, Copy)]
pub enum Sort {
    // DT, DS, DB, IT, DC
    Declaration,
    // The task that the call names: AC, TE, SU, PR, CO.
    OneTask,
    // EN, RE
    TheRunner,
    // A list that the running task asks for, and whether it waits for it: RQ, TR, RS, ET.
    ListAsked(Wait, bool),
    // RL, FR, LV
    ListGiven(Wait),
    // TG, EI, XI
    AnInterrupt,
    // TI, SL
    EveryTask,
}

// What a call does to the task that it is about and to the locks, and which sets have the task.
#[derive(Clone, Copy)]
pub struct Change {
    pub task: Task,
    pub locks: Locks,
    pub marks: Marks,
}

// How many of each kind are declared.
#[derive(Clone, Copy)]
pub struct Counts {
    pub tasks: u8,
    pub semaphores: u8,
    pub bolts: u8,
    pub interrupts: u8,
}

#[derive(Clone, Copy)]
pub struct State {
    pub tasks: [Task; MOST_TASKS as usize],
    // Of each task its place in the order of events. Beside the tasks, since a move goes through all places at once.
    pub places: Places,
    pub locks: Locks,
    pub enabled: [bool; MOST_INTERRUPTS as usize],
    pub counts: Counts,
    // The time of day at instant 0.
    pub clock: u32,
    pub now: Instant,
    // Whether a call was accepted yet.
    pub begun: bool,
    pub file: OnFile,
}

// The running task, or none.
pub type Running = Option<u8>;

// What a kernel has on file, so that nobody needs to look for it.
#[derive(Clone, Copy)]
pub struct OnFile {
    pub running: Running,
    // When something next comes to a task without another call.
    pub next: Moment,
}

// Sets of tasks, in which task i counts 2^i.
#[derive(Clone, Copy)]
pub struct Sets {
    pub due: u32,
    pub started: u32,
    pub ended: u32,
    pub lost: u32,
    pub granted: u32,
}

// A number, 0 or a refusal; the running task; and the sets. Programs print the number (`line`), and the laws of answers
// count with it (`RefusalsAreNumbered`).
#[derive(Clone, Copy)]
pub struct Answer {
    pub number: u8,
    pub running: Running,
    pub sets: Sets,
}

#[derive(Clone, Copy)]
pub struct Stepped {
    pub state: State,
    pub answer: Answer,
}
