// The order of urgency, who leads a scan of the tasks, and who can run.
ghost use Rattle.std.specs.Prelude.{◌≡◌, true, not, cond, ◌&&◌, ◌+◌, ◌*◌, ◌<◌};
ghost use Rattle.lock.specs.Locks.{waiting};
ghost use Rattle.task.specs.State.{unheld};
ghost use Rattle.machine.specs.State.{most_tasks};
ghost use Rattle.machine.specs.Running.{most_places};
ghost use Rattle.kernel_urgency.specs.Leads.{nobody, no_lead, against, whose, Weighed};

use lock::{Wait, is_waiting};
use machine::Running;
use task::Hold;

const MOST_TASKS: usize = machine::MOST_TASKS as usize;

// More than the urgency of any task: 256 * 255 + 255 is the largest.
pub const NOBODY: usize = 65536;

// The task that leads a scan, and how urgent it is. In two whole words: in less, the machine would put them together
// and take them apart at every task.
#[derive(Clone, Copy)]
pub struct Lead {
    pub urgency: usize,
    pub task: usize,
}

// Nobody leads.
pub fn no_lead() -> Lead
    ensures { result ≡ no_lead }
{
    Lead {
        urgency: NOBODY,
        task: MOST_TASKS,
    }
}

impl Lead {
    // Task i is held against the lead: the more urgent one leads.
    pub fn against(self, urgency: usize, i: usize) -> Lead
        requires { i < most_tasks }
        ensures { result ≡ against self true urgency i }
    {
        if self.urgency <= urgency {
            return self;
        }
        Lead { urgency, task: i }
    }

    // The same for a task that counts or not. Its place is looked at only if its priority isn't behind the lead's.
    pub fn against_if(self, counts: bool, current: u8, place: u8, i: usize) -> Lead
        requires { i < most_tasks }
        ensures { Weighed self counts (most_places * current + place) i result }
    {
        if !counts {
            return self;
        }
        if self.urgency < 256 * (current as usize) {
            return self;
        }
        self.against(urgency_of(current, place), i)
    }

    // The task that leads, or nobody.
    pub fn who(self) -> Running
        ensures { result ≡ whose self }
    {
        if MOST_TASKS <= self.task {
            return None;
        }
        Some(self.task as u8)
    }
}

// Current priority first, then place; smaller is more urgent.
pub fn urgency_of(current: u8, place: u8) -> usize
    ensures { (result ≡ most_places * current + place) × (result < nobody) }
{
    256 * (current as usize) + (place as usize)
}

// Where a task stands that goes to the end if it is late: then behind every place.
pub fn place_if(late: bool, place: u8) -> u8
    ensures { result ≡ cond late most_tasks place }
{
    if late { machine::MOST_TASKS } else { place }
}

// Whether a task with this life, wait and hold is runnable.
pub fn can_run(alive: bool, wait: Wait, hold: Hold) -> bool
    ensures { result ≡ (alive && unheld hold && not (waiting wait)) }
{
    alive && !is_waiting(wait) && hold.is_unheld()
}
