// A kernel in which nothing is declared.
ghost use Rattle.std.specs.Prelude.{◌≡◌};
ghost use Rattle.lock.specs.Locks.{empty_bolt};
ghost use Rattle.machine.specs.State.{fresh_task, nothing};

use calendar::Instant;
use layout::NO_LIST;
use lock::{Bolt, Locks, MOST_LOCKS, Wait};
use machine::{Counts, MOST_INTERRUPTS, MOST_TASKS, OnFile, State};
use schedule::{Alarm, Schedule};
use task::{Hold, Task};

// A task just declared: not alive, at its own priority, without a schedule or a continuation.
#[tactic(auto, unfolding(machine::specs::State::fresh_task))]
pub(crate) fn fresh_task(p: u8) -> Task
    ensures { result ≡ fresh_task p }
{
    Task {
        declared: p,
        current: p,
        alive: false,
        kept: None,
        wait: Wait::Nothing,
        len: 0,
        list: NO_LIST,
        given: 0,
        resumed: false,
        hold: Hold::Unheld,
        schedule: Schedule::none(),
        continuation: Alarm::none(),
    }
}

pub(crate) fn empty_bolt() -> Bolt
    ensures { result ≡ empty_bolt }
{
    Bolt {
        writer: false,
        readers: 0,
    }
}

// Nothing is declared.
#[tactic(auto, unfolding(machine::specs::State::nothing))]
pub fn fresh() -> State
    ensures { result ≡ nothing }
{
    State {
        tasks: [fresh_task(0); MOST_TASKS as usize],
        places: [0; MOST_TASKS as usize],
        locks: Locks {
            semaphores: [0; MOST_LOCKS as usize],
            bolts: [empty_bolt(); MOST_LOCKS as usize],
        },
        enabled: [false; MOST_INTERRUPTS as usize],
        counts: Counts {
            tasks: 0,
            semaphores: 0,
            bolts: 0,
            interrupts: 0,
        },
        clock: 0,
        now: Instant(0),
        begun: false,
        file: OnFile {
            running: None,
            next: None,
        },
    }
}
