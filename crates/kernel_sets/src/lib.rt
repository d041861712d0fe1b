// Sets of tasks as numbers, in which task i counts 2^i. A task goes by its number, required to be below 32: a type for
// that would be made anew at each turn of a loop.
#![tactic(auto)]

ghost use Rattle.std.specs.Prelude.{◌≡◌, List, ℕ, ◌<◌};
ghost use Rattle.task.specs.declared.Task.{Task};
ghost use Rattle.machine.specs.State.{most_tasks};
ghost use Rattle.machine.specs.Sets.{put, holds};
ghost use Rattle.kernel_sets.specs.Puts.{put_if, put_marks};
ghost use Rattle.kernel_sets.specs.Standing.{Stands, Turned, with_turn};

use lock::is_waiting;
use machine::Sets;
use task::{Marks, Task};

// Who is runnable and who waits.
#[derive(Clone, Copy)]
pub struct Standing {
    pub runnable: u32,
    pub waiting: u32,
}

// Whether task i is in the set.
pub fn is_in(i: usize, set: u32) -> bool
    requires { i < most_tasks }
    ensures { result ≡ holds i set }
{
    (set >> i) & 1 == 1
}

// The set and task i.
pub fn put_task(i: usize, set: u32) -> u32
    requires { i < most_tasks }
    ensures { result ≡ put i set }
{
    set | (1 << i)
}

pub fn put_if(i: usize, b: bool, set: u32) -> u32
    requires { i < most_tasks }
    ensures { result ≡ put_if i b set }
{
    if b { put_task(i, set) } else { set }
}

// The sets with task i in those that its marks name.
pub fn put_marks(i: usize, m: Marks, s: Sets) -> Sets
    requires { i < most_tasks }
    ensures { result ≡ put_marks i m s }
{
    Sets {
        due: put_if(i, m.due, s.due),
        started: put_if(i, m.started, s.started),
        ended: put_if(i, m.ended, s.ended),
        lost: put_if(i, m.lost, s.lost),
        granted: put_if(i, m.granted, s.granted),
    }
}

// Nobody has turned.
pub fn nobody_turned() -> Standing
    ensures { (n : ℕ) (ts : List Task) → Turned n ts ts result }
{
    Standing {
        runnable: 0,
        waiting: 0,
    }
}

impl Standing {
    // Task i was t and is u: whether it has turned from runnable to not or back, and so for waiting.
    pub fn with_turn(self, i: usize, t: Task, u: Task) -> Standing
        requires { i < most_tasks }
        ensures { result ≡ with_turn i t u self }
    {
        let was = t.wait;
        let is = u.wait;
        let runnable = put_if(i, t.is_runnable() != u.is_runnable(), self.runnable);
        let waiting = put_if(i, is_waiting(was) != is_waiting(is), self.waiting);
        Standing { runnable, waiting }
    }

    // How the tasks stood before some turned.
    pub fn turned_back(self, turned: Standing) -> Standing
        ensures { (n : ℕ) (ts us : List Task) → Stands n us self → Turned n ts us turned → Stands n ts result }
    {
        Standing {
            runnable: self.runnable ^ turned.runnable,
            waiting: self.waiting ^ turned.waiting,
        }
    }
}
