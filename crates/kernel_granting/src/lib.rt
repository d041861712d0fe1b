// What could be granted, and the writers who wait, whom an ENTER lets go first.
#![tactic(auto)]

ghost use Rattle.std.specs.Prelude.{◌≡◌, true, not, ◌&&◌, List, [], ◌∷◌, ℕ, ◌<◌, ◌≤◌, ltb};
ghost use Rattle.lock.specs.Locks.{most_locks, same_kind};
ghost use Rattle.lock.specs.declared.Wait.TheVariants.{Reserve, Enter};
ghost use Rattle.lock.specs.declared.Locks.{Locks};
ghost use Rattle.task.specs.declared.Task.{Task};
ghost use Rattle.machine.specs.State.{most_tasks};
ghost use Rattle.machine.specs.Granting.{available, could_be_granted};
ghost use Rattle.kernel_granting.specs.Writers.{no_writers, Lowered, Told, TellsFor, Shows};
ghost use Rattle.kernel_granting.specs.declared.Writers.{Writers};
ghost use Rattle.lists.specs.Lists.{every};

use kernel_values::counts::in_list;
use lock::{Bolt, Locks, MOST_LOCKS, Wait, Way, can_move};
use machine::State;

// More than any priority.
const NO_WRITER: u16 = 256;

// For each bolt the smallest priority of a task that waits in a RESERVE naming it, once the tasks were looked at.
// The flag stays beside the table: `no_writers` and `Known` of specs/Writers speak of both.
#[derive(Clone, Copy)]
pub struct Writers {
    pub known: bool,
    pub first: [u16; MOST_LOCKS as usize],
}

// Before any task was looked at.
pub fn no_writers() -> Writers
    ensures { result ≡ no_writers }
{
    Writers {
        known: false,
        first: [NO_WRITER; MOST_LOCKS as usize],
    }
}

// Whether the tasks have to be looked at before a list of the kind w is tried: for an ENTER, and once.
pub fn is_missing(known: bool, w: Wait) -> bool
    ensures { result ≡ (same_kind w Enter && not known) }
{
    is_enter(w) & !known
}

fn is_enter(w: Wait) -> bool
    ensures { result ≡ same_kind w Enter }
{
    matches!(w, Wait::Enter)
}

fn is_reserve(w: Wait) -> bool
    ensures { result ≡ same_kind w Reserve }
{
    matches!(w, Wait::Reserve)
}

// A writer of this priority for number x, if x is a bolt's.
fn with_number(mut w: Writers, priority: u8, x: usize) -> Writers
    ensures { Lowered w priority (x ∷ []) result }
{
    if x < MOST_LOCKS as usize {
        w.first[x] = w.first[x].min(priority as u16);
    }
    w
}

// A writer of this priority for the numbers of a list.
fn with_list(w: Writers, priority: u8, list: &[u8]) -> Writers
    ensures { Lowered w priority list.now result }
{
    let mut now = w;
    for &x in list {
        now = with_number(now, priority, x as usize);
    }
    now
}

// One look at the tasks. A list need not have passed the test.
pub fn writers_of(k: State) -> Writers
    requires { k.counts.tasks ≤ most_tasks }
    ensures { Told k.counts.tasks k.tasks result }
{
    let mut w = no_writers();
    for t in &k.tasks[..k.counts.tasks as usize] {
        if is_reserve(t.wait) {
            w = with_list(w, t.current, &t.list[..in_list(t.len)]);
        }
    }
    Writers { known: true, ..w }
}

// Whether a number of the kind w, with this value, bolt and first writer, is there for one who asks at this priority.
pub fn is_available(v: u16, b: Bolt, first: u16, priority: u8, w: Wait) -> bool
    ensures { (l : Locks) (t : Writers) (x n : ℕ) (ts : List Task) → Shows l t x v b first → TellsFor w n ts t → result ≡ available n ts l priority w x }
{
    can_move(Way::Take, w, v, b) & (!is_enter(w) | ((priority as u16) < first))
}

// Whether the numbers of a list are all there.
pub fn could_be_granted(
    locks: &Locks,
    writers: &Writers,
    priority: u8,
    w: Wait,
    list: &[u8],
) -> bool
    requires { every (λ x. ltb x most_locks) list.now ≡ true }
    ensures { (n : ℕ) (ts : List Task) → TellsFor w n ts writers.now → result ≡ could_be_granted n ts locks.now priority w list.now }
{
    for &number in list {
        let x = number as usize;
        let first = writers.first[x];
        if !is_available(locks.semaphores[x], locks.bolts[x], first, priority, w) {
            return false;
        }
    }
    true
}
