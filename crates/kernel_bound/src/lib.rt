// How long a waiting task waits: after how many RELEASEs a task that waits for one semaphore is granted.
#![tactic(auto)]

ghost use Rattle.std.specs.Prelude.{◌≡◌, ◌&&◌, ◌+◌, ◌*◌, ◌<◌, ◌≤◌, ltb, eqb};
ghost use Rattle.lock.specs.Locks.{same_kind};
ghost use Rattle.lock.specs.declared.Wait.TheVariants.{Request};
ghost use Rattle.machine.specs.State.{most_tasks};
ghost use Rattle.machine.specs.Running.{most_places};
ghost use Rattle.wait_bound.specs.Queue.{queues, ahead, bound_of};

use kernel_urgency::scan::urgency_of;
use kernel_values::counts::{in_list, in_table};
use lists::is_named;
use lock::Wait;
use machine::State;
use task::Task;
use wait_bound::{Bound, Releases};

fn is_request(w: Wait) -> bool
    ensures { result ≡ same_kind w Request }
{
    matches!(w, Wait::Request)
}

// Whether a task waits in a REQUEST whose list names s.
fn is_queued(t: Task, s: u8) -> bool
    ensures { result ≡ queues s t }
{
    is_request(t.wait) && is_named(&t.list[..in_list(t.len)], s)
}

// Whether a task at this place is ahead of one with this urgency.
fn is_ahead(t: Task, place: u8, s: u8, urgency: usize) -> bool
    ensures { result ≡ (queues s t && ltb (most_places * t.current + place) urgency) }
{
    is_queued(t, s) && urgency_of(t.current, place) < urgency
}

// How many tasks are ahead of j on semaphore s.
fn ahead(k: State, s: u8, j: usize) -> u8
    requires { j < most_tasks }
    ensures { (result ≡ ahead k s j) × (result ≤ most_tasks) }
{
    let n = in_table(k.counts.tasks);
    let urgency = urgency_of(k.tasks[j].current, k.places[j]);
    let mut count = 0;
    // By number: two arrays side by side, zipped, filtered and counted, say no more and give a usize.
    for i in 0..n {
        if is_ahead(k.tasks[i], k.places[i], s, urgency) {
            count += 1;
        }
    }
    count
}

// Whether a wait is a REQUEST of one semaphore.
fn is_for_one(w: Wait, len: u8) -> bool
    ensures { result ≡ (same_kind w Request && eqb len 1) }
{
    is_request(w) && len == 1
}

// By when a task is granted, of any kernel and for any task number.
pub fn bound_of(k: State, task: u8) -> Bound
    ensures { result ≡ bound_of k task }
{
    let j = task as usize;
    if in_table(k.counts.tasks) <= j {
        return None;
    }
    if !is_for_one(k.tasks[j].wait, k.tasks[j].len) {
        return None;
    }
    let semaphore = k.tasks[j].list[0];
    let number = ahead(k, semaphore, j) + 1;
    Some(Releases { semaphore, number })
}
