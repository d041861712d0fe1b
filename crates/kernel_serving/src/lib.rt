// Serving: while somebody waits on a list that could be granted, the most urgent one is granted it.
#![tactic(auto)]

ghost use Rattle.std.specs.Prelude.{◌≡◌, true, ◌<◌};
ghost use Rattle.machine.specs.Granting.{servable};
ghost use Rattle.machine.specs.Serving.{next_served, grant_to};
ghost use Rattle.kernel_test.specs.Looks.{waits_ok};
ghost use Rattle.kernel_serving.specs.Served.{served, with_served, served_of};

use kernel_granting::{is_available, is_missing, no_writers, writers_of};
use kernel_sets::put_task;
use kernel_urgency::scan::{no_lead, urgency_of};
use lock::{Way, is_waiting};
use machine::{Running, State};

// A kernel whose waiting tasks have been served, and who was granted.
#[derive(Clone, Copy)]
pub struct Serviced {
    pub state: State,
    pub granted: u32,
}

// The most urgent task that waits on a list that could be granted, held or not. A task is given up at the first
// number of its list that isn't there for it: one labelled scan, and no call of could_be_granted (docs/DECISIONS.md,
// "Forms").
pub fn next_served(k: State) -> Running
    requires { waits_ok k ≡ true }
    ensures { result ≡ next_served k.counts.tasks k.places (served k 0) }
{
    let mut writers = no_writers();
    let mut lead = no_lead();
    // By number, since it names a task in its table, in places and in the lead.
    'tasks: for i in 0..k.counts.tasks as usize {
        let wait = k.tasks[i].wait;
        if !is_waiting(wait) {
            continue 'tasks;
        }
        let priority = k.tasks[i].current;
        let u = urgency_of(priority, k.places[i]);
        if lead.urgency <= u {
            continue 'tasks;
        }
        if is_missing(writers.known, wait) {
            writers = writers_of(k);
        }
        let list = k.tasks[i].list;
        let asked = &list[..k.tasks[i].len as usize];
        for &number in asked {
            let x = number as usize;
            let first = writers.first[x];
            if !is_available(
                k.locks.semaphores[x],
                k.locks.bolts[x],
                first,
                priority,
                wait,
            ) {
                continue 'tasks;
            }
        }
        lead = lead.against(u, i);
    }
    lead.who()
}

// Task i is granted the whole list that it waits on.
fn grant_to(mut k: State, i: usize) -> State
    requires k_value { waits_ok k ≡ true }
    requires i_lt_tasks { i < k.counts.tasks }
    requires i_value { servable k.counts.tasks k.tasks k.locks i ≡ true }
    ensures { result ≡ with_served (grant_to i (served k 0)) k }
{
    let t = k.tasks[i];
    let list = &t.list[..t.len as usize];
    k.locks = k.locks.move_all(Way::Take, t.wait, list);
    k.tasks[i] = t.wait_over();
    k
}

// While there is one to be served, the next is granted. Each grant ends a wait, so as many turns as tasks are enough.
pub fn serve(k: State, granted: u32) -> Serviced
    requires { waits_ok k ≡ true }
    ensures { (result.state ≡ with_served (served_of k granted) k) × (result.granted ≡ (served_of k granted).granted) }
{
    let turns = k.counts.tasks;
    let mut s = Serviced { state: k, granted };
    for turn in 0..turns {
        let Some(i) = next_served(s.state) else {
            return s;
        };
        let at = i as usize;
        s.state = grant_to(s.state, at);
        s.granted = put_task(at, s.granted);
    }
    s
}
