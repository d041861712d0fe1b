// The order of events: who has one in a call, and who goes to the end for it.
#![tactic(auto)]

pub mod seen;

ghost use Rattle.std.specs.Prelude.{◌≡◌, not, ◌||◌, List, ℕ, ◌<◌, ◌≤◌};
ghost use Rattle.task.specs.declared.Task.{Task};
ghost use Rattle.machine.specs.Places.{event, to_end, moved};
ghost use Rattle.machine.specs.Sets.{holds};
ghost use Rattle.machine.specs.State.{most_tasks};
ghost use Rattle.kernel_sets.specs.Standing.{Stands};

use kernel_sets::{Standing, is_in};
use machine::{MOST_TASKS, Places};

// Task i goes to the last of n places, and those behind it close up. All of the table is gone through, so that the
// machine can take many places at once.
fn to_end(mut places: Places, n: u8, i: usize) -> Places
    requires n_nonzero { 0 < n }
    requires i_lt_most_tasks { i < most_tasks }
    ensures { result ≡ to_end n i places }
{
    let p = places[i];
    for q in &mut places {
        if p < *q {
            *q -= 1;
        }
    }
    places[i] = n - 1;
    places
}

// The tasks with an event go to the end, in order of number. Mostly there is none.
pub fn moved(mut places: Places, n: u8, events: u32) -> Places
    requires { n ≤ most_tasks }
    ensures { result ≡ moved n (λ i. holds i events) places }
{
    if events == 0 {
        return places;
    }
    for i in 0..n as usize {
        if is_in(i, events) {
            // By a name: no proof is made yet of a call whose result is laid in the array that it was given.
            let next = to_end(places, n, i);
            places = next;
        }
    }
    places
}

// Of the runnable tasks those that have an event: they weren't runnable before, or were started.
pub fn late_of(before: Standing, started: u32) -> u32
    ensures { (i : ℕ) → i < most_tasks → holds i result ≡ (not (holds i before.runnable) || holds i started) }
{
    !before.runnable | started
}

// Who has an event: who became runnable or was started, and whose wait began.
pub fn events_of(before: Standing, after: Standing, started: u32) -> u32
    ensures { (n : ℕ) (ts us : List Task) → n ≤ most_tasks → Stands n ts before → Stands n us after → (i : ℕ) → i < n → holds i result ≡ event ts us started i }
{
    (after.runnable & late_of(before, started)) | (after.waiting & !before.waiting)
}
