// TRIGGER gives every task its turn, ENABLE and DISABLE none.
#![tactic(auto)]

ghost use Rattle.std.specs.Prelude.{◌≡◌, true, ◌≤◌, ◌<◌};
ghost use Rattle.calendar.specs.Limits.{day_length, last_instant};
ghost use Rattle.task.specs.Turns.{trigger_turn};
ghost use Rattle.machine.specs.State.{most_tasks, with_state};
ghost use Rattle.machine.specs.NextEvent.{next_event};
ghost use Rattle.machine.specs.Test.{places_ok, valid};
ghost use Rattle.machine.specs.Work.{every_turn};
ghost use Rattle.machine.specs.Calls.{trigger_in, enable_in, interrupt_by};
ghost use Rattle.machine.specs.Step.{finish};
ghost use Rattle.kernel_test.specs.Looks.{waits_ok};
ghost use Rattle.kernel_sets.specs.Standing.{Turned};

use kernel_finish::{done, finished};
use kernel_next::next_event;
use kernel_sets::{Standing, nobody_turned, put_marks};
use kernel_values::answers::no_sets;
use layout::{Head, Mark};
use machine::{Sets, State, Stepped};

// A kernel at work, the sets so far, and who turned.
#[derive(Clone, Copy)]
pub struct Working {
    pub state: State,
    pub sets: Sets,
    pub turned: Standing,
}

// Each declared task's turn at a trigger of the enabled interrupt.
fn trigger_all(mut k: State, interrupt: u8) -> Working
    requires tasks_le_most_tasks { k.counts.tasks ≤ most_tasks }
    requires k_le_last_instant { k.now.0 ≤ last_instant }
    ensures { (result.state ≡ with_state (every_turn k k.now (trigger_turn day_length k.clock k.now interrupt)).tasks k.locks k.enabled k) × (result.sets ≡ (every_turn k k.now (trigger_turn day_length k.clock k.now interrupt)).sets) × Turned k.counts.tasks k.tasks result.state.tasks result.turned }
{
    let most = k.counts.tasks as usize;
    let n = k.now;
    let clock = k.clock;
    let mut sets = no_sets();
    let mut turned = nobody_turned();
    // By number, since it names a task in its table and in the sets.
    for i in 0..most {
        let t = k.tasks[i];
        if t.listens_to(interrupt) {
            let u = t.trigger(clock, n, interrupt);
            k.tasks[i] = u.task;
            sets = put_marks(i, u.marks, sets);
            turned = turned.with_turn(i, t, u.task);
        }
    }
    Working {
        state: k,
        sets,
        turned,
    }
}

fn trigger_in(k: State, i: u8) -> Stepped
    requires next_value { k.file.next ≡ next_event k }
    requires k_value { valid day_length k ≡ true }
    requires i_lt_interrupts { i < k.counts.interrupts }
    ensures { result ≡ finish k (trigger_in day_length k i) }
{
    if k.enabled[i as usize] {
        let w = trigger_all(k, i);
        let next = next_event(w.state, k.now);
        return finished(w.state, w.sets, w.turned, next);
    }
    done(k)
}

// ENABLE and DISABLE.
fn enable_in(mut k: State, i: usize, b: bool) -> Stepped
    requires next_value { k.file.next ≡ next_event k }
    requires k_value { waits_ok k ≡ true }
    requires places_value { places_ok k.counts.tasks k.places ≡ true }
    requires i_lt_interrupts { i < k.counts.interrupts }
    ensures { result ≡ finish k (enable_in k i b) }
{
    k.enabled[i] = b;
    done(k)
}

// TRIGGER, ENABLE and DISABLE.
#[tactic(auto, unfolding(machine::specs::Calls::interrupt_by))]
pub fn interrupted(k: State, h: Head) -> Stepped
    requires next_value { k.file.next ≡ next_event k }
    requires k_value { valid day_length k ≡ true }
    requires number_lt_interrupts { h.number < k.counts.interrupts }
    ensures { result ≡ finish k (interrupt_by day_length h.mark k h.number) }
{
    match h.mark {
        Mark::TG => trigger_in(k, h.number),
        Mark::EI => enable_in(k, h.number as usize, true),
        _ => enable_in(k, h.number as usize, false),
    }
}
