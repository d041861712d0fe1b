// Declarations: the next place of the kind is filled whole.
#![tactic(auto)]

pub mod fresh;

ghost use Rattle.std.specs.Prelude.{◌≡◌, List, ℕ, ◌<◌};
ghost use Rattle.calendar.specs.Limits.{day_length};
ghost use Rattle.record.specs.Reading.{call_with};
ghost use Rattle.machine.specs.Refusals.{formal_refusal};
ghost use Rattle.machine.specs.NextEvent.{file_of};
ghost use Rattle.machine.specs.State.{most_tasks, most_semaphores, most_bolts, most_interrupts, with_clock, with_file};
ghost use Rattle.machine.specs.Calls.{add_task, add_semaphore, add_bolt, add_interrupt, declaration};
ghost use Rattle.machine.specs.Step.{declared, answered};

use crate::fresh::{empty_bolt, fresh_task};
use kernel_values::answers::answered;
use layout::{Head, Mark};
use machine::{OnFile, State, Stepped};

#[tactic(auto, unfolding(machine::specs::Calls::add_task))]
pub(crate) fn add_task(mut k: State, p: u8) -> State
    requires { k.counts.tasks < most_tasks }
    ensures { result ≡ add_task p k }
{
    let n = k.counts.tasks;
    k.tasks[n as usize] = fresh_task(p);
    k.places[n as usize] = n;
    k.counts.tasks = n + 1;
    k
}

#[tactic(auto, unfolding(machine::specs::Calls::add_semaphore))]
pub(crate) fn add_semaphore(mut k: State, v: u16) -> State
    requires { k.counts.semaphores < most_semaphores }
    ensures { result ≡ add_semaphore v k }
{
    let n = k.counts.semaphores;
    k.locks.semaphores[n as usize] = v;
    k.counts.semaphores = n + 1;
    k
}

#[tactic(auto, unfolding(machine::specs::Calls::add_bolt))]
pub(crate) fn add_bolt(mut k: State) -> State
    requires { k.counts.bolts < most_bolts }
    ensures { result ≡ add_bolt k }
{
    let n = k.counts.bolts;
    k.locks.bolts[n as usize] = empty_bolt();
    k.counts.bolts = n + 1;
    k
}

#[tactic(auto, unfolding(machine::specs::Calls::add_interrupt))]
pub(crate) fn add_interrupt(mut k: State) -> State
    requires { k.counts.interrupts < most_interrupts }
    ensures { result ≡ add_interrupt k }
{
    let n = k.counts.interrupts;
    k.enabled[n as usize] = false;
    k.counts.interrupts = n + 1;
    k
}

pub(crate) fn set_clock(mut k: State, t: u32) -> State
    ensures { result ≡ with_clock t k }
{
    k.clock = t;
    k
}

// A declaration leaves this kernel with what was on file: its task runs on.
fn with_file(mut k: State, file: OnFile) -> Stepped
    ensures { result ≡ answered (with_file file k) 0 file.running }
{
    k.file = file;
    answered(k, 0, file.running)
}

// An accepted declaration; the answer's sets are empty.
pub fn declared(k: State, h: Head) -> Stepped
    requires file_value { k.file ≡ file_of k }
    requires by_index { (l : List ℕ) × (formal_refusal day_length k.counts k.begun (call_with h l) ≡ 0) }
    ensures { (l : List ℕ) → result ≡ declared k (declaration h.mark (call_with h l) k) }
{
    let file = k.file;
    match h.mark {
        Mark::DT => with_file(add_task(k, h.priority), file),
        Mark::DS => with_file(add_semaphore(k, (h.first % 65536) as u16), file),
        Mark::DB => with_file(add_bolt(k), file),
        Mark::IT => with_file(add_interrupt(k), file),
        Mark::DC => with_file(set_clock(k, h.first), file),
        _ => with_file(k, file),
    }
}
