// The kernel test, refusals 1 and 16. One look at a kernel tells its running task and its next event too.
#![tactic(auto)]

pub mod check;
pub mod file;

ghost use Rattle.std.specs.Prelude.{◌≡◌};
ghost use Rattle.calendar.specs.Limits.{day_length};
ghost use Rattle.record.specs.Numbers.{refused_with};
ghost use Rattle.machine.specs.Test.{kernel_refusal};
ghost use Rattle.kernel_test.specs.Looks.{surveyed};

use crate::check::{
    are_counts_ok, are_priorities, is_at_ease, is_busy_ok, is_continuation_ok, is_kept_right,
    is_schedule_ok,
};
use crate::file::file_refusal;
use calendar::{LAST_INSTANT, is_time_of_day};
use kernel_granting::{is_missing, no_writers, writers_of};
use kernel_next::{sooner_due, sooner_end};
use kernel_places::seen::none_seen;
use kernel_urgency::scan::no_lead;
use machine::{OnFile, State};
use record::refusals::Refusal;

// A kernel that passes the test has this to have on file: its running task and its next event. One that fails has
// nothing. A task that waits or is held can't run, so it is not held against the lead.
pub fn surveyed(k: State) -> Option<OnFile>
    ensures { result ≡ surveyed day_length k }
{
    if !((k.now.0 <= LAST_INSTANT) & is_time_of_day(k.clock) & are_counts_ok(k.counts)) {
        return None;
    }
    let n = k.counts.tasks as usize;
    let mut writers = no_writers();
    let mut soonest = None;
    let mut seen = none_seen();
    let mut lead = no_lead();
    // By number, since it names a task in its table, in places and in the lead.
    for i in 0..n {
        let place = k.places[i];
        seen = seen.with(place);
        if !are_priorities(k.tasks[i].declared, k.tasks[i].current) {
            return None;
        }
        if k.tasks[i].continuation.plan.is_planned() {
            if !is_continuation_ok(k.counts.interrupts, k.tasks[i].continuation) {
                return None;
            }
            soonest = sooner_due(soonest, k.now, k.tasks[i].continuation);
        }
        if k.tasks[i].schedule.alarm.plan.is_planned() {
            if !is_schedule_ok(k.counts.interrupts, k.tasks[i].schedule) {
                return None;
            }
            soonest = sooner_due(soonest, k.now, k.tasks[i].schedule.alarm);
        }
        if k.tasks[i].kept.is_some() {
            if !is_kept_right(k.tasks[i].alive, k.tasks[i].kept) {
                return None;
            }
        }
        if !is_at_ease(k.tasks[i].wait, k.tasks[i].hold) {
            if is_missing(writers.known, k.tasks[i].wait) {
                writers = writers_of(k);
            }
            if !is_busy_ok(k.counts, k.locks, writers, k.tasks[i]) {
                return None;
            }
            soonest = sooner_end(soonest, k.now, k.tasks[i].hold);
            continue;
        }
        lead = lead.against_if(k.tasks[i].alive, k.tasks[i].current, place, i);
    }
    if seen.are_wrong(n) {
        return None;
    }
    Some(OnFile {
        running: lead.who(),
        next: soonest,
    })
}

// 1 or 16, unless the kernel passes the test and has its running task and its next event on file.
pub fn kernel_refusal(k: State) -> Result<(), Refusal>
    ensures { refused_with result ≡ kernel_refusal day_length k }
{
    file_refusal(surveyed(k), k.file)
}
