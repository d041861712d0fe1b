// Time passes, by TI and SL: every task has its turn.
#![tactic(auto)]

ghost use Rattle.std.specs.Prelude.{◌≡◌, true, not, cond, ◌&&◌, eqb, ◌≤◌};
ghost use Rattle.calendar.specs.Limits.{day_length, last_instant, tick};
ghost use Rattle.calendar.specs.Times.{duration, plus};
ghost use Rattle.calendar.specs.Moments.{instant_or};
ghost use Rattle.lock.specs.Locks.{waiting};
ghost use Rattle.machine.specs.Running.{runner};
ghost use Rattle.machine.specs.NextEvent.{next_event};
ghost use Rattle.machine.specs.Test.{valid};
ghost use Rattle.machine.specs.Sorts.{sort_of};
ghost use Rattle.machine.specs.declared.Sort.TheVariants.{EveryTask};
ghost use Rattle.machine.specs.Refusals.{state_refusal};
ghost use Rattle.machine.specs.Calls.{arrive, arrival};
ghost use Rattle.machine.specs.Step.{finish, or_refuse};
ghost use Rattle.kernel_time.specs.Stirring.{may_come};
ghost use Rattle.layout.specs.Marks.{is};
ghost use Rattle.layout.specs.declared.Mark.TheVariants.{SL};
ghost use Rattle.layout.specs.declared.Call.{Call};

use calendar::{Duration, Instant, Moment, instant_or};
use kernel_finish::finished;
use kernel_next::{sooner_due, sooner_end};
use kernel_places::moved;
use kernel_refusals::time_refusal;
use kernel_sets::{Standing, put_if, put_marks};
use kernel_urgency::scan::{no_lead, place_if};
use kernel_values::answers::{answer_of, answered, begun_at, no_sets};
use layout::Mark;
use lock::{Wait, is_waiting};
use machine::{OnFile, Running, State, Stepped};
use task::Hold;

// Whether something may come at n to a task that is held so, with these next dues. It comes to no other.
fn may_come(hold: Hold, start: Instant, continuation: Instant, n: Instant) -> bool
    ensures { result ≡ may_come hold start continuation n }
{
    match hold {
        Hold::Delayed(_) => true,
        _ => (start == n) | (continuation == n),
    }
}

// Whether a task that waits has another priority than before: then who could be granted may have changed.
fn is_altered(wait: Wait, before: u8, after: u8) -> bool
    ensures { result ≡ (waiting wait && not (eqb after before)) }
{
    is_waiting(wait) & (after != before)
}

// Where TI and SL arrive: one tick later, or at the next event.
fn arrival(mark: Mark, now: Instant, next: Moment) -> Instant
    requires { now.0 ≤ last_instant }
    ensures { result ≡ cond (is mark SL) (instant_or now next) (plus now (duration tick)) }
{
    match mark {
        Mark::SL => instant_or(next, now),
        _ => now.plus(Duration(1)),
    }
}

// TI or SL: refused, or at the instant that it arrives at each declared task has its turn: those that something may
// come to; the others stay as they are. A task that can run keeps its priority, so the one that ran or one that had its
// turn runs. Those that a turn makes runnable have an event, and no others, so they stand behind all of their priority.
// No turn begins or ends a wait, so somebody is to be served only if one who waits has another priority. What comes next
// is found on the way. All of them end at one place: a second one would cost each a copy of the kernel.
pub fn arrived(mut k: State, mark: Mark, r: Running) -> Stepped
    requires mark_value { sort_of mark ≡ EveryTask }
    requires k_value { valid day_length k ≡ true }
    requires r_value { r ≡ runner k }
    requires next_value { k.file.next ≡ next_event k }
    ensures { (c : Call) → result ≡ or_refuse k (state_refusal mark k c) (finish k (arrive k (arrival mark k))) }
{
    if let Err(refusal) = time_refusal(mark, k.now, k.file.next) {
        return answered(k, refusal.number(), r);
    }
    let n = arrival(mark, k.now, k.file.next);
    let most = k.counts.tasks;
    let mut s = no_sets();
    let mut altered = false;
    let mut turned = 0;
    let mut next = None;
    let mut lead = no_lead();
    if let Some(j) = r {
        let at = j as usize;
        lead = lead.against_if(true, k.tasks[at].current, k.places[at], at);
    }
    // By number, since it names a task in its table, in places, sets and lead.
    for i in 0..most as usize {
        let alarm = k.tasks[i].schedule.alarm;
        if may_come(k.tasks[i].hold, alarm.next, k.tasks[i].continuation.next, n) {
            let t = k.tasks[i];
            let u = t.tick(n);
            let after = u.task;
            k.tasks[i] = after;
            s = put_marks(i, u.marks, s);
            altered = altered | is_altered(after.wait, t.current, after.current);
            let runs = after.is_runnable();
            let late = t.is_runnable() != runs;
            turned = put_if(i, late, turned);
            lead = lead.against_if(runs, after.current, place_if(late, k.places[i]), i);
        }
        next = sooner_due(next, n, k.tasks[i].continuation);
        next = sooner_due(next, n, k.tasks[i].schedule.alarm);
        next = sooner_end(next, n, k.tasks[i].hold);
    }
    let mut running = lead.who();
    if altered {
        let standing = Standing {
            runnable: turned,
            waiting: 0,
        };
        let z = finished(k, s, standing, next);
        k = z.state;
        s = z.answer.sets;
        running = z.answer.running;
    } else {
        k.places = moved(k.places, most, turned);
    }
    k.file = OnFile { running, next };
    Stepped {
        state: begun_at(k, n),
        answer: answer_of(0, running, s),
    }
}
