// What ends every accepted call; of ticks and sleeps, those after which somebody may have to be served.
#![tactic(auto)]

ghost use Rattle.std.specs.Prelude.{◌≡◌, true, List};
ghost use Rattle.task.specs.declared.Task.{Task};
ghost use Rattle.machine.specs.NextEvent.{next_event};
ghost use Rattle.machine.specs.Test.{places_ok};
ghost use Rattle.machine.specs.Step.{finish};
ghost use Rattle.machine.specs.Work.{only_enabled};
ghost use Rattle.kernel_test.specs.Looks.{waits_ok};
ghost use Rattle.kernel_sets.specs.Standing.{Turned};
ghost use Rattle.kernel_finish.specs.Ends.{as_before, work_here, next_filed};

use calendar::Moment;
use kernel_places::{events_of, late_of, moved};
use kernel_serving::{next_served, serve};
use kernel_sets::{Standing, is_in, nobody_turned, put_if};
use kernel_urgency::scan::{can_run, no_lead, place_if};
use kernel_values::answers::{answer_of, begun_at, no_sets};
use kernel_values::counts::in_table;
use lock::is_waiting;
use machine::{OnFile, Sets, State, Stepped};

// So an accepted call ends, with next put on file. The kernel has had its work done, the sets say whom it marked, and
// turned for whom it has changed whether he is runnable or waits. The tasks are scanned, and once more if somebody was
// served. Where nobody waits, there is nobody to serve. The scan stands in the loop, and all calls end at one place: a
// call of it, or a second end, would cost each of them a copy of the kernel.
pub fn finished(mut k: State, m: Sets, turned: Standing, next: Moment) -> Stepped
    requires k_value { waits_ok k ≡ true }
    requires places_value { places_ok k.counts.tasks k.places ≡ true }
    ensures { (ts : List Task) → Turned k.counts.tasks ts k.tasks turned → result ≡ next_filed next (finish (as_before ts k) (work_here k m)) }
{
    let tasks = k.counts.tasks;
    let n = in_table(tasks);
    let mut granted = m.granted;
    let mut late = turned.runnable | m.started;
    let mut served = false;
    let mut before = turned;
    let mut after;
    let mut lead;
    loop {
        // Who is runnable, who waits and who leads, with the late ones behind all others of their priority.
        lead = no_lead();
        let mut runnable = 0;
        let mut waiting = 0;
        // By number, since it names a task in places, sets and lead alike.
        for i in 0..n {
            let wait = k.tasks[i].wait;
            let runs = can_run(k.tasks[i].alive, wait, k.tasks[i].hold);
            runnable = put_if(i, runs, runnable);
            waiting = put_if(i, is_waiting(wait), waiting);
            lead = lead.against_if(
                runs,
                k.tasks[i].current,
                place_if(is_in(i, late), k.places[i]),
                i,
            );
        }
        after = Standing { runnable, waiting };
        if served {
            break;
        }
        // The first scan also tells how the tasks stood before the call.
        before = after.turned_back(turned);
        if waiting == 0 {
            break;
        }
        if next_served(k).is_none() {
            break;
        }
        let s = serve(k, granted);
        k = s.state;
        granted = s.granted;
        late = late_of(before, m.started);
        served = true;
    }
    let events = events_of(before, after, m.started);
    k.places = moved(k.places, tasks, events);
    let running = lead.who();
    k.file = OnFile { running, next };
    Stepped {
        state: begun_at(k, k.now),
        answer: answer_of(0, running, Sets { granted, ..m }),
    }
}

// A call without effect ends.
pub fn done(k: State) -> Stepped
    requires next_value { k.file.next ≡ next_event k }
    requires k_value { waits_ok k ≡ true }
    requires places_value { places_ok k.counts.tasks k.places ≡ true }
    ensures { result ≡ finish k (only_enabled k k.enabled) }
{
    finished(k, no_sets(), nobody_turned(), k.file.next)
}
