// Calls the methods as a program would, and prints their lines. stdout has the lines that document 01 gives.
#![tactic(auto)]

use calendar::{DAY_LENGTH, End, Instant, LAST_INSTANT};
use cases_showing::{TOO_FAR, TOO_LONG, alarm, changed, continuing, show, show_running, start};
use kernel::Kernel;
use schedule::Plan;

// Half of the day is over.
const NOON: u32 = DAY_LENGTH / 2;

// Two tasks ask for a semaphore and a bolt.
fn locks<P: Print>(rt: &P) {
    let mut kernel = Kernel::fresh();
    kernel = show(rt, kernel.declare_task(5));
    kernel = show(rt, kernel.declare_task(3));
    kernel = show(rt, kernel.declare_semaphore(1));
    kernel = show(rt, kernel.declare_bolt());
    kernel = show(rt, kernel.activate(0, 0, start(0, 0)));
    kernel = show(rt, kernel.request(1, [0; 4]));
    kernel = show(rt, kernel.activate(1, 0, start(0, 0)));
    kernel = show(rt, kernel.try_request(0));
    kernel = show(rt, kernel.request(1, [0; 4]));
    kernel = show(rt, kernel.release(1, [0; 4]));
    kernel = show(rt, kernel.reserve(1, [0; 4]));
    kernel = show(rt, kernel.free(1, [0; 4]));
    kernel = show(rt, kernel.enter(1, [0; 4]));
    kernel = show(rt, kernel.leave(1, [0; 4]));
    show(rt, kernel.leave(1, [0; 4]));
}

// Holds and delays, and the ends of tasks.
fn holds<P: Print>(rt: &P) {
    let mut kernel = Kernel::fresh();
    kernel = show(rt, kernel.declare_task(5));
    kernel = show(rt, kernel.declare_task(3));
    kernel = show(rt, kernel.activate(0, 0, start(0, 0)));
    kernel = show(rt, kernel.activate(1, 0, start(0, 0)));
    kernel = show(rt, kernel.suspend(1));
    kernel = show(rt, kernel.continue_task(1, 7, start(0, 0)));
    kernel = show(rt, kernel.resume(start(0, 2)));
    kernel = show(rt, kernel.tick());
    kernel = show(rt, kernel.tick());
    kernel = show(rt, kernel.end());
    kernel = show(rt, kernel.terminate(1));
    kernel = show(rt, kernel.end());
    show(rt, kernel.declare_bolt());
}

// Starts by interrupt 0: made, kept back, lost.
fn starts<P: Print>(rt: &P) {
    let mut kernel = Kernel::fresh();
    kernel = show(rt, kernel.declare_task(5));
    kernel = show(rt, kernel.declare_interrupt());
    kernel = show(rt, kernel.declare_clock(NOON));
    kernel = show(rt, kernel.activate(0, 0, start(3, 0)));
    kernel = show(rt, kernel.trigger(0));
    kernel = show(rt, kernel.enable(0));
    kernel = show(rt, kernel.trigger(0));
    kernel = show(rt, kernel.trigger(0));
    kernel = show(rt, kernel.trigger(0));
    kernel = show(rt, kernel.disable(0));
    kernel = show(rt, kernel.trigger(0));
    show(rt, kernel.prevent(0));
}

// CONTINUE and RESUME on a schedule: WHEN, AFTER, AT the present time; and those that are refused.
fn continuations<P: Print>(rt: &P) {
    let mut kernel = Kernel::fresh();
    kernel = show(rt, kernel.declare_task(5));
    kernel = show(rt, kernel.declare_task(3));
    kernel = show(rt, kernel.declare_interrupt());
    kernel = show(rt, kernel.activate(0, 0, start(0, 0)));
    kernel = show(rt, kernel.activate(1, 0, start(0, 0)));
    kernel = show(rt, kernel.resume(start(3, 0)));
    kernel = show(rt, kernel.suspend(1));
    kernel = show(rt, kernel.enable(0));
    kernel = show(rt, kernel.trigger(0));
    kernel = show(rt, kernel.suspend(0));
    kernel = show(rt, kernel.continue_task(0, 1, start(2, 1)));
    kernel = show(rt, kernel.tick());
    kernel = show(rt, kernel.continue_task(0, 0, start(5, 0)));
    kernel = show(rt, kernel.resume(start(1, 1)));
    show(rt, kernel.continue_task(0, 0, start(0, 0)));
}

// The last instant, reached by writing it into the kernel.
fn last_instant<P: Print>(rt: &P) {
    let mut kernel = Kernel::fresh();
    kernel = show(rt, kernel.declare_task(5));
    kernel = changed(kernel, |k| k.now = Instant(LAST_INSTANT - 1));
    kernel = show(rt, kernel.activate(0, 0, start(0, 0)));
    kernel = show(rt, kernel.tick());
    kernel = show(rt, kernel.tick());
    kernel = show(rt, kernel.terminate(0));
    show(rt, kernel.tick());
}

// A kernel value outside the limits, and back inside.
fn beyond_limits<P: Print>(rt: &P) {
    let mut kernel = Kernel::fresh();
    kernel = show(rt, kernel.declare_task(5));
    kernel = show(rt, kernel.activate(0, 0, start(0, 0)));
    kernel = changed(kernel, |k| k.clock = DAY_LENGTH);
    kernel = show(rt, kernel.tick());
    kernel = show(rt, kernel.step(b"TI"));
    kernel = changed(kernel, |k| k.clock = DAY_LENGTH - 1);
    show(rt, kernel.tick());
}

// Places written into a kernel with two equal tasks: one taken twice, one out of range, one of an undeclared task, and
// both exchanged, with the task on file that runs then.
fn other_places<P: Print>(rt: &P) {
    let mut kernel = Kernel::fresh();
    kernel = show(rt, kernel.declare_task(5));
    kernel = show(rt, kernel.declare_task(5));
    kernel = show(rt, kernel.activate(0, 0, start(0, 0)));
    kernel = show(rt, kernel.activate(1, 0, start(0, 0)));
    kernel = changed(kernel, |k| k.places[1] = 0);
    kernel = show(rt, kernel.tick());
    kernel = changed(kernel, |k| k.places[1] = 2);
    kernel = show(rt, kernel.tick());
    kernel = changed(kernel, |k| {
        k.places[1] = 1;
        k.places[2] = 1;
    });
    kernel = show(rt, kernel.tick());
    kernel = changed(kernel, |k| {
        k.places[0] = 1;
        k.places[1] = 0;
        k.file.running = Some(1);
        k.file.next = None;
    });
    show(rt, kernel.tick());
}

// A schedule that no call leaves and that passes the test: its next due after its last, an end and no period. The
// current priority of its task, which is terminated, isn't the declared one.
fn odd_schedule<P: Print>(rt: &P) {
    let mut kernel = Kernel::fresh();
    kernel = show(rt, kernel.declare_task(5));
    kernel = show(rt, kernel.declare_task(6));
    kernel = show(rt, kernel.activate(1, 0, start(0, 0)));
    kernel = show(rt, kernel.activate(0, 0, start(2, 1)));
    kernel = changed(kernel, |k| {
        k.tasks[0].current = 7;
        k.tasks[0].schedule.last = Some(Instant(0));
        k.tasks[0].schedule.end = End::Until(0);
    });
    kernel = show(rt, kernel.tick());
    show(rt, kernel.tick());
}

// The last of an armed schedule isn't looked at, the end of one that waits for its next due is. Then the kernel fails
// the test, and its running task is the one on file.
fn stored_ends<P: Print>(rt: &P) {
    let mut kernel = Kernel::fresh();
    kernel = show(rt, kernel.declare_task(5));
    kernel = show(rt, kernel.declare_interrupt());
    kernel = show(rt, kernel.activate(0, 0, start(0, 0)));
    kernel = show(rt, kernel.activate(0, 0, start(3, 0)));
    kernel = changed(
        kernel,
        |k| k.tasks[0].schedule.last = Some(Instant(TOO_FAR)),
    );
    kernel = show(rt, kernel.tick());
    kernel = show(rt, kernel.activate(0, 0, start(2, 1)));
    kernel = changed(kernel, |k| k.tasks[0].schedule.end = End::Until(DAY_LENGTH));
    kernel = show(rt, kernel.tick());
    show_running(rt, kernel);
}

// A continuation on an interrupt that isn't declared, one with a delay that is too long, and one that is due beyond the
// last stored instant. A priority 0 passes the test, and what pends at the present instant never comes.
fn odd_continuations<P: Print>(rt: &P) {
    let mut kernel = Kernel::fresh();
    kernel = show(rt, kernel.declare_task(5));
    kernel = show(rt, kernel.declare_interrupt());
    kernel = show(rt, kernel.activate(0, 0, start(0, 0)));
    kernel = show(rt, kernel.suspend(0));
    kernel = show(
        rt,
        continuing(kernel, alarm(Plan::Armed, 1, 0, 0)).enable(0),
    );
    kernel = show(
        rt,
        continuing(kernel, alarm(Plan::Armed, 0, TOO_LONG, 0)).enable(0),
    );
    kernel = show(
        rt,
        continuing(kernel, alarm(Plan::Clock, 0, 0, TOO_FAR)).enable(0),
    );
    kernel = show(
        rt,
        continuing(kernel, alarm(Plan::Triggered, 0, 0, 0)).enable(0),
    );
    kernel = show(rt, kernel.tick());
    show(rt, kernel.trigger(0));
}

fn main(rt: HostRuntime) {
    locks(&rt);
    holds(&rt);
    starts(&rt);
    last_instant(&rt);
    beyond_limits(&rt);
    odd_schedule(&rt);
    stored_ends(&rt);
    continuations(&rt);
    odd_continuations(&rt);
    other_places(&rt);
}
