// Kernels with values written into them, at the limits of refusal 1 and one beyond: prints the lines of the methods on them, and
// those of further starts, lengths and counts.
// stdout has the lines that document 01 gives.
#![tactic(auto)]

use calendar::{Duration, End, Instant, LAST_INSTANT, LONGEST_DURATION, MOST_INSTANT};
use cases_showing::{TOO_FAR, TOO_LONG, alarm, changed, continuing, show, start};
use kernel::{Kernel, StartCondition};
use layout::Numbers;
use lock::Wait;
use machine::State;
use schedule::{Alarm, Plan};
use task::Hold;

// Prints the line of a tick of the kernel with a value written into it.
fn tick_with<P: Print, C: FnOnce(&mut State)>(rt: &P, kernel: Kernel, change: C)
    requires { C.IsAlwaysCallable change }
{
    show(rt, changed(kernel, change).tick());
}

// The same with another alarm of task 0's schedule.
fn tick_by<P: Print>(rt: &P, kernel: Kernel, alarm: Alarm) {
    tick_with(rt, kernel, |k| k.tasks[0].schedule.alarm = alarm);
}

// The same with task 0 waiting so.
fn tick_waiting<P: Print>(rt: &P, kernel: Kernel, wait: Wait, n: u8, list: Numbers) {
    tick_with(
        rt,
        kernel,
        |k| k.tasks[0] = k.tasks[0].wait_for(wait, n, list),
    );
}

// Counts and an instant one too large, and the counts of semaphores, bolts and interrupts that are just not. The only
// task at place 32, which doesn't exist.
fn counts_beyond<P: Print>(rt: &P) {
    let mut kernel = Kernel::fresh();
    kernel = show(rt, kernel.declare_task(5));
    kernel = show(rt, kernel.tick());
    tick_with(rt, kernel, |k| k.counts.tasks = 33);
    tick_with(rt, kernel, |k| k.counts.semaphores = 17);
    tick_with(rt, kernel, |k| k.counts.bolts = 17);
    tick_with(rt, kernel, |k| k.counts.interrupts = 9);
    tick_with(rt, kernel, |k| {
        k.counts.semaphores = 16;
        k.counts.bolts = 16;
        k.counts.interrupts = 8;
    });
    tick_with(rt, kernel, |k| k.now = Instant(LAST_INSTANT + 1));
    tick_with(rt, kernel, |k| k.places[0] = 32);
}

// A task with a priority 0, declared, current or kept back; delayed for too long; terminated and held or with a start
// kept back. Then one with all at their limits, and one that waits for nothing, whose list isn't looked at: they pass.
fn tasks_beyond<P: Print>(rt: &P) {
    let mut kernel = Kernel::fresh();
    kernel = show(rt, kernel.declare_task(5));
    kernel = show(rt, kernel.activate(0, 0, start(0, 0)));
    tick_with(rt, kernel, |k| k.tasks[0].declared = 0);
    tick_with(rt, kernel, |k| k.tasks[0].current = 0);
    tick_with(rt, kernel, |k| k.tasks[0].kept = Some(0));
    tick_with(
        rt,
        kernel,
        |k| k.tasks[0].hold = Hold::Delayed(Instant(TOO_FAR)),
    );
    let dead = changed(kernel, |k| k.tasks[0].alive = false);
    tick_with(rt, dead, |k| k.tasks[0].kept = Some(255));
    tick_with(rt, dead, |k| k.tasks[0].hold = Hold::Suspended);
    tick_with(rt, dead, |k| k.tasks[0].hold = Hold::Delayed(Instant(9)));
    tick_with(rt, kernel, |k| {
        k.tasks[0].declared = 255;
        k.tasks[0].current = 1;
        k.tasks[0].kept = Some(255);
    });
    tick_waiting(rt, kernel, Wait::Nothing, 5, [200; 4]);
}

// A delay until the largest stored instant, which nobody reaches.
fn far_delay<P: Print>(rt: &P) {
    let mut kernel = Kernel::fresh();
    kernel = show(rt, kernel.declare_task(5));
    kernel = show(rt, kernel.activate(0, 0, start(0, 0)));
    kernel = changed(kernel, |k| {
        k.tasks[0].hold = Hold::Delayed(Instant(MOST_INSTANT));
        k.file.running = None;
        k.file.next = Some(Instant(MOST_INSTANT));
    });
    kernel = show(rt, kernel.tick());
    kernel = show(rt, kernel.sleep());
    show(rt, kernel.continue_task(0, 0, start(0, 0)));
}

// A task that waits on a list which is empty, too long, has a number twice, an undeclared one, a free one; for an
// undeclared bolt or a free one; and one that waits and is terminated.
fn waits_beyond<P: Print>(rt: &P) {
    let mut kernel = Kernel::fresh();
    kernel = show(rt, kernel.declare_task(5));
    kernel = show(rt, kernel.declare_semaphore(0));
    kernel = show(rt, kernel.declare_semaphore(1));
    kernel = show(rt, kernel.declare_bolt());
    kernel = show(rt, kernel.activate(0, 0, start(0, 0)));
    tick_waiting(rt, kernel, Wait::Request, 0, [0; 4]);
    tick_waiting(rt, kernel, Wait::Request, 5, [0, 1, 2, 3]);
    tick_waiting(rt, kernel, Wait::Request, 2, [0; 4]);
    tick_waiting(rt, kernel, Wait::Request, 2, [0, 2, 0, 0]);
    tick_waiting(rt, kernel, Wait::Request, 1, [1, 0, 0, 0]);
    tick_waiting(rt, kernel, Wait::Enter, 1, [1, 0, 0, 0]);
    tick_waiting(rt, kernel, Wait::Reserve, 1, [0; 4]);
    let dead = changed(kernel, |k| k.tasks[0].alive = false);
    tick_waiting(rt, dead, Wait::Request, 1, [0; 4]);
}

// A wait that no call began, on a list of which one isn't free, and is served.
fn written_wait<P: Print>(rt: &P) {
    let mut kernel = Kernel::fresh();
    kernel = show(rt, kernel.declare_task(5));
    kernel = show(rt, kernel.declare_task(6));
    kernel = show(rt, kernel.declare_semaphore(0));
    kernel = show(rt, kernel.declare_semaphore(1));
    kernel = show(rt, kernel.activate(0, 0, start(0, 0)));
    kernel = show(rt, kernel.activate(1, 0, start(0, 0)));
    kernel = changed(kernel, |k| {
        k.tasks[0] = k.tasks[0].wait_for(Wait::Request, 2, [0, 1, 0, 0]);
        k.file.running = Some(1);
        k.file.next = None;
    });
    kernel = show(rt, kernel.tick());
    show(rt, kernel.release(1, [0; 4]));
}

// A schedule with priority 0, a period or end that is too long, a DURING of 0, a last due too far away. Then one with
// all at their limits, which passes.
fn schedules_beyond<P: Print>(rt: &P) {
    let mut kernel = Kernel::fresh();
    kernel = show(rt, kernel.declare_task(5));
    kernel = show(rt, kernel.activate(0, 0, start(2, 9)));
    tick_with(rt, kernel, |k| k.tasks[0].schedule.priority = 0);
    tick_with(rt, kernel, |k| k.tasks[0].schedule.period = TOO_LONG);
    tick_with(
        rt,
        kernel,
        |k| k.tasks[0].schedule.end = End::During(Duration(0)),
    );
    tick_with(
        rt,
        kernel,
        |k| k.tasks[0].schedule.end = End::During(Duration(TOO_LONG)),
    );
    tick_with(
        rt,
        kernel,
        |k| k.tasks[0].schedule.last = Some(Instant(TOO_FAR)),
    );
    tick_with(rt, kernel, |k| {
        k.tasks[0].schedule.last = Some(Instant(MOST_INSTANT));
        k.tasks[0].schedule.end = End::During(Duration(LONGEST_DURATION));
        k.tasks[0].schedule.period = LONGEST_DURATION;
    });
}

// A schedule on an interrupt that isn't declared, before and after its trigger; with a delay that is too long; due too
// late; a continuation on such an interrupt. Then those that pass: at the limits, and by the clock, where interrupt and
// delay aren't looked at.
fn alarms_beyond<P: Print>(rt: &P) {
    let mut kernel = Kernel::fresh();
    kernel = show(rt, kernel.declare_task(5));
    kernel = show(rt, kernel.declare_task(6));
    kernel = show(rt, kernel.declare_interrupt());
    kernel = show(rt, kernel.activate(0, 0, start(2, 9)));
    tick_by(rt, kernel, alarm(Plan::Armed, 1, 0, 0));
    tick_by(rt, kernel, alarm(Plan::Triggered, 1, 0, 9));
    tick_by(rt, kernel, alarm(Plan::Triggered, 0, TOO_LONG, 9));
    tick_by(rt, kernel, alarm(Plan::Clock, 0, 0, TOO_FAR));
    show(rt, continuing(kernel, alarm(Plan::Armed, 1, 0, 0)).tick());
    tick_by(rt, kernel, alarm(Plan::Triggered, 0, LONGEST_DURATION, 9));
    tick_by(rt, kernel, alarm(Plan::Clock, 1, TOO_LONG, 9));
}

// Of an armed schedule the next due isn't looked at. Of one that there isn't nothing is, and it never comes: at the tick
// task 1 starts, and then nothing is to come.
fn not_looked_at<P: Print>(rt: &P) {
    let mut kernel = Kernel::fresh();
    kernel = show(rt, kernel.declare_task(5));
    kernel = show(rt, kernel.declare_task(6));
    kernel = show(rt, kernel.declare_interrupt());
    kernel = show(rt, kernel.activate(1, 0, start(2, 1)));
    tick_with(rt, kernel, |k| {
        k.tasks[0].schedule.alarm = alarm(Plan::Armed, 0, 0, TOO_FAR);
        k.tasks[0].schedule.priority = 1;
    });
    let none = alarm(Plan::None, 1, TOO_LONG, 5);
    kernel = changed(kernel, |k| k.tasks[0].schedule.alarm = none);
    kernel = show(rt, kernel.tick());
    show(rt, kernel.sleep());
}

// A continuation that pends at the present instant, 1, is no event to come, and a start that is planned doesn't set it off.
fn pending_now<P: Print>(rt: &P) {
    let mut kernel = Kernel::fresh();
    kernel = show(rt, kernel.declare_task(5));
    kernel = show(rt, kernel.activate(0, 0, start(0, 0)));
    kernel = show(rt, kernel.tick());
    kernel = show(rt, kernel.suspend(0));
    let pending = continuing(kernel, alarm(Plan::Clock, 0, 0, 1));
    kernel = show(rt, pending.activate(0, 0, start(2, 1)));
    kernel = show(rt, kernel.sleep());
    show(rt, kernel.sleep());
}

// A bolt with 65,534 readers takes one more, and the next waits until one leaves.
fn many_readers<P: Print>(rt: &P) {
    let mut kernel = Kernel::fresh();
    kernel = show(rt, kernel.declare_task(5));
    kernel = show(rt, kernel.declare_task(6));
    kernel = show(rt, kernel.declare_bolt());
    kernel = show(rt, kernel.activate(0, 0, start(0, 0)));
    kernel = show(rt, kernel.activate(1, 0, start(0, 0)));
    kernel = changed(kernel, |k| k.locks.bolts[0].readers = 65_534);
    kernel = show(rt, kernel.enter(1, [0; 4]));
    kernel = show(rt, kernel.enter(1, [0; 4]));
    show(rt, kernel.leave(1, [0; 4]));
}

// A start that falls on the last instant, by a tick.
fn last_due<P: Print>(rt: &P) {
    let mut kernel = Kernel::fresh();
    kernel = show(rt, kernel.declare_task(5));
    kernel = changed(kernel, |k| k.now = Instant(LAST_INSTANT - 1));
    kernel = show(rt, kernel.activate(0, 0, start(2, 1)));
    kernel = show(rt, kernel.tick());
    show(rt, kernel.tick());
}

// A tick's bytes with one too few and one too many are no record.
fn other_lengths<P: Print>(rt: &P) {
    let mut kernel = Kernel::fresh();
    kernel = show(rt, kernel.declare_task(5));
    let mut short = [0; 23];
    short[0] = b'T';
    short[1] = b'I';
    let mut long = [0; 25];
    long[0] = b'T';
    long[1] = b'I';
    kernel = show(rt, kernel.step(&short));
    kernel = show(rt, kernel.step(&long));
    show(rt, kernel.tick());
}

// ALL 2 DURING 4 by the clock, and AFTER 3 ALL 2 UNTIL 10 behind a trigger of interrupt 1 at 4. Sleeps go from due to due.
fn periods<P: Print>(rt: &P) {
    let mut kernel = Kernel::fresh();
    kernel = show(rt, kernel.declare_task(5));
    kernel = show(rt, kernel.declare_task(6));
    kernel = show(rt, kernel.declare_interrupt());
    kernel = show(rt, kernel.declare_interrupt());
    let all = StartCondition {
        kind: 5,
        interrupt: 0,
        endkind: 2,
        first: 0,
        period: 2,
        endtime: 4,
    };
    kernel = show(rt, kernel.activate(0, 0, all));
    kernel = show(rt, kernel.sleep());
    kernel = show(rt, kernel.sleep());
    kernel = show(rt, kernel.sleep());
    let when = StartCondition {
        kind: 4,
        interrupt: 1,
        endkind: 1,
        first: 3,
        period: 2,
        endtime: 10,
    };
    kernel = show(rt, kernel.activate(1, 9, when));
    kernel = show(rt, kernel.enable(1));
    kernel = show(rt, kernel.trigger(1));
    kernel = show(rt, kernel.sleep());
    kernel = show(rt, kernel.sleep());
    show(rt, kernel.sleep());
}

// A task beyond the count that lives, runnable and more urgent, isn't looked at.
fn beyond_counts<P: Print>(rt: &P) {
    let mut kernel = Kernel::fresh();
    kernel = show(rt, kernel.declare_task(5));
    kernel = show(rt, kernel.activate(0, 0, start(0, 0)));
    kernel = changed(kernel, |k| {
        k.tasks[1] = k.tasks[0];
        k.tasks[1].current = 1;
    });
    kernel = show(rt, kernel.prevent(0));
    show(rt, kernel.end());
}

fn main(rt: HostRuntime) {
    counts_beyond(&rt);
    tasks_beyond(&rt);
    far_delay(&rt);
    waits_beyond(&rt);
    written_wait(&rt);
    schedules_beyond(&rt);
    alarms_beyond(&rt);
    not_looked_at(&rt);
    pending_now(&rt);
    many_readers(&rt);
    last_due(&rt);
    other_lengths(&rt);
    periods(&rt);
    beyond_counts(&rt);
}
