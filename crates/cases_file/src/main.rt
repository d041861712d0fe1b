// Hands kernels with this or that task and next event on file to the methods, as a program could, and prints their
// lines. stdout has those that document 02 gives.
#![tactic(auto)]

ghost use Rattle.std.specs.Prelude.{◌≡◌};
ghost use Rattle.machine.specs.State.{with_file};

use calendar::{DAY_LENGTH, Instant, Moment};
use cases_showing::{TOO_FAR, changed, show, show_number, show_running, start};
use kernel::Kernel;
use machine::Running;

// The kernel with another task on file.
fn filing(kernel: Kernel, running: Running) -> Kernel
    ensures { result.state ≡ with_file (record { running = running; next = kernel.state.file.next }) kernel.state }
{
    changed(kernel, |k| k.file.running = running)
}

// The kernel with another next event on file.
fn expecting(kernel: Kernel, next: Moment) -> Kernel
    ensures { result.state ≡ with_file (record { running = kernel.state.file.running; next = next }) kernel.state }
{
    changed(kernel, |k| k.file.next = next)
}

// Prints a line with number 0 if this is the next event handed out, and with 1 if it isn't.
fn show_next<P: Print>(rt: &P, kernel: Kernel, next: Moment) {
    show_number(rt, (kernel.next_event() != next).into());
}

// Task 0 runs and 1 is runnable. On file: 1, a number out of range, none, and then 0. The first three are handed out as
// they are.
fn one_runs<P: Print>(rt: &P) {
    let mut kernel = Kernel::fresh();
    kernel = show(rt, kernel.declare_task(5));
    kernel = show(rt, kernel.declare_task(6));
    kernel = show(rt, kernel.activate(0, 0, start(0, 0)));
    kernel = show(rt, kernel.activate(1, 0, start(0, 0)));
    kernel = show(rt, filing(kernel, Some(1)).tick());
    show_running(rt, kernel);
    kernel = show(rt, filing(kernel, Some(200)).tick());
    show_running(rt, kernel);
    kernel = show(rt, filing(kernel, None).tick());
    show_running(rt, kernel);
    show(rt, filing(kernel, Some(0)).tick());
}

// Task 0 has ended and 1 runs. On file: 0, which is terminated, 2, which isn't declared, and then 1. It ends too, and
// nobody runs: 1 on file is wrong, none is right.
fn after_ends<P: Print>(rt: &P) {
    let mut kernel = Kernel::fresh();
    kernel = show(rt, kernel.declare_task(5));
    kernel = show(rt, kernel.declare_task(6));
    kernel = show(rt, kernel.activate(0, 0, start(0, 0)));
    kernel = show(rt, kernel.activate(1, 0, start(0, 0)));
    kernel = show(rt, kernel.end());
    kernel = show(rt, filing(kernel, Some(0)).tick());
    kernel = show(rt, filing(kernel, Some(2)).tick());
    kernel = show(rt, filing(kernel, Some(1)).end());
    show_running(rt, kernel);
    kernel = show(rt, filing(kernel, Some(1)).tick());
    show(rt, filing(kernel, None).tick());
}

// A kernel whose clock is wrong too is refused with 1. One whose clock is right is refused with 16 whatever is asked
// for: no record, a late declaration, a task that isn't declared. With the right task on file these are 2, 2 and 5.
fn in_order<P: Print>(rt: &P) {
    let bytes = [0; 3];
    let mut kernel = Kernel::fresh();
    kernel = show(rt, kernel.declare_task(5));
    kernel = show(rt, kernel.activate(0, 0, start(0, 0)));
    kernel = filing(kernel, None);
    show(rt, changed(kernel, |k| k.clock = DAY_LENGTH).tick());
    kernel = show(rt, kernel.step(&bytes));
    kernel = show(rt, kernel.declare_task(5));
    kernel = show(rt, kernel.terminate(9));
    kernel = show(rt, filing(kernel, Some(0)).step(&bytes));
    kernel = show(rt, kernel.declare_task(5));
    show(rt, kernel.terminate(9));
}

// A declaration is refused too, and an accepted one leaves none on file while nobody runs.
fn declared<P: Print>(rt: &P) {
    let mut kernel = Kernel::fresh();
    kernel = show(rt, filing(kernel, Some(0)).declare_task(5));
    kernel = show(rt, filing(kernel, None).declare_task(5));
    show_running(rt, kernel);
}

// Task 0 starts at 3. On file: none, the ticks before and after it, the present instant, one above 2^42, which is
// handed out as it is, and then 3. After the sleep nothing is to come: 3, which is now, and 5 are wrong, none is right.
fn one_comes<P: Print>(rt: &P) {
    let mut kernel = Kernel::fresh();
    kernel = show(rt, kernel.declare_task(5));
    show_next(rt, kernel, None);
    kernel = show(rt, kernel.activate(0, 0, start(2, 3)));
    show_next(rt, kernel, Some(Instant(3)));
    kernel = show(rt, expecting(kernel, None).tick());
    kernel = show(rt, expecting(kernel, Some(Instant(2))).sleep());
    kernel = show(rt, expecting(kernel, Some(Instant(4))).sleep());
    kernel = show(rt, expecting(kernel, Some(Instant(0))).tick());
    kernel = show(rt, expecting(kernel, Some(Instant(TOO_FAR))).tick());
    show_next(rt, kernel, Some(Instant(TOO_FAR)));
    kernel = show(rt, expecting(kernel, Some(Instant(3))).sleep());
    kernel = show(rt, kernel.sleep());
    kernel = show(rt, expecting(kernel, Some(Instant(3))).tick());
    kernel = show(rt, expecting(kernel, Some(Instant(5))).sleep());
    kernel = show(rt, expecting(kernel, None).tick());
    show_next(rt, kernel, None);
}

// Both wrong are one refusal; a clock that is wrong too goes before it, and no record goes behind it. Undeclared tasks'
// schedules aren't looked at.
fn next_in_order<P: Print>(rt: &P) {
    let bytes = [0; 3];
    let mut kernel = Kernel::fresh();
    kernel = show(rt, kernel.declare_task(5));
    kernel = show(rt, kernel.activate(0, 0, start(0, 0)));
    kernel = expecting(kernel, Some(Instant(7)));
    show(rt, changed(kernel, |k| k.clock = DAY_LENGTH).sleep());
    kernel = show(rt, kernel.step(&bytes));
    kernel = show(rt, filing(kernel, None).sleep());
    kernel = show(rt, expecting(filing(kernel, Some(0)), None).step(&bytes));
    kernel = show(rt, kernel.activate(0, 0, start(2, 1)));
    show(rt, changed(kernel, |k| k.tasks[1] = k.tasks[0]).sleep());
}

fn main(rt: HostRuntime) {
    one_runs(&rt);
    after_ends(&rt);
    in_order(&rt);
    declared(&rt);
    one_comes(&rt);
    next_in_order(&rt);
}
