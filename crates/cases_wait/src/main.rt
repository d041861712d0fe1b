// Runs scripts through the step, each from a fresh kernel. Standard input has each record behind a byte with its
// length, and a 0 before each script; printed are an empty line for each script, and the lines of the tasks that wait
// for one semaphore at its end.
#![tactic(auto)]

use feed::each_record;
use kernel::Kernel;
use machine::State;
use wait_lines::text_at;

fn print_waits<P: Print>(rt: &P, k: State) {
    let mut out = [0u8; 1024];
    let n = text_at(k, &mut out, 0);
    let _ = rt.write_all(&out[..n]);
}

// A fresh kernel has no lines, so nothing is printed before the first script.
fn main(rt: HostRuntime) {
    let mut kernel = Kernel::fresh();
    each_record(&mut rt.stdin(), |len, s| {
        if len == 0 {
            print_waits(&rt, kernel.state);
            kernel = Kernel::fresh();
            let _ = rt.write_all(b"\n");
        } else {
            kernel = kernel.step(s).kernel;
        }
    });
    print_waits(&rt, kernel.state);
}
