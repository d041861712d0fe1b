// Runs scripts through the step, each from a fresh kernel. Standard input has each record behind a byte with its
// length, and a 0 before each script; printed are an empty line for each script, and the lines of its records.
#![tactic(auto)]

use cases_showing::show;
use feed::each_record;
use kernel::Kernel;

fn main(rt: HostRuntime) {
    let mut kernel = Kernel::fresh();
    each_record(&mut rt.stdin(), |len, s| {
        if len == 0 {
            kernel = Kernel::fresh();
            let _ = rt.write_all(b"\n");
        } else {
            kernel = show(&rt, kernel.step(s));
        }
    });
}
