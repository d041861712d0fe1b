// The program that says how long tasks wait: a script from standard input, and after it the lines of the tasks that wait
// for one semaphore.
#![tactic(auto)]

ghost use Rattle.std.specs.Prelude.{◌≡◌, ◌≤◌, length};
ghost use Rattle.calendar.specs.Limits.{day_length};
ghost use Rattle.machine.specs.Log.{final};
ghost use Rattle.lines.specs.Lines.{longest_line};
ghost use Rattle.script.specs.Records.{records};
ghost use Rattle.script.specs.Script.{going_on};

use feed::{Failure, fold};
use kernel::Kernel;
use script::{Script, run};
use std::convert::Infallible;
use wait_lines::text_at;

// Carries the records of bytes out. The lines of their answers are left in the buffer and not printed.
fn carry(script: &mut Script, bytes: &[u8], out: &mut [u8])
    requires { longest_line ≤ length out.old }
    ensures { script.new ≡ going_on (final day_length script.old.kernel.state (records bytes.now)) }
{
    let Ok(()) = run::carry_on(script, bytes, out, |_| Ok::<(), Infallible>(()));
}

// Carries out what each read brings, prints the lines of those who wait then, and tells on standard error what failed,
// and why. The script stays in its place: handed through fold it would be copied at each read.
fn main(rt: HostRuntime) {
    let mut input = [0u8; 65536];
    let mut output = [0u8; 65536];
    let mut script = Script::begin(Kernel::fresh());
    let done = fold(&mut rt.stdin(), &mut input, (), |(), bytes| {
        carry(&mut script, bytes, &mut output);
        Ok(())
    });
    let told = match done {
        Ok(Some(())) => {
            let n = text_at(script.kernel.state, &mut output, 0);
            rt.write_all(&output[..n]).map_err(Failure::Output)
        }
        Ok(None) => Ok(()),
        Err(failure) => Err(failure),
    };
    if let Err(failure) = told {
        let _ = eprintln!(rt; "rackwait: {failure}");
    }
}
