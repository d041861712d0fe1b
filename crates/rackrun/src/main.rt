// The script program: records from standard input, lines to standard output.
#![tactic(auto)]

ghost use Rattle.std.specs.Prelude.{◌≡◌, OnOk, ◌≤◌, length};
ghost use Rattle.calendar.specs.Limits.{day_length};
ghost use Rattle.machine.specs.Log.{final};
ghost use Rattle.lines.specs.Lines.{longest_line};
ghost use Rattle.script.specs.Records.{records};
ghost use Rattle.script.specs.Script.{going_on};

use feed::{Failure, fold};
use kernel::Kernel;
use script::{Script, run};

// Carries the records of bytes out and writes their lines, a buffer full at a time.
fn carry<P: Print>(rt: &P, script: &mut Script, bytes: &[u8], out: &mut [u8]) -> Result<(), Failure>
    requires { longest_line ≤ length out.old }
    ensures { OnOk result (script.new ≡ going_on (final day_length script.old.kernel.state (records bytes.now))) }
{
    run::carry_on(script, bytes, out, |lines| rt.write_all(lines)).map_err(Failure::Output)
}

// Carries out what each read brings, and tells on standard error what failed, and why. The script stays in its place:
// handed through fold it would be copied at each read.
fn main(rt: HostRuntime) {
    let mut input = [0u8; 65536];
    let mut output = [0u8; 65536];
    let mut script = Script::begin(Kernel::fresh());
    let done = fold(&mut rt.stdin(), &mut input, (), |(), bytes| {
        carry(&rt, &mut script, bytes, &mut output)
    });
    if let Err(failure) = done {
        let _ = eprintln!(rt; "rackrun: {failure}");
    }
}
