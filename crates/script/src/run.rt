// The script's loop: one record after the other, each with its line.
ghost use Rattle.std.specs.Prelude.{◌≡◌, IfOk, OnOk, ◌+◌, ◌≤◌, ◌<◌, min, length};
ghost use Rattle.calendar.specs.Limits.{day_length};
ghost use Rattle.layout.specs.Fields.{record_length};
ghost use Rattle.machine.specs.Log.{final};
ghost use Rattle.lines.specs.Buffers.{Wrote};
ghost use Rattle.lines.specs.Lines.{longest_line};
ghost use Rattle.script.specs.Printed.{shown};
ghost use Rattle.script.specs.Records.{records};
ghost use Rattle.script.specs.Script.{going_on, Runs, GetsOn};

use crate::{Script, Stand};
use calendar::Duration;
use kernel::Kernel;
use kernel_step::{kernel_refusal, step_on};
use kernel_values::answers::{begun_at, plain_answer};
use kernel_values::ticks::{is_quiet, is_tick};
use layout::RECORD_LENGTH;
use lines::line_at;
use machine::Answer;

pub const LONGEST_LINE: usize = 63;

// What became of a script's bytes: the script after them, how many were read, and how much text was written. It is
// full where the room didn't reach for the next line.
#[derive(Clone, Copy)]
pub struct Ran {
    pub script: Script,
    pub read: usize,
    pub written: usize,
    pub full: bool,
}

// Where the record ends that starts at at.
fn end_of(at: usize, n: usize) -> usize
    requires { at ≤ n }
    ensures { result ≡ min (at + record_length) n }
{
    if n - at < RECORD_LENGTH {
        n
    } else {
        at + RECORD_LENGTH
    }
}

// An answer's line, if it is one to print.
fn line_if(show: bool, a: Answer, out: &mut [u8], at: usize) -> usize
    requires { at + longest_line ≤ length out.old }
    ensures wrote { Wrote out.old at (shown show a) out.new result }
    ensures upper_bound { result ≤ at + longest_line }
{
    if show {
        return line_at(a, out, at);
    }
    at
}

// The script over bytes, with as many lines as there is room for in out. A tick to an instant before the next event,
// which is on file, only moves the present.
pub fn run(script: Script, bytes: &[u8], out: &mut [u8]) -> Ran
    ensures { Runs day_length script bytes.now out.old out.new result }
{
    let mut k = script.kernel.state;
    let refused = kernel_refusal(k);
    let mut at = 0;
    let mut fill = 0;
    // Chunks of the bytes would be no plainer: where the room ends, at is what has been read.
    while (at < bytes.len()) & (LONGEST_LINE <= out.len() - fill) {
        let to = end_of(at, bytes.len());
        let rec = &bytes[at..to];
        at = to;
        if let Err(refusal) = refused {
            fill = line_at(plain_answer(refusal.number(), None), out, fill);
            continue;
        }
        let tick = is_tick(rec);
        if tick & is_quiet(k.now, k.file.next) {
            let r = k.file.running;
            k = begun_at(k, k.now.plus(Duration(1)));
            fill = line_at(plain_answer(0, r), out, fill);
            continue;
        }
        let z = step_on(k, tick, rec);
        let a = z.answer;
        k = z.state;
        fill = line_if((a.number != 0) | k.begun, a, out, fill);
    }
    Ran {
        script: Script {
            kernel: Kernel { state: k },
            stands: Stand::GoingOn,
        },
        read: at,
        written: fill,
        full: at < bytes.len(),
    }
}

// Carries on the records from at on, as far as there is room for their lines.
pub fn run_from(script: Script, bytes: &[u8], at: usize, out: &mut [u8]) -> Ran
    requires at_in_bounds { at < length bytes.now }
    requires longest_line_in_bounds { longest_line ≤ length out.old }
    ensures { GetsOn script bytes.now at out.old out.new result }
{
    run(script, &bytes[at..], out)
}

// Carries the records of bytes out in place, and hands their lines to write, a buffer full at a time. It ends with the
// first time that they could not be written.
pub fn carry_on<E, W: FnMut(&[u8]) -> Result<(), E>>(
    script: &mut Script,
    bytes: &[u8],
    out: &mut [u8],
    mut write: W,
) -> Result<(), E>
    requires callable { W.IsAlwaysCallable write }
    requires longest_line_in_bounds { longest_line ≤ length out.old }
    ensures { OnOk result (script.new ≡ going_on (final day_length script.old.kernel.state (records bytes.now))) }
{
    let mut at = 0;
    // No iterator would be plainer: how far a run gets is what it says itself.
    while at < bytes.len() {
        let ran = run_from(*script, bytes, at, out);
        *script = ran.script;
        at += ran.read;
        write(&out[..ran.written])?;
    }
    Ok(())
}

// The same of a script that is handed in, for the one that is handed back.
pub fn carry<E, W: FnMut(&[u8]) -> Result<(), E>>(
    script: Script,
    bytes: &[u8],
    out: &mut [u8],
    write: W,
) -> Result<Script, E>
    requires callable { W.IsAlwaysCallable write }
    requires longest_line_in_bounds { longest_line ≤ length out.old }
    ensures { IfOk result (λ p. p ≡ going_on (final day_length script.kernel.state (records bytes.now))) }
{
    let mut now = script;
    carry_on(&mut now, bytes, out, write)?;
    Ok(now)
}
