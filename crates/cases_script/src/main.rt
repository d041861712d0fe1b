// Runs the scripts of cases_step through the script function, each from a fresh kernel and whole, with a small buffer
// for the lines, so that it gets full. Standard input and output are those of cases_step.
#![tactic(auto)]

use feed::read_full;
use kernel::Kernel;
use script::Script;
use script::run::{LONGEST_LINE, Ran, run};

// The room for lines: ten of the shortest, 14 bytes each, leave just enough for one of any length.
const ROOM: usize = 203;

// A script carried out, a buffer full at a time, each with its lines handed to tell.
fn run_through<T: FnMut(Ran, &[u8])>(s: &[u8], out: &mut [u8], mut tell: T)
    requires { T.IsAlwaysCallable tell }
{
    let mut script = Script::begin(Kernel::fresh());
    let mut rest = s;
    // How much of the rest a run has read it says itself, so chunks would be no plainer.
    while !rest.is_empty() {
        let ran = run(script, rest, out);
        tell(ran, &out[..ran.written]);
        if ran.read == 0 {
            return;
        }
        script = ran.script;
        rest = &rest[ran.read..];
    }
}

// A script's lines.
fn print_script<P: Print>(rt: &P, s: &[u8]) {
    run_through(s, &mut [0; 200], |_, lines| {
        let _ = rt.write_all(lines);
    });
}

// The same without its lines: a line where a run says that it is full although there is room for one.
fn print_left<P: Print>(rt: &P, s: &[u8]) {
    run_through(s, &mut [0; ROOM], |ran, _| {
        if ran.full & (ran.written <= ROOM - LONGEST_LINE) {
            let _ = rt.write_all(b"room is left\n");
        }
    });
}

// Records are gathered to scripts here, so they aren't gone through one by one, as each_record does.
fn main(rt: HostRuntime) {
    let mut input = rt.stdin();
    let mut buf = [0u8; 65536];
    let mut one = [0u8; 1];
    let mut fill = 0;
    for _ in 0..u64::MAX {
        let got = read_full(&mut input, &mut one);
        let len = usize::from(one[0]);
        if (got == 0) | (len == 0) {
            print_script(&rt, &buf[..fill]);
            print_left(&rt, &buf[..fill]);
            fill = 0;
        }
        if got == 0 {
            return;
        }
        if len == 0 {
            let _ = rt.write_all(b"\n");
            continue;
        }
        if buf.len() - fill < len {
            return;
        }
        let to = fill + len;
        read_full(&mut input, &mut buf[fill..to]);
        fill = to;
    }
}
