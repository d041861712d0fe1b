// The lines of text that a script program prints for answers.
#![tactic(auto)]

ghost use Rattle.std.specs.Prelude.{◌≡◌, ◌∷◌, ◌+◌, ◌≤◌, length};
ghost use Rattle.lines.specs.Buffers.{Wrote};
ghost use Rattle.lines.specs.Decimals.{decimal};
ghost use Rattle.lines.specs.Lines.{space, running_text, sets_text, line, longest_line};

use machine::{Answer, Running, Sets};

// How many digits a number has.
fn digits_of(n: u32) -> usize
    ensures { result ≡ length (decimal n) }
{
    let mut count = 1;
    let mut rest = n;
    while rest >= 10 {
        rest /= 10;
        count += 1;
    }
    count
}

// The digits of a number, the last one first.
fn digits_at(n: u32, out: &mut [u8], at: usize) -> usize
    requires { at + 10 ≤ length out.old }
    ensures { Wrote out.old at (decimal n) out.new result }
{
    let end = at + digits_of(n);
    let mut i = end;
    let mut rest = n;
    // An iterator over out would be no plainer: the digits come last first, until there are none.
    while rest >= 10 {
        i -= 1;
        out[i] = 48 + (rest % 10) as u8;
        rest /= 10;
    }
    out[at] = 48 + rest as u8;
    end
}

// A number from at on; the place after it. Most numbers are one digit.
pub fn decimal_at(n: u32, out: &mut [u8], at: usize) -> usize
    requires { at + 10 ≤ length out.old }
    ensures wrote { Wrote out.old at (decimal n) out.new result }
    ensures upper_bound { result ≤ at + 10 }
{
    if n < 10 {
        out[at] = 48 + n as u8;
        return at + 1;
    }
    digits_at(n, out, at)
}

// The same for a byte, which has at most three digits.
pub fn byte_at(n: u8, out: &mut [u8], at: usize) -> usize
    requires { at + 10 ≤ length out.old }
    ensures wrote { Wrote out.old at (decimal n) out.new result }
    ensures upper_bound { result ≤ at + 3 }
{
    decimal_at(n as u32, out, at)
}

// A space, and the running task or a dash.
fn running_at(running: Running, out: &mut [u8], at: usize) -> usize
    requires { at + 11 ≤ length out.old }
    ensures wrote { Wrote out.old at (space ∷ running_text running) out.new result }
    ensures upper_bound { result ≤ at + 4 }
{
    out[at] = b' ';
    match running {
        None => {
            out[at + 1] = b'-';
            at + 2
        }
        Some(task) => byte_at(task, out, at + 1),
    }
}

// A space and a number.
pub fn spaced_at(n: u32, out: &mut [u8], at: usize) -> usize
    requires { at + 11 ≤ length out.old }
    ensures wrote { Wrote out.old at (space ∷ decimal n) out.new result }
    ensures upper_bound { result ≤ at + 11 }
{
    out[at] = b' ';
    decimal_at(n, out, at + 1)
}

// The five sets and the line feed.
fn sets_at(s: Sets, out: &mut [u8], at: usize) -> usize
    requires { at + 56 ≤ length out.old }
    ensures wrote { Wrote out.old at (sets_text s) out.new result }
    ensures upper_bound { result ≤ at + 56 }
{
    let started = spaced_at(s.due, out, at);
    let ended = spaced_at(s.started, out, started);
    let lost = spaced_at(s.ended, out, ended);
    let granted = spaced_at(s.lost, out, lost);
    let feed = spaced_at(s.granted, out, granted);
    out[feed] = b'\n';
    feed + 1
}

// An answer's line from at on; the place after it.
pub fn line_at(a: Answer, out: &mut [u8], at: usize) -> usize
    requires { at + longest_line ≤ length out.old }
    ensures wrote { Wrote out.old at (line a) out.new result }
    ensures upper_bound { result ≤ at + longest_line }
{
    let running = byte_at(a.number, out, at);
    let sets = running_at(a.running, out, running);
    sets_at(a.sets, out, sets)
}
