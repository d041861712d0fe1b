// The lines of text for the tasks that wait in a REQUEST of one semaphore.
#![tactic(auto)]

ghost use Rattle.std.specs.Prelude.{◌+◌, ◌≤◌, length};
ghost use Rattle.lines.specs.Buffers.{Wrote};
ghost use Rattle.wait_lines.specs.Text.{wait_line, bound_text, wait_text, line_room, text_room};

use kernel_bound::bound_of;
use lines::{byte_at, spaced_at};
use machine::{MOST_TASKS, State};
use wait_bound::{Bound, Releases};

// The line of a task that waits so; the place after it.
fn line_at(task: u8, r: Releases, out: &mut [u8], at: usize) -> usize
    requires { at + line_room ≤ length out.old }
    ensures wrote { Wrote out.old at (wait_line task r) out.new result }
    ensures upper_bound { result ≤ at + line_room }
{
    let semaphore = byte_at(task, out, at);
    let number = spaced_at(r.semaphore as u32, out, semaphore);
    let feed = spaced_at(r.number as u32, out, number);
    out[feed] = b'\n';
    feed + 1
}

// The line of a task, if it has one.
fn bound_at(task: u8, b: Bound, out: &mut [u8], at: usize) -> usize
    requires { at + line_room ≤ length out.old }
    ensures wrote { Wrote out.old at (bound_text task b) out.new result }
    ensures upper_bound { result ≤ at + line_room }
{
    match b {
        None => at,
        Some(r) => line_at(task, r, out, at),
    }
}

// The lines of all tasks, in order of their numbers, from at on; the place after them.
pub fn text_at(k: State, out: &mut [u8], at: usize) -> usize
    requires { at + text_room ≤ length out.old }
    ensures wrote { Wrote out.old at (wait_text k) out.new result }
    ensures upper_bound { result ≤ at + text_room }
{
    let mut end = at;
    for task in 0..MOST_TASKS {
        end = bound_at(task, bound_of(k, task), out, end);
    }
    end
}
