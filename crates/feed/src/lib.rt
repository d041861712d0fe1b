// What the programs share of reading: piece by piece, keeping the rest of a record, or record by record.
#![tactic(auto)]

ghost use Rattle.std.specs.Prelude.{◌≡◌, IfOk, IfSome, Ok, false, ◌+◌, ◌-◌, ◌^◌, ◌≤◌, ◌<◌, ltb, length, drop, is_none};
ghost use Rattle.std.proofs.Math.Seq.{paste};
ghost use Rattle.feed.specs.Feeding.{whole_of, went_well, brought, NothingRead, ReadOn};

use layout::RECORD_LENGTH;
use std::io::Read;
use std::{fmt, io};

// What has failed a program that reads and writes, and why.
#[derive(Clone, Copy)]
pub enum Failure {
    Input(io::Error),
    Output(io::Error),
}

impl fmt::Display for Failure {
    fn fmt<W: fmt::Write>(&self, f: &mut fmt::Formatter<W>) -> fmt::Result {
        match self {
            Failure::Input(error) => write!(f, "standard input: {error}"),
            Failure::Output(error) => write!(f, "standard output: {error}"),
        }
    }
}

// What a read has left in the buffer: how many bytes are to be carried out, and how many there are in all. More may
// come unless it found the end of the input; a read that failed says why in error.
#[derive(Clone, Copy)]
pub struct Fed {
    pub more: bool,
    pub whole: usize,
    pub total: usize,
    pub error: Option<io::Error>,
}

// Only whole records are carried out while more may come; a short rest is the last one.
#[tactic(auto, unfolding(crate::specs::Feeding::whole_of))]
fn whole_of(total: usize, more: bool) -> usize
    ensures { result ≡ whole_of total more }
{
    if more {
        total - total % RECORD_LENGTH
    } else {
        total
    }
}

// Why a read has failed, if it has.
fn failure_of(got: io::Result<usize>) -> Option<io::Error>
    ensures { is_none result ≡ went_well got }
{
    got.err()
}

// A read that has failed brings nothing.
fn count_of(got: io::Result<usize>) -> usize
    ensures { result ≡ brought got }
{
    got.unwrap_or(0)
}

// What a read's answer makes of the bytes that are held.
fn fed_by(held: usize, got: io::Result<usize>) -> Fed
    requires { held + brought got < 2 ^ 64 }
    ensures total { result.total ≡ held + brought got }
    ensures more { result.more ≡ ltb held result.total }
    ensures whole { result.whole ≡ whole_of result.total result.more }
    ensures error { is_none result.error ≡ went_well got }
{
    let n = count_of(got);
    let total = held + n;
    let more = n != 0;
    Fed {
        more,
        whole: whole_of(total, more),
        total,
        error: failure_of(got),
    }
}

// Reads on, behind the bytes that are held.
pub fn read_on<R: Read>(from: &mut R, input: &mut [u8], held: usize) -> Fed
    requires { held ≤ length input.old }
    ensures read_on { ReadOn held input.old input.new result }
    ensures failed { is_none result.error ≡ false → NothingRead held result }
{
    fed_by(held, from.read(&mut input[held..]))
}

// Reads until buf is full, the input ends or a read fails, and says how many bytes it has put at the start of buf.
pub fn read_full<R: Read>(from: &mut R, buf: &mut [u8]) -> usize
    ensures { result ≤ length buf.new }
{
    let mut done = 0;
    // No iterator would be plainer: how far a read gets is what it says itself.
    while done < buf.len() {
        match from.read(&mut buf[done..]) {
            Ok(0) | Err(_) => break,
            Ok(n) => done += n,
        }
    }
    done
}

// Moves what lies between from and to to the front, and says how much it is.
pub fn keep(buf: &mut [u8], from: usize, to: usize) -> usize
    requires from_le_to { from ≤ to }
    requires to_in_bounds { to ≤ length buf.old }
    ensures value { result ≡ to - from }
    ensures buf_after { buf.new ≡ paste buf.old 0 (drop from buf.old) result }
{
    buf.copy_within(from..to, 0);
    to - from
}

// Hands what is read to step, whole records while more may come, each time with what step made of those before. Handed
// back is what it made of the last, or None where the input doesn't end.
pub fn fold<R: Read, S: Drop, F: FnMut(S, &[u8]) -> Result<S, Failure>>(
    from: &mut R,
    input: &mut [u8],
    first: S,
    mut step: F,
) -> Result<Option<S>, Failure>
    requires { F.IsAlwaysCallable step }
    ensures { IfOk result (λ end. IfSome end (λ made. (f f' : F) × (m : S) × (b : _) × F.step f m b (Ok made) f')) }
{
    let mut made = first;
    let mut held = 0;
    for _ in 0..u64::MAX {
        let fed = read_on(from, input, held);
        if let Some(error) = fed.error {
            return Err(Failure::Input(error));
        }
        made = step(made, &input[..fed.whole])?;
        if !fed.more {
            return Ok(Some(made));
        }
        held = keep(input, fed.whole, fed.total);
    }
    Ok(None)
}

// Goes through an input in which each record stands behind a byte with its length, and hands on that length and the
// record, which has fewer bytes where the input ends. Nothing is handed back, so there is nothing to promise of it.
pub fn each_record<R: Read, F: FnMut(usize, &[u8])>(from: &mut R, mut each: F)
    requires { F.IsAlwaysCallable each }
{
    let mut one = [0];
    let mut buf = [0; 255];
    for _ in 0..u64::MAX {
        if read_full(from, &mut one) == 0 {
            return;
        }
        let len = usize::from(one[0]);
        let n = read_full(from, &mut buf[..len]);
        each(len, &buf[..n]);
    }
}
