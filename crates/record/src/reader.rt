// The reader.
ghost use Rattle.std.specs.Prelude.{◌≡◌, length};
ghost use Rattle.calendar.specs.Limits.{day_length};
ghost use Rattle.layout.specs.Fields.{record_length, head_of, list_of};
ghost use Rattle.record.specs.Numbers.{refused_with};
ghost use Rattle.record.specs.Refusals.{refusal};
ghost use Rattle.record.specs.Reading.{number_of, call_with, refused, opened, reading};

use crate::refusals::Refusal;
use crate::shape::shape_at;
use crate::times::times_of;
use crate::{Read, Reading};
use layout::fields::{head_at, letters_at, list_at};
use layout::marks::mark_of;
use layout::{Bytes, Head, NO_LIST, Numbers};

// A refusal hands back a list of zeros.
pub fn refused(n: u8) -> Reading
    ensures { result ≡ refused n }
{
    Reading {
        answer: Err(n),
        list: NO_LIST,
    }
}

// The number of an answer: 0, or the refusal's.
pub fn number_of(a: Read) -> u8
    ensures { result ≡ number_of a }
{
    match a {
        Err(n) => n,
        Ok(_) => 0,
    }
}

// The fields of 24 bytes, or refusal 2 where the mark is none.
pub fn open_record(s: &Bytes) -> Reading
    ensures { result ≡ opened s.now }
{
    let Some(mark) = mark_of(letters_at(s)) else {
        return refused(Refusal::NoRecord.number());
    };
    let head = head_at(s, mark);
    Reading {
        answer: Ok(head),
        list: list_at(s),
    }
}

// The fields of a record, or refusal 2.
pub fn open(s: &[u8]) -> Reading
    ensures { result ≡ opened s.now }
{
    match <&Bytes>::try_from(s) {
        Ok(record) => open_record(record),
        Err(_) => refused(Refusal::NoRecord.number()),
    }
}

// What refuses the fields of a record: 3, 4 or 6.
#[tactic(auto, using(crate::proofs::NumberLaws::number_some, crate::proofs::ReaderLaws::shape_some))]
pub(crate) fn refusal_at(s: &Bytes, h: Head, list: Numbers) -> Result<(), Refusal>
    requires h_value { h ≡ head_of h.mark s.now }
    requires list_value { list ≡ list_of s.now }
    ensures { refused_with result ≡ refusal day_length (call_with h list) }
{
    shape_at(s, h, list)?;
    times_of(h)
}

// What bytes of any length say, or the first of refusals 2, 3, 4 and 6.
pub fn read(s: &[u8]) -> Reading
    ensures { result ≡ reading day_length s.now }
{
    let Ok(record) = <&Bytes>::try_from(s) else {
        return refused(Refusal::NoRecord.number());
    };
    let r = open_record(record);
    let Ok(head) = r.answer else {
        return r;
    };
    match refusal_at(record, head, r.list) {
        Ok(()) => r,
        Err(refusal) => refused(refusal.number()),
    }
}
