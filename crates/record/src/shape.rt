// Refusals 3 and 4: unused fields, ranges and lists.
// `&` and `|` join tests that are all safe to make.
ghost use Rattle.std.specs.Prelude.{◌≡◌, true, false, ◌&&◌, ◌||◌, ◌+◌, ◌≤◌, leb, eqb, length, drop};
ghost use Rattle.layout.specs.Fields.{record_length, head_of, list_of, most_numbers};
ghost use Rattle.lists.specs.Lists.{all_zero, stretch};
ghost use Rattle.record.specs.Refusals.{last_kind, last_plain_kind, last_end_kind, on_interrupt, at_time, after_duration, plain_use, start, going, formed, listed, shape};
ghost use Rattle.record.specs.Numbers.{refused_with};
ghost use Rattle.record.specs.Stretches.{start_bytes, used_start, stretches, unused, zero_in};
ghost use Rattle.layout.specs.Marks.{form};
ghost use Rattle.record.specs.Reading.{call_with};

use crate::kinds::{has_first, is_on_interrupt};
use crate::refusals::Refusal;
use crate::{LAST_END_KIND, LAST_KIND, LAST_PLAIN_KIND, MOST_VALUE};
use layout::marks::form_of;
use layout::{Bytes, Form, Head, MOST_NUMBERS, Numbers, RECORD_LENGTH};
use lists::{is_distinct, zero_between};

// Whether the record is zero from a on.
fn zero_from(s: &Bytes, a: usize) -> bool
    requires a_le_record_length { a ≤ record_length }
    ensures { result ≡ all_zero (stretch s.now a record_length) }
{
    zero_between(s, a, RECORD_LENGTH)
}

// Whether the bytes behind the mark are zero, but for those from a up to b.
fn zero_around(s: &Bytes, a: usize, b: usize) -> bool
    requires le_a { (2 ≤ a) × (a ≤ b) × (b ≤ record_length) }
    ensures { result ≡ (all_zero (stretch s.now 2 a) && all_zero (stretch s.now b record_length)) }
{
    zero_between(s, 2, a) & zero_from(s, b)
}

// Whether all bytes behind the last number of a list are zero.
#[tactic(auto, using(crate::proofs::CleanLaws::past_at, crate::proofs::CleanLaws::past_four))]
fn zero_past(s: &Bytes, len: u8) -> bool
    requires len_le_most_numbers { len ≤ most_numbers }
    ensures { result ≡ all_zero (drop (5 + len) s.now) }
{
    match len {
        0 => zero_from(s, 5),
        1 => zero_from(s, 6),
        2 => zero_from(s, 7),
        3 => zero_from(s, 8),
        _ => zero_from(s, 9),
    }
}

// Whether a list's length is in range and the bytes are zero that its call doesn't use.
#[tactic(auto, using(crate::proofs::CleanLaws::with_list))]
fn is_list_formed(s: &Bytes, len: u8) -> bool
    ensures { result ≡ (leb len most_numbers && zero_in s.now (unused (plain_use false false true false) len)) }
{
    if MOST_NUMBERS < len {
        return false;
    }
    zero_between(s, 2, 4) & zero_past(s, len)
}

// Whether the bytes behind the kind of a CONTINUE or RESUME are zero that it doesn't use.
#[tactic(auto, using(crate::proofs::CleanLaws::going_when_first, crate::proofs::CleanLaws::going_first, crate::proofs::CleanLaws::going_when, crate::proofs::CleanLaws::going_neither))]
fn is_going_clean(s: &Bytes, when: bool, first: bool) -> bool
    ensures { result ≡ zero_in s.now (stretches 10 (start_bytes when false first false false)) }
{
    if first {
        if when {
            return zero_between(s, 11, 12) & zero_from(s, 16);
        }
        return zero_between(s, 10, 12) & zero_from(s, 16);
    }
    if when {
        return zero_from(s, 11);
    }
    zero_from(s, 10)
}

// Whether a CONTINUE's kind is in range and the bytes are zero that it doesn't use.
#[tactic(auto, using(crate::proofs::CleanLaws::continuation))]
fn is_continuation_formed(s: &Bytes, kind: u8) -> bool
    ensures { result ≡ (leb kind last_plain_kind && zero_in s.now (unused (going true (at_time kind || after_duration kind) kind) 0)) }
{
    (kind <= LAST_PLAIN_KIND)
        & zero_between(s, 4, 9)
        & is_going_clean(s, is_on_interrupt(kind), has_first(kind))
}

// The same of a RESUME, which names no task and has no priority.
#[tactic(auto, using(crate::proofs::CleanLaws::resumption))]
fn is_resumption_formed(s: &Bytes, kind: u8) -> bool
    ensures { result ≡ (leb kind last_plain_kind && zero_in s.now (unused (going false (eqb kind 0 || (at_time kind || after_duration kind)) kind) 0)) }
{
    (kind <= LAST_PLAIN_KIND)
        & zero_between(s, 2, 9)
        & is_going_clean(s, is_on_interrupt(kind), (kind == 0) | has_first(kind))
}

// Whether the bytes behind the kind of a scheduled activation are zero that it doesn't use, but for its end's time.
#[tactic(auto, using(crate::proofs::CleanLaws::with_at, crate::proofs::CleanLaws::with_after, crate::proofs::CleanLaws::with_when, crate::proofs::CleanLaws::with_when_after, crate::proofs::CleanLaws::with_all))]
fn is_schedule_clean(s: &Bytes, kind: u8) -> bool
    ensures { result ≡ zero_in s.now (stretches 10 (start_bytes (on_interrupt kind) true (at_time kind || after_duration kind) true true)) }
{
    match kind {
        1 => zero_between(s, 10, 11),
        2 => zero_between(s, 10, 11),
        3 => zero_between(s, 12, 16),
        4 => true,
        _ => zero_between(s, 10, 11) & zero_between(s, 12, 16),
    }
}

// Whether the bytes behind the kind of an activation are zero that it doesn't use.
#[tactic(auto, using(crate::proofs::CleanLaws::unscheduled_end, crate::proofs::CleanLaws::unscheduled, crate::proofs::CleanLaws::with_end, crate::proofs::CleanLaws::without_end))]
fn is_start_clean(s: &Bytes, kind: u8, endkind: u8) -> bool
    ensures { result ≡ zero_in s.now (stretches 10 (used_start (start kind endkind))) }
{
    if kind == 0 {
        if 0 < endkind {
            return zero_between(s, 10, 20);
        }
        return zero_from(s, 10);
    }
    if 0 < endkind {
        return is_schedule_clean(s, kind);
    }
    is_schedule_clean(s, kind) & zero_from(s, 20)
}

// Whether an activation's kinds are in range and the bytes are zero that it doesn't use.
#[tactic(auto, using(crate::proofs::CleanLaws::activation))]
fn is_activation_formed(s: &Bytes, kind: u8, endkind: u8) -> bool
    ensures { result ≡ (leb kind last_kind && leb endkind last_end_kind && zero_in s.now (unused (start kind endkind) 0)) }
{
    (kind <= LAST_KIND)
        & (endkind <= LAST_END_KIND)
        & zero_between(s, 4, 9)
        & is_start_clean(s, kind, endkind)
}

// Whether the record passes refusal 3.
pub(crate) fn is_formed(s: &Bytes, h: Head, list: Numbers) -> bool
    requires h_value { h ≡ head_of h.mark s.now }
    requires list_value { list ≡ list_of s.now }
    ensures { result ≡ formed (call_with h list) }
{
    match form_of(h.mark) {
        Form::Bare => zero_from(s, 2),
        Form::Number => zero_from(s, 3),
        Form::Continuation => is_continuation_formed(s, h.kind),
        Form::DeclaredPriority => (1 <= h.priority) & zero_around(s, 3, 4),
        Form::Preset => (h.first <= MOST_VALUE) & zero_around(s, 12, 16),
        Form::TimeOfDay => zero_around(s, 12, 16),
        Form::Resumption => is_resumption_formed(s, h.kind),
        Form::Activation => is_activation_formed(s, h.kind, h.endkind),
        Form::Numbers => is_list_formed(s, h.len),
        Form::OneNumber => is_list_formed(s, h.len),
    }
}

// Whether the record passes refusal 4.
#[tactic(auto, unfolding(crate::specs::Refusals::listed))]
pub(crate) fn is_listed(h: Head, list: Numbers) -> bool
    requires { h.len ≤ most_numbers }
    ensures { result ≡ listed (form h.mark) (call_with h list) }
{
    let n = h.len as usize;
    match form_of(h.mark) {
        Form::Numbers => (1 <= n) & is_distinct(&list[..n]),
        Form::OneNumber => n == 1,
        _ => true,
    }
}

// Malformed or BadList, 3 or 4. Head and list are those of the record s: callers have them from open(s), or from the
// bytes of a call.
#[tactic(auto, using(crate::proofs::ShapeLaws::formed_short), unfolding(crate::specs::Refusals::shape))]
pub fn shape_at(s: &Bytes, h: Head, list: Numbers) -> Result<(), Refusal>
    requires h_value { h ≡ head_of h.mark s.now }
    requires list_value { list ≡ list_of s.now }
    ensures { refused_with result ≡ shape (call_with h list) }
{
    if !is_formed(s, h, list) {
        return Err(Refusal::Malformed);
    }
    if !is_listed(h, list) {
        return Err(Refusal::BadList);
    }
    Ok(())
}
