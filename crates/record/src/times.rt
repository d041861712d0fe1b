// Refusal 6: times of day, durations and periods.
ghost use Rattle.std.specs.Prelude.{◌≡◌};
ghost use Rattle.calendar.specs.Limits.{day_length};
ghost use Rattle.layout.specs.Marks.{form};
ghost use Rattle.record.specs.Numbers.{refused_with};
ghost use Rattle.record.specs.Refusals.{end_timed, first_timed, resume_timed, given_if, start_timed, timed, times};

use crate::kinds::{is_after_duration, needs_period};
use crate::refusals::Refusal;
use calendar::{is_duration, is_period, is_time_of_day};
use layout::marks::form_of;
use layout::{Form, Head};

// Whether an end's time is in range: UNTIL a time of day, DURING a duration. Most activations have no end.
#[tactic(auto, unfolding(crate::specs::Refusals::end_timed))]
fn is_end_timed(endkind: u8, t: u32) -> bool
    ensures { result ≡ end_timed day_length endkind t }
{
    if endkind == 0 {
        return true;
    }
    ((endkind != 1) | is_time_of_day(t)) & ((endkind != 2) | is_duration(t))
}

// Whether a start's first time is in range: AT a time of day, AFTER a duration. Most calls have kind 0.
#[tactic(auto, unfolding(crate::specs::Refusals::first_timed))]
fn is_first_timed(kind: u8, t: u32) -> bool
    ensures { result ≡ first_timed day_length kind t }
{
    if kind == 0 {
        return true;
    }
    ((kind != 1) | is_time_of_day(t)) & (!is_after_duration(kind) | is_duration(t))
}

// Whether a RESUME's first time is in range: a duration in kind 0, else that of its start.
#[tactic(auto, unfolding(crate::specs::Refusals::resume_timed))]
fn is_resume_timed(kind: u8, t: u32) -> bool
    ensures { result ≡ resume_timed day_length kind t }
{
    ((0 < kind) | is_duration(t)) & is_first_timed(kind, t)
}

// Whether a period is given where one is needed.
fn given_if(needed: bool, period: u32) -> bool
    ensures { result ≡ given_if needed period }
{
    !needed | (0 < period)
}

// Whether an activation's times are in range.
#[tactic(auto, unfolding(crate::specs::Refusals::start_timed))]
fn is_start_timed(h: Head) -> bool
    ensures { result ≡ start_timed day_length h }
{
    is_first_timed(h.kind, h.first)
        & is_period(h.period)
        & given_if(needs_period(h.kind, h.endkind), h.period)
        & is_end_timed(h.endkind, h.endtime)
}

// Whether the record passes refusal 6.
#[tactic(auto, unfolding(crate::specs::Refusals::timed))]
fn is_timed(h: Head) -> bool
    ensures { result ≡ timed day_length (form h.mark) h }
{
    match form_of(h.mark) {
        Form::TimeOfDay => is_time_of_day(h.first),
        Form::Continuation => is_first_timed(h.kind, h.first),
        Form::Resumption => is_resume_timed(h.kind, h.first),
        Form::Activation => is_start_timed(h),
        _ => true,
    }
}

// BadTime, 6, unless the times are in range.
#[tactic(auto, unfolding(crate::specs::Refusals::times))]
pub fn times_of(h: Head) -> Result<(), Refusal>
    ensures { refused_with result ≡ times day_length h }
{
    if is_timed(h) {
        Ok(())
    } else {
        Err(Refusal::BadTime)
    }
}
