// Refusals 8 to 15 and 17: what the state decides.
#![tactic(auto)]

ghost use Rattle.std.specs.Prelude.{◌≡◌, Ok, Err, cond};
ghost use Rattle.record.specs.Numbers.{number, refused_with};
ghost use Rattle.record.specs.Reading.{call_with};
ghost use Rattle.machine.specs.Sorts.{sort_of};
ghost use Rattle.machine.specs.Refusals.{unreturnable, refusal_by};
ghost use Rattle.kernel_refusals.specs.Inner.{InOrder, named_refusal, time_refusal};

use calendar::{Instant, LAST_INSTANT, Moment, comes_by};
use kernel_values::running::is_someone;
use layout::{Head, Mark, Numbers};
use lock::{Locks, Wait, Way};
use machine::{Running, Sort};
use record::refusals::Refusal;
use task::Task;

// A refusal unless a test holds.
fn unless(ok: bool, refusal: Refusal) -> Result<(), Refusal>
    ensures { result ≡ cond ok (Ok tt) (Err refusal) }
{
    if ok { Ok(()) } else { Err(refusal) }
}

// 9 to 12: what refuses a call that names the task t.
#[tactic(auto, unfolding(crate::specs::Inner::named_refusal))]
fn named_refusal(h: Head, t: Task) -> Result<(), Refusal>
    ensures { refused_with result ≡ named_refusal h.mark h t }
{
    match h.mark {
        Mark::AC => unless((h.kind != 0) | !t.alive, Refusal::AlreadyAlive),
        Mark::TE => unless(t.alive, Refusal::NotAlive),
        Mark::SU => {
            unless(t.alive, Refusal::NotAlive)?;
            unless(!t.hold.is_suspended(), Refusal::AlreadySuspended)
        }
        Mark::CO => {
            if h.kind != 0 {
                return Ok(());
            }
            unless(t.alive, Refusal::NotAlive)?;
            unless(!t.hold.is_unheld(), Refusal::NotHeld)
        }
        _ => Ok(()),
    }
}

// 13 or 14: what refuses a list that can't be given back.
fn unreturnable(w: Wait) -> Refusal
    ensures { number result ≡ unreturnable w }
{
    match w {
        Wait::Request => Refusal::SemaphoreFull,
        _ => Refusal::BoltNotHeld,
    }
}

// 15 and 17: what refuses TI at the last instant, and SL with nothing to come by it.
#[tactic(auto, unfolding(crate::specs::Inner::time_refusal))]
pub fn time_refusal(mark: Mark, now: Instant, next: Moment) -> Result<(), Refusal>
    ensures { refused_with result ≡ time_refusal mark now next }
{
    match mark {
        Mark::TI => unless(now.0 < LAST_INSTANT, Refusal::LastInstant),
        Mark::SL => unless(comes_by(next, LAST_INSTANT), Refusal::NothingToCome),
        _ => Ok(()),
    }
}

// The first of refusals 8 to 15 and 17, with the runner, the task that the call is about, the locks, the instant and the
// next event.
pub fn state_refusal(
    sort: Sort,
    h: Head,
    list: Numbers,
    r: Running,
    t: Task,
    locks: Locks,
    now: Instant,
    next: Moment,
) -> Result<(), Refusal>
    requires sort_value { sort ≡ sort_of h.mark }
    requires in_order { InOrder (call_with h list) }
    ensures { refused_with result ≡ refusal_by h.mark (call_with h list) r t locks now next }
{
    match sort {
        Sort::OneTask => named_refusal(h, t),
        Sort::TheRunner => unless(is_someone(r), Refusal::NobodyRuns),
        Sort::ListAsked(_, _) => unless(is_someone(r), Refusal::NobodyRuns),
        Sort::ListGiven(w) => {
            unless(is_someone(r), Refusal::NobodyRuns)?;
            unless(
                locks.can_move_all(Way::Give, w, &list[..h.len as usize]),
                unreturnable(w),
            )
        }
        Sort::EveryTask => time_refusal(h.mark, now, next),
        Sort::Declaration => Ok(()),
        Sort::AnInterrupt => Ok(()),
    }
}
