// The calendar of the rack kernel: instants, durations and times of day. It knows no tasks.
#![tactic(auto)]

ghost use Rattle.std.specs.Prelude.{◌≡◌, ◌≤◌};
ghost use Rattle.calendar.specs.Limits.{day_length, most_instant, is_time_of_day, is_duration, is_period};
ghost use Rattle.calendar.specs.Times.{plus, time_of_day, until};
ghost use Rattle.calendar.specs.Moments.{same_moment, comes_by, instant_or, capped_at};
ghost use Rattle.calendar.specs.Dues.{first_due, last_allowed, allowed, next_due};

// Instants, durations and times of day are counted in ticks of one millisecond.
pub const DAY_LENGTH: u32 = 86_400_000;

pub const LONGEST_DURATION: u32 = 1_000_000_000;

pub const LAST_INSTANT: u64 = 1_099_511_627_776;

pub const MOST_INSTANT: u64 = 4_398_046_511_104;

// CLOCK in PEARL: ticks since the kernel was fresh.
#[derive(Clone, Copy, PartialEq, PartialOrd)]
pub struct Instant(pub u64);

// DURATION in PEARL.
#[derive(Clone, Copy)]
pub struct Duration(pub u32);

// When a start first comes due, seen from the instant at which it takes effect.
#[derive(Clone, Copy)]
pub enum Start {
    Now,
    AtTime(u32),
    After(Duration),
}

// How long a start repeats.
#[derive(Clone, Copy)]
pub enum End {
    Open,
    Until(u32),
    During(Duration),
}

// When something comes: an instant, or never.
pub type Moment = Option<Instant>;

pub fn is_time_of_day(t: u32) -> bool
    ensures { result ≡ is_time_of_day day_length t }
{
    t < DAY_LENGTH
}

pub fn is_duration(d: u32) -> bool
    ensures { result ≡ is_duration d }
{
    1 <= d && d <= LONGEST_DURATION
}

// Without repetition the period is 0, which passes.
pub fn is_period(p: u32) -> bool
    ensures { result ≡ is_period p }
{
    p <= LONGEST_DURATION
}

impl Instant {
    // The only sum with an instant in it. Callers have an instant that a kernel stores, which the kernel test
    // holds to MOST_INSTANT.
    // No invariant of Instant says so: a kernel of any numbers comes to that test, and is refused there.
    pub fn plus(self, d: Duration) -> Instant
        requires { self.0 ≤ most_instant }
        ensures { result ≡ plus self d }
    {
        Instant(self.0 + d.0 as u64)
    }

    // Which time of day it is here; clock says what it was at instant 0.
    #[tactic(auto, unfolding(crate::specs::Times::time_of_day))]
    pub fn time_of_day(self, clock: u32) -> u32
        ensures { result ≡ time_of_day day_length clock self }
    {
        let day = DAY_LENGTH as u64;
        ((clock as u64 + self.0 % day) % day) as u32
    }

    // From here to the next time of day t: 0 if it is t now, always less than a day.
    #[tactic(auto, unfolding(crate::specs::Times::time_of_day, crate::specs::Times::until))]
    pub fn until(self, clock: u32, t: u32) -> Duration
        ensures { result ≡ until day_length clock self t }
    {
        let day = DAY_LENGTH as u64;
        let left = day - self.time_of_day(clock) as u64;
        Duration(((t as u64 + left) % day) as u32)
    }
}

// The same instant, or none both times.
pub fn is_same(a: Moment, b: Moment) -> bool
    ensures { result ≡ same_moment a b }
{
    a == b
}

// An instant, and l at the latest.
pub fn comes_by(m: Moment, l: u64) -> bool
    ensures { result ≡ comes_by l m }
{
    m.is_some_and(|n| n.0 <= l)
}

// The instant, or n where there is none.
pub fn instant_or(m: Moment, n: Instant) -> Instant
    ensures { result ≡ instant_or n m }
{
    m.unwrap_or(n)
}

// The instant as a number, but at most l.
pub fn capped_at(m: Moment, l: u64) -> u64
    ensures { result ≡ capped_at l m }
{
    m.map_or(l, |n| n.0.min(l))
}

// First due of a start that takes effect at n.
#[tactic(auto, unfolding(crate::specs::Dues::first_due))]
pub fn first_due(start: Start, clock: u32, n: Instant) -> Instant
    requires { n.0 ≤ most_instant }
    ensures { result ≡ first_due day_length start clock n }
{
    match start {
        Start::Now => n,
        Start::AtTime(t) => n.plus(n.until(clock, t)),
        Start::After(d) => n.plus(d),
    }
}

// Last allowed due of a start whose first is f; never where there is no end.
#[tactic(auto, unfolding(crate::specs::Dues::last_allowed))]
pub fn last_allowed(end: End, clock: u32, f: Instant) -> Moment
    requires { f.0 ≤ most_instant }
    ensures { result ≡ last_allowed day_length end clock f }
{
    match end {
        End::Open => None,
        End::Until(u) => Some(f.plus(f.until(clock, u))),
        End::During(d) => Some(f.plus(d)),
    }
}

// Both ends belong: the last instant itself is allowed.
#[tactic(auto, unfolding(crate::specs::Dues::allowed))]
pub fn is_allowed(last: Moment, n: Instant) -> bool
    ensures { result ≡ allowed last n }
{
    last.is_none_or(|l| n <= l)
}

// Next due after one at n, or never.
#[tactic(auto, unfolding(crate::specs::Dues::next_due))]
pub fn next_due(period: u32, last: Moment, n: Instant) -> Moment
    requires { n.0 ≤ most_instant }
    ensures { result ≡ next_due period last n }
{
    if period == 0 {
        return None;
    }
    let next = n.plus(Duration(period));
    is_allowed(last, next).then_some(next)
}
