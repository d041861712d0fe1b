// Ticks: their bytes, and whether something comes to them.
ghost use Rattle.std.specs.Prelude.{◌≡◌, ◌≤◌};
ghost use Rattle.calendar.specs.Limits.{last_instant};
ghost use Rattle.kernel_values.specs.Ticks.{is_tick, is_quiet};

use calendar::{Instant, LAST_INSTANT, Moment, capped_at};
use layout::RECORD_LENGTH;
use lists::zeros;

// Whether a record is a tick.
pub fn is_tick(s: &[u8]) -> bool
    ensures { result ≡ is_tick s.now }
{
    s.len() == RECORD_LENGTH && s[0] == b'T' && s[1] == b'I' && zeros(&s[2..])
}

// Whether a tick at this instant is accepted, and arrives before the next event.
pub fn is_quiet(now: Instant, next: Moment) -> bool
    requires { now.0 ≤ last_instant }
    ensures { result ≡ is_quiet now next }
{
    now.0 + 1 < capped_at(next, LAST_INSTANT + 1)
}
