// Which fields a start kind and an end kind use.
ghost use Rattle.std.specs.Prelude.{◌≡◌, ◌||◌};
ghost use Rattle.record.specs.Refusals.{on_interrupt, at_time, after_duration, needs_period};

// The start kinds that wait for an interrupt.
const WHEN: u8 = 3;

const WHEN_AFTER: u8 = 4;

// Whether a start waits for an interrupt.
pub fn is_on_interrupt(kind: u8) -> bool
    ensures { result ≡ on_interrupt kind }
{
    (kind == WHEN) | (kind == WHEN_AFTER)
}

// Whether a start's first time is a duration.
pub(crate) fn is_after_duration(kind: u8) -> bool
    ensures { result ≡ after_duration kind }
{
    (kind == 2) | (kind == WHEN_AFTER)
}

// Whether a start has a first time.
pub(crate) fn has_first(kind: u8) -> bool
    ensures { result ≡ (at_time kind || after_duration kind) }
{
    (kind == 1) | is_after_duration(kind)
}

pub(crate) fn needs_period(kind: u8, endkind: u8) -> bool
    ensures { result ≡ needs_period kind endkind }
{
    (kind == 5) | (0 < endkind)
}
