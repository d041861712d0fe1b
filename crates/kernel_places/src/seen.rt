// The places that a scan has seen. As many tasks as places have one each exactly where all of these places were seen.
ghost use Rattle.std.specs.Prelude.{◌≡◌, not, List, ℕ, ◌≤◌, ◌-◌, ◌^◌};
ghost use Rattle.machine.specs.State.{most_tasks};
ghost use Rattle.machine.specs.Test.{places_ok};
ghost use Rattle.kernel_places.specs.Seen.{none_seen, with_place, seen_by};

use kernel_sets::put_task;
use machine::MOST_TASKS;

// The places as a set, in which place p counts 2^p, and the bits of all their numbers together, which are small only
// if each number is.
#[derive(Clone, Copy)]
pub struct Seen {
    pub places: u32,
    pub bits: u8,
}

// None yet.
pub fn none_seen() -> Seen
    ensures { result ≡ none_seen }
{
    Seen { places: 0, bits: 0 }
}

// The first n places as a set.
fn first_places(n: usize) -> u32
    requires { n ≤ most_tasks }
    ensures { result ≡ 2 ^ n - 1 }
{
    if n == 0 {
        return 0;
    }
    4294967295 >> (32 - n)
}

impl Seen {
    // And one more place.
    pub fn with(self, place: u8) -> Seen
        ensures { result ≡ with_place place self }
    {
        Seen {
            places: put_task((place % MOST_TASKS) as usize, self.places),
            bits: self.bits | place,
        }
    }

    // Whether the n tasks whose places these are don't have the first n places, each its own.
    pub fn are_wrong(self, n: usize) -> bool
        requires { n ≤ most_tasks }
        ensures { (ps : List ℕ) → self ≡ seen_by n ps → result ≡ not (places_ok n ps) }
    {
        (MOST_TASKS <= self.bits) | (self.places != first_places(n))
    }
}
