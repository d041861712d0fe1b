// Counts of tasks, of the numbers of a list, and of what a list can name.
ghost use Rattle.std.specs.Prelude.{◌≡◌, min, ltb};
ghost use Rattle.layout.specs.Fields.{most_numbers};
ghost use Rattle.lists.specs.Lists.{every};
ghost use Rattle.machine.specs.State.{most_tasks, count_of};

use layout::MOST_NUMBERS;
use lock::Wait;
use machine::{Counts, MOST_TASKS};

// A count of tasks, but at most as many as the table has.
pub fn in_table(n: u8) -> usize
    ensures { result ≡ min n most_tasks }
{
    n.min(MOST_TASKS) as usize
}

// The length of a list, but at most the numbers that there is room for.
pub fn in_list(len: u8) -> usize
    ensures { result ≡ min len most_numbers }
{
    len.min(MOST_NUMBERS) as usize
}

// How many numbers a list of a kind can name.
pub fn count_of(n: Counts, w: Wait) -> u8
    ensures { result ≡ count_of n w }
{
    match w {
        Wait::Nothing => 0,
        Wait::Request => n.semaphores,
        Wait::Reserve | Wait::Enter => n.bolts,
    }
}

// Whether each number of a list is below a count.
pub fn are_below(list: &[u8], most: u8) -> bool
    ensures { result ≡ every (λ x. ltb x most) list.now }
{
    list.iter().all(|&x| x < most)
}
