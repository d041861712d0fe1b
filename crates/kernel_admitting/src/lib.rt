// Refusals 2 to 7: what bytes, counts and the first accepted call decide of a record.
// `&` and `|` join tests that are all safe to make.
#![tactic(auto)]

ghost use Rattle.std.specs.Prelude.{◌≡◌, ◌≤◌};
ghost use Rattle.calendar.specs.Limits.{day_length};
ghost use Rattle.record.specs.Refusals.{shape};
ghost use Rattle.record.specs.Numbers.{refused_with};
ghost use Rattle.record.specs.Reading.{call_with};
ghost use Rattle.machine.specs.Sorts.{sort_of};
ghost use Rattle.machine.specs.Refusals.{start_declared, list_declared, declared_by, room_for, formal_refusal};
ghost use Rattle.layout.specs.Fields.{most_numbers};
ghost use Rattle.kernel_admitting.specs.Admits.{Admits};

use kernel_values::counts::{are_below, count_of};
use kernel_values::sorts::{is_declaring, sort_of};
use layout::{Bytes, Head, Mark, NO_LIST, Numbers};
use lock::{MOST_LOCKS, Wait};
use machine::{Counts, MOST_INTERRUPTS, MOST_TASKS, Sort};
use record::kinds::is_on_interrupt;
use record::reader::open_record;
use record::refusals::Refusal;
use record::shape::shape_at;
use record::times::times_of;
use record::{Read, Reading};

// What a record is admitted as: the answer and the list as the reader has them, and the sort of the mark.
#[derive(Clone, Copy)]
pub struct Admitted {
    pub answer: Read,
    pub list: Numbers,
    pub sort: Sort,
}

// Whether there is room for a declaration.
#[tactic(auto, unfolding(machine::specs::Refusals::room_for))]
fn has_room(mark: Mark, n: Counts) -> bool
    ensures { result ≡ room_for mark n }
{
    match mark {
        Mark::DT => n.tasks < MOST_TASKS,
        Mark::DS => n.semaphores < MOST_LOCKS,
        Mark::DB => n.bolts < MOST_LOCKS,
        Mark::IT => n.interrupts < MOST_INTERRUPTS,
        _ => true,
    }
}

// Whether a list's numbers are declared.
fn is_list_declared(n: Counts, w: Wait, h: Head, list: Numbers) -> bool
    requires { h.len ≤ most_numbers }
    ensures { result ≡ list_declared n w (call_with h list) }
{
    are_below(&list[..h.len as usize], count_of(n, w))
}

// Whether the interrupt of a start is declared.
fn is_start_declared(n: Counts, h: Head) -> bool
    ensures { result ≡ start_declared n h }
{
    !is_on_interrupt(h.kind) | (h.interrupt < n.interrupts)
}

// Whether what a call of a sort names is declared.
#[tactic(auto, unfolding(machine::specs::Refusals::declared_by))]
fn is_declared(sort: Sort, n: Counts, h: Head, list: Numbers) -> bool
    requires { h.len ≤ most_numbers }
    ensures { result ≡ declared_by sort n (call_with h list) }
{
    match sort {
        Sort::OneTask => (h.number < n.tasks) & is_start_declared(n, h),
        Sort::TheRunner => is_start_declared(n, h),
        Sort::ListAsked(w, _) => is_list_declared(n, w, h, list),
        Sort::ListGiven(w) => is_list_declared(n, w, h, list),
        Sort::AnInterrupt => h.number < n.interrupts,
        Sort::Declaration => true,
        Sort::EveryTask => true,
    }
}

// The first of refusals 2 to 7 of a call or declaration of a sort. What refuses its shape, 3, 4 or nothing, is handed in.
#[tactic(auto, using(record::proofs::ReaderLaws::first_kept, record::proofs::NumberLaws::number_some, crate::proofs::Admitting::shaped_short), unfolding(machine::specs::Refusals::formal_refusal, machine::specs::Sorts::declares))]
fn formal_refusal(
    n: Counts,
    begun: bool,
    sort: Sort,
    shaped: Result<(), Refusal>,
    h: Head,
    list: Numbers,
) -> Result<(), Refusal>
    requires sort_value { sort ≡ sort_of h.mark }
    requires shaped_value { refused_with shaped ≡ shape (call_with h list) }
    ensures { refused_with result ≡ formal_refusal day_length n begun (call_with h list) }
{
    if begun & is_declaring(sort) {
        return Err(Refusal::NoRecord);
    }
    shaped?;
    if !is_declared(sort, n, h, list) {
        return Err(Refusal::Undeclared);
    }
    times_of(h)?;
    if !has_room(h.mark, n) {
        return Err(Refusal::NoRoom);
    }
    Ok(())
}

// What bytes, counts and the first accepted call decide: the call or declaration, or the first of refusals 2 to 7.
pub fn admit(n: Counts, begun: bool, s: &[u8]) -> Admitted
    ensures { Admits day_length n begun s.now result }
{
    let Ok(record) = <&Bytes>::try_from(s) else {
        return Admitted {
            answer: Err(Refusal::NoRecord.number()),
            list: NO_LIST,
            sort: Sort::Declaration,
        };
    };
    let Reading { answer, list } = open_record(record);
    let Ok(head) = answer else {
        let sort = Sort::Declaration;
        return Admitted { answer, list, sort };
    };
    let sort = sort_of(head.mark);
    let shaped = shape_at(record, head, list);
    match formal_refusal(n, begun, sort, shaped, head, list) {
        Ok(()) => Admitted { answer, list, sort },
        Err(refusal) => Admitted {
            answer: Err(refusal.number()),
            list: NO_LIST,
            sort,
        },
    }
}
