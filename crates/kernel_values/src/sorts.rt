// What a mark is about.
ghost use Rattle.std.specs.Prelude.{◌≡◌};
ghost use Rattle.machine.specs.Sorts.{sort_of, asked_kind, declaring};

use layout::Mark;
use lock::Wait;
use machine::Sort;

pub fn sort_of(mark: Mark) -> Sort
    ensures { result ≡ sort_of mark }
{
    match mark {
        Mark::DT | Mark::DS | Mark::DB | Mark::IT | Mark::DC => Sort::Declaration,
        Mark::AC | Mark::TE | Mark::SU | Mark::PR | Mark::CO => Sort::OneTask,
        Mark::EN | Mark::RE => Sort::TheRunner,
        Mark::RQ => Sort::ListAsked(Wait::Request, true),
        Mark::RL => Sort::ListGiven(Wait::Request),
        Mark::TR => Sort::ListAsked(Wait::Request, false),
        Mark::RS => Sort::ListAsked(Wait::Reserve, true),
        Mark::FR => Sort::ListGiven(Wait::Reserve),
        Mark::ET => Sort::ListAsked(Wait::Enter, true),
        Mark::LV => Sort::ListGiven(Wait::Enter),
        Mark::TG | Mark::EI | Mark::XI => Sort::AnInterrupt,
        Mark::TI | Mark::SL => Sort::EveryTask,
    }
}

pub fn is_declaring(sort: Sort) -> bool
    ensures { result ≡ declaring sort }
{
    matches!(sort, Sort::Declaration)
}

// What kind of list a call of a sort asks for.
pub fn asked_kind(sort: Sort) -> Wait
    ensures { result ≡ asked_kind sort }
{
    match sort {
        Sort::ListAsked(w, _) => w,
        _ => Wait::Nothing,
    }
}
