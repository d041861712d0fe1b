// Answers: a number, the running task, and the five sets. And the kernel after an accepted call.
ghost use Rattle.std.specs.Prelude.{◌≡◌};
ghost use Rattle.machine.specs.Sets.{no_sets};
ghost use Rattle.machine.specs.State.{begun_at};
ghost use Rattle.machine.specs.Step.{plain_answer, answered};
ghost use Rattle.kernel_values.specs.Answers.{answer_of};

use calendar::Instant;
use machine::{Answer, Running, Sets, State, Stepped};

pub fn answer_of(number: u8, running: Running, sets: Sets) -> Answer
    ensures { result ≡ answer_of number running sets }
{
    Answer {
        number,
        running,
        sets,
    }
}

// Empty sets.
pub fn no_sets() -> Sets
    ensures { result ≡ no_sets }
{
    Sets {
        due: 0,
        started: 0,
        ended: 0,
        lost: 0,
        granted: 0,
    }
}

// An answer with empty sets.
pub fn plain_answer(number: u8, running: Running) -> Answer
    ensures { result ≡ plain_answer number running }
{
    answer_of(number, running, no_sets())
}

// The kernel as it is, with such an answer.
pub fn answered(k: State, number: u8, running: Running) -> Stepped
    ensures { result ≡ answered k number running }
{
    Stepped {
        state: k,
        answer: plain_answer(number, running),
    }
}

// The kernel after an accepted call, at instant n.
pub fn begun_at(mut k: State, n: Instant) -> State
    ensures { result ≡ begun_at n k }
{
    k.now = n;
    k.begun = true;
    k
}
