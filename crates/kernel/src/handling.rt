// A kernel handed on: made, asked, and stepped by bytes or by a call.
ghost use Rattle.std.specs.Prelude.{◌≡◌};
ghost use Rattle.calendar.specs.Limits.{day_length};
ghost use Rattle.machine.specs.State.{nothing};
ghost use Rattle.machine.specs.Step.{step, carry};
ghost use Rattle.kernel.specs.Reply.{reply};

use crate::{Kernel, Reply};
use calendar::Moment;
use kernel_declaring::fresh::fresh;
use kernel_step::step;
use layout::Call;
use layout::fields::bytes_of;
use machine::{Running, Stepped};

// A step's next kernel and answer, as they are.
#[tactic(auto, unfolding(crate::specs::Reply::reply))]
fn replied(stepped: Stepped) -> Reply
    ensures { result ≡ reply stepped }
{
    Reply {
        kernel: Kernel {
            state: stepped.state,
        },
        answer: stepped.answer,
    }
}

impl Kernel {
    // Nothing is declared.
    pub fn fresh() -> Kernel
        ensures { result.state ≡ nothing }
    {
        Kernel { state: fresh() }
    }

    // The running task on file, or none.
    pub fn running(self) -> Running
        ensures { result ≡ self.state.file.running }
    {
        self.state.file.running
    }

    // When something next comes without another call, or never: the moment on file.
    pub fn next_event(self) -> Moment
        ensures { result ≡ self.state.file.next }
    {
        self.state.file.next
    }

    // The machine's step over bytes of any length.
    pub fn step(self, s: &[u8]) -> Reply
        ensures { result ≡ reply (step day_length self.state s.now) }
    {
        replied(step(self.state, s))
    }

    // A call or declaration, by its record.
    #[tactic(auto, using(crate::proofs::Replies::record_replies))]
    pub(crate) fn carry(self, c: Call) -> Reply
        ensures { result ≡ reply (carry day_length self.state c) }
    {
        self.step(&bytes_of(c))
    }
}
