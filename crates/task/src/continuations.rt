// One task's continuation: what is left with it, and what it does when it comes due.
ghost use Rattle.std.specs.Prelude.{◌≡◌, ◌≤◌};
ghost use Rattle.calendar.specs.Limits.{last_instant};
ghost use Rattle.task.specs.State.{with_continuation};
ghost use Rattle.task.specs.Continuations.{or_else, goes_on, dropped, spent, continued, continue_at, called_by};

use crate::{Hold, Task};
use calendar::Instant;
use schedule::Alarm;

// The priority given, or another where it is 0.
pub fn or_else(given: u8, other: u8) -> u8
    ensures { result ≡ or_else given other }
{
    if given == 0 { other } else { given }
}

impl Task {
    pub(crate) fn with_continuation(self, continuation: Alarm, given: u8, resumed: bool) -> Task
        ensures { result ≡ with_continuation continuation given resumed self }
    {
        Task {
            given,
            resumed,
            continuation,
            ..self
        }
    }

    // Without a continuation.
    pub(crate) fn dropped(self) -> Task
        ensures { result ≡ dropped self }
    {
        self.with_continuation(Alarm::none(), 0, false)
    }

    // Unheld, with the priority given or, at 0, the current one.
    pub(crate) fn goes_on(self, given: u8) -> Task
        ensures { result ≡ goes_on given self }
    {
        Task {
            current: or_else(given, self.current),
            hold: Hold::Unheld,
            ..self
        }
    }

    // What a due leaves: a CONTINUE's WHEN waits for its interrupt again, all others are gone.
    #[tactic(auto, unfolding(crate::specs::Continuations::spent))]
    fn spent(self) -> Task
        ensures { result ≡ spent self }
    {
        if self.continuation.plan.is_listening() & !self.resumed {
            return Task {
                continuation: self.continuation.rearmed(),
                ..self
            };
        }
        self.dropped()
    }

    // The continuation comes due: a held task goes on, with any other nothing happens.
    #[tactic(auto, unfolding(crate::specs::Continuations::continued))]
    fn continued(self) -> Task
        ensures { result ≡ continued self }
    {
        if self.hold.is_unheld() {
            return self.spent();
        }
        self.goes_on(self.given).spent()
    }

    // The continuation comes due if it falls on n.
    #[tactic(auto, unfolding(crate::specs::Continuations::continue_at))]
    pub(crate) fn continue_at(self, n: Instant) -> Task
        ensures { result ≡ continue_at n self }
    {
        if self.continuation.falls_on(n) {
            return self.continued();
        }
        self
    }

    // A trigger of interrupt i at n sets off a continuation that waits for it.
    #[tactic(auto, unfolding(crate::specs::Continuations::called_by))]
    pub(crate) fn called_by(self, i: u8, n: Instant) -> Task
        requires { n.0 ≤ last_instant }
        ensures { result ≡ called_by n i self }
    {
        if self.continuation.listens_to(i) {
            let t = Task {
                continuation: self.continuation.set_off(n),
                ..self
            };
            return t.continue_at(n);
        }
        self
    }
}
