// One task's turn: what a due, an end, a tick or a call does to it, and which sets have it.
ghost use Rattle.std.specs.Prelude.{◌≡◌, ◌||◌, ◌≤◌};
ghost use Rattle.calendar.specs.Limits.{day_length, last_instant, most_instant};
ghost use Rattle.task.specs.State.{runnable, wait_over, wait_for, unheld, suspended, with_current, with_alive};
ghost use Rattle.schedule.specs.Alarms.{listens};
ghost use Rattle.task.specs.Turns.{unmarked, cleared, due_turn, end_turn, prevent_turn, suspend_turn, go_on_turn, delay_turn, delay_ends, wake, fall_turn, tick_turn, plan_turn, start_turn, trigger_turn, go_on_later_turn, rest_turn};

use crate::{Hold, Marks, NO_MARKS, Task, Turn};
use calendar::Instant;
use layout::Numbers;
use lock::{Wait, is_waiting};
use schedule::{Alarm, Schedule};

impl Hold {
    pub fn is_unheld(self) -> bool
        ensures { result ≡ unheld self }
    {
        matches!(self, Hold::Unheld)
    }

    pub fn is_suspended(self) -> bool
        ensures { result ≡ suspended self }
    {
        matches!(self, Hold::Suspended)
    }

    // Whether a delay ends at n.
    pub fn ends_at(self, n: Instant) -> bool
        ensures { result ≡ delay_ends n self }
    {
        matches!(self, Hold::Delayed(m) if m == n)
    }
}

impl Turn {
    // A turn that marks nothing.
    pub fn unmarked(task: Task) -> Turn
        ensures { result ≡ unmarked task }
    {
        Turn {
            task,
            marks: NO_MARKS,
        }
    }
}

impl Task {
    pub fn is_runnable(self) -> bool
        ensures { result ≡ runnable self }
    {
        self.alive & self.hold.is_unheld() & !is_waiting(self.wait)
    }

    // A wait that is over; its list is not looked at any more.
    pub fn wait_over(self) -> Task
        ensures { result ≡ wait_over self }
    {
        Task {
            wait: Wait::Nothing,
            ..self
        }
    }

    // A wait takes the whole list of the call.
    pub fn wait_for(self, wait: Wait, len: u8, list: Numbers) -> Task
        ensures { result ≡ wait_for wait len list self }
    {
        Task {
            wait,
            len,
            list,
            ..self
        }
    }

    // Started or ended with priority p: unheld, waiting for nothing, with no start kept back.
    fn reset(self, alive: bool, p: u8) -> Task
        ensures { result ≡ with_alive alive (with_current p (cleared self)) }
    {
        Task {
            current: p,
            alive,
            kept: None,
            wait: Wait::Nothing,
            hold: Hold::Unheld,
            ..self
        }
    }

    // A start with priority p falls due: it is made, kept back or lost.
    #[tactic(auto, unfolding(crate::specs::Turns::due_if))]
    pub fn due(mut self, p: u8) -> Turn
        ensures { result ≡ due_turn p self }
    {
        let mut marks = Marks {
            due: true,
            ..NO_MARKS
        };
        if !self.alive {
            marks.started = true;
            self = self.reset(true, p);
        } else if self.kept.is_none() {
            self.kept = Some(p);
        } else {
            marks.lost = true;
        }
        Turn { task: self, marks }
    }

    // The end of a task; a start kept back starts.
    #[tactic(auto, unfolding(crate::specs::Turns::end_if))]
    pub fn end(self) -> Turn
        ensures { result ≡ end_turn self }
    {
        let marks = Marks {
            started: self.kept.is_some(),
            ended: true,
            ..NO_MARKS
        };
        let task = match self.kept {
            None => self.reset(false, self.declared),
            Some(p) => self.reset(true, p),
        };
        Turn { task, marks }
    }

    // PREVENT removes schedule, continuation and the start kept back, which is lost.
    #[tactic(auto, unfolding(crate::specs::Turns::prevent_turn))]
    pub fn prevent(self) -> Turn
        ensures { result ≡ prevent_turn self }
    {
        let marks = Marks {
            lost: self.kept.is_some(),
            ..NO_MARKS
        };
        let task = Task {
            kept: None,
            schedule: Schedule::none(),
            ..self.dropped()
        };
        Turn { task, marks }
    }

    #[tactic(auto, unfolding(crate::specs::Turns::suspend_turn))]
    pub fn suspend(self) -> Turn
        ensures { result ≡ suspend_turn self }
    {
        Turn::unmarked(Task {
            hold: Hold::Suspended,
            ..self
        })
    }

    // CONTINUE, with the priority given or, at 0, the current one.
    #[tactic(auto, unfolding(crate::specs::Turns::go_on_turn))]
    pub fn go_on(self, given: u8) -> Turn
        ensures { result ≡ go_on_turn given self }
    {
        Turn::unmarked(self.goes_on(given))
    }

    // RESUME delays until n.
    #[tactic(auto, unfolding(crate::specs::Turns::delay_turn))]
    pub fn delay(self, n: Instant) -> Turn
        ensures { result ≡ delay_turn n self }
    {
        Turn::unmarked(Task {
            hold: Hold::Delayed(n),
            ..self
        })
    }

    // A task delayed until n is unheld.
    #[tactic(auto, unfolding(crate::specs::Turns::wake))]
    fn wake(self, n: Instant) -> Task
        ensures { result ≡ wake n self }
    {
        if self.hold.ends_at(n) {
            return Task {
                hold: Hold::Unheld,
                ..self
            };
        }
        self
    }

    // What of the schedule falls on n is due.
    #[tactic(auto, unfolding(crate::specs::Turns::fall_turn))]
    fn fall(self, n: Instant) -> Turn
        requires { n.0 ≤ most_instant }
        ensures { result ≡ fall_turn n self }
    {
        let s = self.schedule;
        if s.alarm.falls_on(n) {
            let t = Task {
                schedule: s.advance(n),
                ..self
            };
            return t.due(s.priority);
        }
        Turn::unmarked(self)
    }

    // A tick to n: the delay first, then the continuation, then the schedule.
    pub fn tick(self, n: Instant) -> Turn
        requires { n.0 ≤ most_instant }
        ensures { result ≡ tick_turn n self }
    {
        self.wake(n).continue_at(n).fall(n)
    }

    // A schedule, from n on.
    pub fn plan(self, s: Schedule, n: Instant) -> Turn
        requires { n.0 ≤ most_instant }
        ensures { result ≡ plan_turn n s self }
    {
        let t = Task {
            schedule: s,
            ..self
        };
        t.fall(n)
    }

    // Whether the task has a schedule or a continuation that waits for interrupt i.
    pub fn listens_to(self, i: u8) -> bool
        ensures { result ≡ (listens i self.schedule.alarm || listens i self.continuation) }
    {
        self.schedule.alarm.listens_to(i) | self.continuation.listens_to(i)
    }

    // A trigger of interrupt i at n sets off a schedule that waits for it.
    #[tactic(auto, unfolding(crate::specs::Turns::start_turn))]
    fn start_by(self, clock: u32, n: Instant, i: u8) -> Turn
        requires { n.0 ≤ last_instant }
        ensures { result ≡ start_turn day_length clock n i self }
    {
        let s = self.schedule;
        if s.alarm.listens_to(i) {
            return self.plan(s.trigger(clock, n), n);
        }
        Turn::unmarked(self)
    }

    // TRIGGER of the enabled interrupt i at n: the continuation first, then the schedule.
    pub fn trigger(self, clock: u32, n: Instant, i: u8) -> Turn
        requires { n.0 ≤ last_instant }
        ensures { result ≡ trigger_turn day_length clock n i self }
    {
        self.called_by(i, n).start_by(clock, n, i)
    }

    // CONTINUE on a schedule: a continuation, from n on.
    pub fn go_on_later(self, alarm: Alarm, given: u8, resumed: bool, n: Instant) -> Turn
        ensures { result ≡ go_on_later_turn n alarm given resumed self }
    {
        let t = self.with_continuation(alarm, given, resumed);
        Turn::unmarked(t.continue_at(n))
    }

    // RESUME on a schedule: suspended until then.
    pub fn rest(self, alarm: Alarm, n: Instant) -> Turn
        ensures { result ≡ rest_turn n alarm self }
    {
        let t = Task {
            hold: Hold::Suspended,
            ..self
        };
        t.go_on_later(alarm, 0, true, n)
    }
}
