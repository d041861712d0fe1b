// What a program does with tasks: ACTIVATE, TERMINATE, SUSPEND, PREVENT, CONTINUE, end, RESUME.
ghost use Rattle.std.specs.Prelude.{◌≡◌};
ghost use Rattle.calendar.specs.Limits.{day_length};
ghost use Rattle.machine.specs.Step.{carry};
ghost use Rattle.pearl.specs.Calls.{activate_call, terminate_call, suspend_call, prevent_call, continue_call, end_call, resume_call};
ghost use Rattle.kernel.specs.Reply.{reply};

use crate::{Kernel, Reply};
use pearl::StartCondition;
use pearl::tasks::{activate, continue_task, end, prevent, resume, suspend, terminate};

impl Kernel {
    // At once or by a start condition. Priority 0: the declared one.
    pub fn activate(self, task: u8, priority: u8, start: StartCondition) -> Reply
        ensures { result ≡ reply (carry day_length self.state (activate_call task priority start)) }
    {
        self.carry(activate(task, priority, start))
    }

    pub fn terminate(self, task: u8) -> Reply
        ensures { result ≡ reply (carry day_length self.state (terminate_call task)) }
    {
        self.carry(terminate(task))
    }

    pub fn suspend(self, task: u8) -> Reply
        ensures { result ≡ reply (carry day_length self.state (suspend_call task)) }
    {
        self.carry(suspend(task))
    }

    pub fn prevent(self, task: u8) -> Reply
        ensures { result ≡ reply (carry day_length self.state (prevent_call task)) }
    {
        self.carry(prevent(task))
    }

    // At once or by a start condition without a period. Priority 0: the one current then.
    pub fn continue_task(self, task: u8, priority: u8, start: StartCondition) -> Reply
        ensures { result ≡ reply (carry day_length self.state (continue_call task priority start)) }
    {
        self.carry(continue_task(task, priority, start))
    }

    // The running task ends.
    pub fn end(self) -> Reply
        ensures { result ≡ reply (carry day_length self.state end_call) }
    {
        self.carry(end())
    }

    // The running task is delayed by the first time, at kind 0, or suspended until its start condition comes due.
    pub fn resume(self, start: StartCondition) -> Reply
        ensures { result ≡ reply (carry day_length self.state (resume_call start)) }
    {
        self.carry(resume(start))
    }
}
