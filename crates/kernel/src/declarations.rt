// The five declarations. A place is filled in order, from 0.
ghost use Rattle.std.specs.Prelude.{◌≡◌};
ghost use Rattle.calendar.specs.Limits.{day_length};
ghost use Rattle.machine.specs.Step.{carry};
ghost use Rattle.pearl.specs.Calls.{task_declaration, semaphore_declaration, bolt_declaration, interrupt_declaration, clock_declaration};
ghost use Rattle.kernel.specs.Reply.{reply};

use crate::{Kernel, Reply};
use pearl::declarations::{
    declare_bolt, declare_clock, declare_interrupt, declare_semaphore, declare_task,
};

impl Kernel {
    pub fn declare_task(self, priority: u8) -> Reply
        ensures { result ≡ reply (carry day_length self.state (task_declaration priority)) }
    {
        self.carry(declare_task(priority))
    }

    pub fn declare_semaphore(self, preset: u32) -> Reply
        ensures { result ≡ reply (carry day_length self.state (semaphore_declaration preset)) }
    {
        self.carry(declare_semaphore(preset))
    }

    pub fn declare_bolt(self) -> Reply
        ensures { result ≡ reply (carry day_length self.state bolt_declaration) }
    {
        self.carry(declare_bolt())
    }

    pub fn declare_interrupt(self) -> Reply
        ensures { result ≡ reply (carry day_length self.state interrupt_declaration) }
    {
        self.carry(declare_interrupt())
    }

    // The time of day at instant 0.
    pub fn declare_clock(self, time_of_day: u32) -> Reply
        ensures { result ≡ reply (carry day_length self.state (clock_declaration time_of_day)) }
    {
        self.carry(declare_clock(time_of_day))
    }
}
