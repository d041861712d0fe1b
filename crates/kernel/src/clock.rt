// Interrupts and time: TRIGGER, ENABLE, DISABLE, one tick of the clock, and sleep to the next event.
ghost use Rattle.std.specs.Prelude.{◌≡◌};
ghost use Rattle.calendar.specs.Limits.{day_length};
ghost use Rattle.machine.specs.Step.{carry};
ghost use Rattle.pearl.specs.Calls.{trigger_call, enable_call, disable_call, tick_call, sleep_call};
ghost use Rattle.kernel.specs.Reply.{reply};

use crate::{Kernel, Reply};
use pearl::clock::{disable, enable, sleep, tick, trigger};

impl Kernel {
    pub fn trigger(self, interrupt: u8) -> Reply
        ensures { result ≡ reply (carry day_length self.state (trigger_call interrupt)) }
    {
        self.carry(trigger(interrupt))
    }

    pub fn enable(self, interrupt: u8) -> Reply
        ensures { result ≡ reply (carry day_length self.state (enable_call interrupt)) }
    {
        self.carry(enable(interrupt))
    }

    pub fn disable(self, interrupt: u8) -> Reply
        ensures { result ≡ reply (carry day_length self.state (disable_call interrupt)) }
    {
        self.carry(disable(interrupt))
    }

    pub fn tick(self) -> Reply
        ensures { result ≡ reply (carry day_length self.state tick_call) }
    {
        self.carry(tick())
    }

    // To the next event, in one jump.
    pub fn sleep(self) -> Reply
        ensures { result ≡ reply (carry day_length self.state sleep_call) }
    {
        self.carry(sleep())
    }
}
