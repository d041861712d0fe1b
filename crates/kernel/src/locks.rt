// Semaphores and bolts: REQUEST, RELEASE, TRY; RESERVE, FREE, ENTER, LEAVE. A list goes to the kernel as it is.
ghost use Rattle.std.specs.Prelude.{◌≡◌};
ghost use Rattle.calendar.specs.Limits.{day_length};
ghost use Rattle.machine.specs.Step.{carry};
ghost use Rattle.pearl.specs.Calls.{request_call, release_call, try_call, reserve_call, free_call, enter_call, leave_call};
ghost use Rattle.kernel.specs.Reply.{reply};

use crate::{Kernel, Reply};
use layout::Numbers;
use pearl::locks::{enter, free, leave, release, request, reserve, try_request};

impl Kernel {
    pub fn request(self, len: u8, list: Numbers) -> Reply
        ensures { result ≡ reply (carry day_length self.state (request_call len list)) }
    {
        self.carry(request(len, list))
    }

    pub fn release(self, len: u8, list: Numbers) -> Reply
        ensures { result ≡ reply (carry day_length self.state (release_call len list)) }
    {
        self.carry(release(len, list))
    }

    // TRY: never waits.
    pub fn try_request(self, semaphore: u8) -> Reply
        ensures { result ≡ reply (carry day_length self.state (try_call semaphore)) }
    {
        self.carry(try_request(semaphore))
    }

    pub fn reserve(self, len: u8, list: Numbers) -> Reply
        ensures { result ≡ reply (carry day_length self.state (reserve_call len list)) }
    {
        self.carry(reserve(len, list))
    }

    pub fn free(self, len: u8, list: Numbers) -> Reply
        ensures { result ≡ reply (carry day_length self.state (free_call len list)) }
    {
        self.carry(free(len, list))
    }

    pub fn enter(self, len: u8, list: Numbers) -> Reply
        ensures { result ≡ reply (carry day_length self.state (enter_call len list)) }
    {
        self.carry(enter(len, list))
    }

    pub fn leave(self, len: u8, list: Numbers) -> Reply
        ensures { result ≡ reply (carry day_length self.state (leave_call len list)) }
    {
        self.carry(leave(len, list))
    }
}
