// Semaphores and bolts: REQUEST, RELEASE, TRY; RESERVE, FREE, ENTER, LEAVE. A list goes to the kernel as it is,
// with its length beside it and no slice for both: a length over 4 too is the kernel's to refuse.
ghost use Rattle.std.specs.Prelude.{◌≡◌};
ghost use Rattle.pearl.specs.Calls.{request_call, release_call, try_call, reserve_call, free_call, enter_call, leave_call};

use crate::fields::plain_call;
use layout::{Call, Mark, Numbers};

pub fn request(len: u8, list: Numbers) -> Call
    ensures { result ≡ request_call len list }
{
    plain_call(Mark::RQ, 0, 0, len, list, 0)
}

pub fn release(len: u8, list: Numbers) -> Call
    ensures { result ≡ release_call len list }
{
    plain_call(Mark::RL, 0, 0, len, list, 0)
}

// TRY: never waits.
pub fn try_request(semaphore: u8) -> Call
    ensures { result ≡ try_call semaphore }
{
    plain_call(Mark::TR, 0, 0, 1, [semaphore, 0, 0, 0], 0)
}

pub fn reserve(len: u8, list: Numbers) -> Call
    ensures { result ≡ reserve_call len list }
{
    plain_call(Mark::RS, 0, 0, len, list, 0)
}

pub fn free(len: u8, list: Numbers) -> Call
    ensures { result ≡ free_call len list }
{
    plain_call(Mark::FR, 0, 0, len, list, 0)
}

pub fn enter(len: u8, list: Numbers) -> Call
    ensures { result ≡ enter_call len list }
{
    plain_call(Mark::ET, 0, 0, len, list, 0)
}

pub fn leave(len: u8, list: Numbers) -> Call
    ensures { result ≡ leave_call len list }
{
    plain_call(Mark::LV, 0, 0, len, list, 0)
}
