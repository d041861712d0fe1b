// How long a waiting task waits, over every list of records: definitions, theorems, and the type of the bound. The code
// that reads it off a kernel is in `kernel_bound`.
#![tactic(auto)]

// A semaphore, and a number of accepted RELEASEs that name it.
#[derive(Clone, Copy)]
pub struct Releases {
    pub semaphore: u8,
    pub number: u8,
}

// By when a task is granted; none where it doesn't wait in a REQUEST of one semaphore.
pub type Bound = Option<Releases>;
