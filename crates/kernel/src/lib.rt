// The rack kernel as its users handle it: a value, with a method for each call and declaration.
#![tactic(auto)]

pub mod clock;
pub mod declarations;
pub mod handling;
pub mod locks;
pub mod tasks;

use machine::{Answer, State};
pub use pearl::StartCondition;

// The kernel, as a program hands it on.
#[derive(Clone, Copy)]
pub struct Kernel {
    pub state: State,
}

// The next kernel, and the answer.
#[derive(Clone, Copy)]
pub struct Reply {
    pub kernel: Kernel,
    pub answer: Answer,
}
