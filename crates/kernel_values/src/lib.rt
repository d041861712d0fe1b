// Small values that the kernel's code handles everywhere: who runs, answers, counts, sorts of marks, and ticks.
#![tactic(auto)]

pub mod answers;
pub mod counts;
pub mod running;
pub mod sorts;
pub mod ticks;
