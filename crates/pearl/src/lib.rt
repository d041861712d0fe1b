// The statements of a program as calls and declarations, for every value of their fields. Knows no kernel.
#![tactic(auto)]

pub mod clock;
pub mod declarations;
mod fields;
pub mod locks;
pub mod tasks;

// PEARL's start condition in the fields of a record: the kind (0 none, 1 AT, 2 AFTER, 3 WHEN, 4 WHEN AFTER,
// 5 ALL), the interrupt of WHEN, the end kind (0 none, 1 UNTIL, 2 DURING), and the times of AT or AFTER, of ALL,
// and of UNTIL or DURING.
// The kinds are numbers, since a call carries any byte and the kernel refuses the others.
#[derive(Clone, Copy)]
pub struct StartCondition {
    pub kind: u8,
    pub interrupt: u8,
    pub endkind: u8,
    pub first: u32,
    pub period: u32,
    pub endtime: u32,
}
