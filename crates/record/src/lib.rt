// Records of 24 bytes to calls and declarations, and back. Knows no kernel.
#![tactic(auto)]

pub mod kinds;
pub mod reader;
pub mod refusals;
pub mod shape;
pub mod times;
pub mod writer;

// The largest value of a semaphore, and the most readers of a bolt.
pub const MOST_VALUE: u32 = 65_535;

pub const LAST_KIND: u8 = 5;

// The last start kind that needs no period.
pub const LAST_PLAIN_KIND: u8 = 4;

pub const LAST_END_KIND: u8 = 2;

use layout::{Bytes, Head, Numbers};

// The reader's answer: the fields, or the number of a refusal. It is the document's number and no Refusal: `refused`
// promises a reading of every number, and the theorems count with them.
pub type Read = Result<Head, u8>;

// The list stands beside the answer, so that a refusal has one too, of zeros: `refused`, refusal_in_the_list.
#[derive(Clone, Copy)]
pub struct Reading {
    pub answer: Read,
    pub list: Numbers,
}

// The writer's answer: 0 and the record, or a refusal and zero bytes. A refusal has bytes too: `written`,
// refused_keeps_its_bytes.
#[derive(Clone, Copy)]
pub struct Written {
    pub number: u8,
    pub bytes: Bytes,
}
