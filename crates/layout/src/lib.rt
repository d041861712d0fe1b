// Where the fields of a record stand: marks and their letters, 24 bytes to fields and back. Judges nothing.
#![tactic(auto)]

pub mod fields;
pub mod marks;

pub const RECORD_LENGTH: usize = 24;

// Declarations first, then calls.
#[derive(Clone, Copy)]
pub enum Mark {
    DT,
    DS,
    DB,
    IT,
    DC,
    AC,
    TE,
    SU,
    PR,
    CO,
    EN,
    RE,
    RQ,
    RL,
    TR,
    RS,
    FR,
    ET,
    LV,
    TG,
    EI,
    XI,
    TI,
    SL,
}

// What follows a mark: which fields it uses.
#[derive(Clone, Copy)]
pub enum Form {
    Bare,
    Number,
    Continuation,
    DeclaredPriority,
    Preset,
    TimeOfDay,
    Resumption,
    Activation,
    Numbers,
    OneNumber,
}

// A call or declaration without its list: every field of a record as it stands there. Kinds are bytes, since one that
// is no kind has to reach the tests of refusal 3 (`formed`).
#[derive(Clone, Copy)]
pub struct Head {
    pub mark: Mark,
    pub number: u8,
    pub priority: u8,
    pub len: u8,
    pub kind: u8,
    pub interrupt: u8,
    pub endkind: u8,
    pub first: u32,
    pub period: u32,
    pub endtime: u32,
}

// The most numbers that a list names.
pub const MOST_NUMBERS: u8 = 4;

// The list of a call: one to four numbers, then zeros.
pub type Numbers = [u8; MOST_NUMBERS as usize];

// The list of a call that takes none.
pub const NO_LIST: Numbers = [0, 0, 0, 0];

// The bytes of a record.
pub type Bytes = [u8; RECORD_LENGTH];

// Four bytes of a time.
pub type Octets = [u8; 4];

// A call or declaration.
#[derive(Clone, Copy)]
pub struct Call {
    pub head: Head,
    pub list: Numbers,
}
