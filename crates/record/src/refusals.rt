// The refusals, by the document's numbers.
ghost use Rattle.std.specs.Prelude.{◌≡◌};
ghost use Rattle.record.specs.Numbers.{number};

// What a kernel or a record is refused for, in checking order but for the last two.
#[derive(Clone, Copy, PartialEq, Debug)]
pub enum Refusal {
    UnfitKernel = 1,
    NoRecord = 2,
    Malformed = 3,
    BadList = 4,
    Undeclared = 5,
    BadTime = 6,
    NoRoom = 7,
    NobodyRuns = 8,
    AlreadyAlive = 9,
    NotAlive = 10,
    AlreadySuspended = 11,
    NotHeld = 12,
    SemaphoreFull = 13,
    BoltNotHeld = 14,
    LastInstant = 15,
    WrongFile = 16,
    NothingToCome = 17,
}

impl Refusal {
    // The document's number.
    pub fn number(self) -> u8
        ensures { result ≡ number self }
    {
        self as u8
    }
}
