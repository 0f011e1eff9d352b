// Why a call is refused, and what a call answers.
#![tactic(auto)]

ghost use Rattle.std.specs.Prelude.{◌≡◌};
ghost use Rattle.answer.specs.Number.{number_of};

// Why a call is refused. The numbers are those of the rules: a reply ends with it, and the library's functions return it.
#[derive(Clone, Copy, Debug, PartialEq, Eq)]
pub enum Refusal {
    // A line that is no call.
    NoCall = 1,
    // Six numbers of which one lies outside its limits.
    OutsideLimits = 2,
    // Tables, a log or a result buffer shorter than the geometry needs.
    TooShort = 3,
    // Tables and a log that are no sound store.
    NotSound = 4,
    NoSuchPage = 5,
    NoSuchKind = 6,
    // Bytes that are no log.
    NoLog = 7,
    // No record (snapshot) of this number is in the store.
    NoSuchRecord = 8,
    // A sealed record where the call needs an open one, or the other way round.
    WrongState = 9,
    // A fork is on the record.
    HasFork = 10,
    // The record table is full.
    TableFull = 11,
    // No record number is left.
    NumbersSpent = 12,
    NoFreeBlock = 13,
    // Fewer unused log words than the call writes.
    LogFull = 14,
    // A window that keeps no record, or more than a line can have.
    BadWindow = 15,
    // Bytes that are no name.
    BadName = 16,
    // A name in use, a second one on an open record, or no row left for it; or a name that is on no record.
    NameUnfit = 17,
    // A name is on the record.
    HasName = 18,
    // A turn of no block, or of more than a turn may free.
    BadTurn = 19,
}

// What a call answers: the count of the numbers that it gave in the result buffer, or why it is refused.
pub type Answer = Result<usize, Refusal>;

impl Refusal {
    pub fn number(self) -> u8
        ensures { result ≡ number_of self }
    {
        self as u8
    }
}
