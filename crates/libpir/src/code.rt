//! What a call answers, as a number.

ghost use Rattle.std.specs.Prelude.{◌≡◌};
ghost use Rattle.libpir.specs.Codes.{number_of, refusal_code};

use client_calls::Refusal;

/// What became of a call. Where the program has a status for it, its number is that status, which two of them share;
/// what only a caller can get wrong has a negative number.
#[derive(Clone, Copy, Debug, PartialEq, Eq)]
pub(crate) enum Code {
    /// All is done as asked.
    Done,
    /// No block is listed.
    NoBlock,
    /// Several blocks are listed.
    Several,
    /// There are fewer usable answers than have to agree.
    FewAnswers,
    /// The agreement is too weak for so many answers.
    WeakAgreement,
    /// The list decoding costs too much.
    HighCost,
    /// The row is none of the list.
    BrokenRow,
    /// The bytes are no session.
    BadSession,
    /// There is no memory.
    NoMemory,
    /// The key isn't in the list.
    NotInList,
    /// The numbers are those of no plan.
    BadPlan,
    /// No block is asked for, too many, or one that isn't a row.
    BadBlocks,
    /// The index is that of no server.
    BadIndex,
    /// There are too few coins.
    FewCoins,
    /// There is too little room for what is to be written.
    SmallRoom,
    /// The answers aren't those of so many servers.
    BadAnswers,
    /// The numbers are those of no list, or the row is longer than any.
    BadList,
    /// The bytes are no rows of a database, or the scheme is none.
    BadDatabase,
}

impl Code {
    /// Its number.
    pub(crate) fn number(self) -> i32
        ensures { result ≡ number_of self }
    {
        match self {
            Code::Done => 0,
            Code::NoBlock => 3,
            Code::Several => 4,
            Code::FewAnswers => 5,
            Code::WeakAgreement => 6,
            Code::HighCost => 7,
            Code::BrokenRow => 10,
            Code::BadSession => 10,
            Code::NoMemory => 12,
            Code::NotInList => 14,
            Code::BadPlan => -1,
            Code::BadBlocks => -2,
            Code::BadIndex => -3,
            Code::FewCoins => -4,
            Code::SmallRoom => -5,
            Code::BadAnswers => -6,
            Code::BadList => -7,
            Code::BadDatabase => -8,
        }
    }

    /// That of a refusal.
    pub(crate) fn of_refusal(refusal: Refusal) -> Code
        ensures { result ≡ refusal_code refusal }
    {
        match refusal {
            Refusal::Plan => Code::BadPlan,
            Refusal::Blocks => Code::BadBlocks,
            Refusal::Index => Code::BadIndex,
            Refusal::Coins => Code::FewCoins,
            Refusal::Answers => Code::BadAnswers,
            Refusal::Memory => Code::NoMemory,
            Refusal::Room { wanted: _ } => Code::SmallRoom,
        }
    }
}
