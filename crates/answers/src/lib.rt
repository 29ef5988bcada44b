// What the public calls answer: offsets, and why a call is refused. A call that may be refused returns a `Result`.
#![tactic(auto)]

ghost use Rattle.std.specs.Prelude.{◌≡◌};
ghost use Rattle.answers.specs.Outcome.{number_of};

// A byte by its distance from the first page's first byte.
#[derive(Clone, Copy)]
pub struct Offset(pub u32);

#[derive(Clone, Copy)]
pub enum Refusal {
    // format: the slice has no room for one page
    TooShort,
    // format: the slice has room for more pages than a pool may have
    TooLong,
    // the records are not sound
    NotSound,
    // no free chunk and no free page, or no free run long enough
    NoRoom,
    // the offset lies past the pages
    Outside,
    // nothing is allocated at the offset
    NotTaken,
    // the offset does not start a block
    NotAStart,
    // a script line, or a word of a batch, that is no call
    Unreadable,
    // more script than the program reads
    ScriptTooLong,
    // alloc: a size of 0
    NothingAsked,
    // batch: fewer places for answers than requests
    AnswersTooShort,
    // convert: a target whose length gives another page count; check_mended and mend: another length, check_mended: another edition
    WrongLength,
    // check_mended, mend: kinds, run lengths or maps of the damaged pool are lost
    BeyondMending,
    // check_mended: a sound pool with other blocks or bytes
    OtherBlocks,
    // a gauge, its level or a sample's count is no number of its range
    OutOfRange,
    // plain engine: a table with fewer than 12 entries
    TableTooShort,
    // put: a new key, and no empty place in the directory
    NoPlace,
    // find, remove: a key that no place of the directory holds
    NotHeld,
}

// The refusal's number (SPEC 5).
impl From<Refusal> for u8 {
    ghost from_gives = { λ r n. n ≡ number_of r };

    fn from(r: Refusal) -> u8 {
        match r {
            Refusal::TooShort => 1,
            Refusal::TooLong => 2,
            Refusal::NotSound => 3,
            Refusal::NoRoom => 4,
            Refusal::Outside => 5,
            Refusal::NotTaken => 6,
            Refusal::NotAStart => 7,
            Refusal::Unreadable => 8,
            Refusal::ScriptTooLong => 9,
            Refusal::NothingAsked => 10,
            Refusal::AnswersTooShort => 11,
            Refusal::WrongLength => 12,
            Refusal::BeyondMending => 13,
            Refusal::OtherBlocks => 14,
            Refusal::OutOfRange => 15,
            Refusal::TableTooShort => 16,
            Refusal::NoPlace => 17,
            Refusal::NotHeld => 18,
        }
    }
}
