// Why a call is refused. A reason carries the place at which the first thing that is wrong stands, or how much is needed, where it
// has one. Each has its number, by which those who call from C know it.

#![tactic(auto)]

ghost use Rattle.std.specs.Prelude.{◌≡◌};
ghost use Rattle.refusals.specs.Numbers.{number_of, place_of, need_of};

#[derive(Clone, Copy, Debug, PartialEq, Eq)]
pub enum Refusal {
    // 1: under 16 bytes, or without the mark.
    NoRegister,
    // 2: a register of another version.
    OtherVersion,
    // 3: more rows than a register has.
    TooManyRows,
    // 4: no column, or more than a register has.
    UnfitColumnCount,
    // 5: a directory that is not where the file's length puts it.
    DirectoryMisplaced,
    // 6: a width that no column has, or an unfit entry of the directory. The column.
    UnfitColumn(usize),
    // 7: slices that do not end where the directory starts.
    BodyMisfit,
    // 8: a code that its column cannot hold. Its index.
    CodeTooLarge(usize),
    // 9: fewer or more codes than cells.
    UnfitCodeCount,
    // 10: an output that is too short. How many elements it needs.
    OutputTooShort(usize),
    // 11: more tests than a query has.
    TooManyTests,
    // 12: a column that the register does not have. The test; in a lookup 0.
    NoSuchColumn(usize),
    // 13: a literal that its column cannot hold. The test.
    LiteralTooLarge(usize),
    // 14: a size that no segment has.
    UnfitSegmentSize,
    // 15: a row that the register does not have. Its index in the list.
    NoSuchRow(usize),
    // 16: bits that are not those of so many rows.
    UnfitBits,
    // 17: a text that is no query. The line.
    MalformedText(usize),
    // 18: an input that cannot be read, or is larger than what is taken of it.
    InputNotTaken,
}

impl Refusal {
    pub fn number(self) -> u64
        ensures { result ≡ number_of self }
    {
        match self {
            Refusal::NoRegister => 1,
            Refusal::OtherVersion => 2,
            Refusal::TooManyRows => 3,
            Refusal::UnfitColumnCount => 4,
            Refusal::DirectoryMisplaced => 5,
            Refusal::UnfitColumn(_) => 6,
            Refusal::BodyMisfit => 7,
            Refusal::CodeTooLarge(_) => 8,
            Refusal::UnfitCodeCount => 9,
            Refusal::OutputTooShort(_) => 10,
            Refusal::TooManyTests => 11,
            Refusal::NoSuchColumn(_) => 12,
            Refusal::LiteralTooLarge(_) => 13,
            Refusal::UnfitSegmentSize => 14,
            Refusal::NoSuchRow(_) => 15,
            Refusal::UnfitBits => 16,
            Refusal::MalformedText(_) => 17,
            Refusal::InputNotTaken => 18,
        }
    }

    // 0 where it has none.
    pub fn place(self) -> usize
        ensures { result ≡ place_of self }
    {
        match self {
            Refusal::UnfitColumn(place)
            | Refusal::CodeTooLarge(place)
            | Refusal::NoSuchColumn(place)
            | Refusal::LiteralTooLarge(place)
            | Refusal::NoSuchRow(place)
            | Refusal::MalformedText(place) => place,
            _ => 0,
        }
    }

    // 0 where it has none.
    pub fn need(self) -> usize
        ensures { result ≡ need_of self }
    {
        match self {
            Refusal::OutputTooShort(need) => need,
            _ => 0,
        }
    }
}
