// A register's file: opening it, and what its directory says of a column. The file is lent as a
// slice of bytes, is read where it lies and is never changed.

#![tactic(auto)]

ghost use Rattle.std.specs.Prelude.{◌≡◌, ◌<◌, Ok};
ghost use Rattle.directory.specs.File.{width_in, offset_in};
ghost use Rattle.register.specs.Answers.{shown_of};
ghost use Rattle.register.specs.Opening.{opened_of, shown_for};
ghost use Rattle.register.specs.Columns.{EntryRead};

use limits::{ENTRY_BYTES, MOST_COLUMNS, MOST_ROWS, TRAILER_BYTES};
use refusals::Refusal;

// The mark 42 53 4C 31 at a file's end, as a number of four bytes.
pub const MARK: usize = 0x314C5342;

// What opening tells of a register.
#[derive(Clone, Copy)]
pub struct Shape {
    pub rows: usize,
    pub columns: usize,
}

// Opens a file: its rows and columns, or the first refusal that applies.
pub fn open(file: &[u8]) -> Result<Shape, Refusal>
    ensures answer { result ≡ opened_of file.now }
    ensures shown { shown_of result ≡ shown_for file.now }
{
    let length = file.len();
    if length < TRAILER_BYTES {
        return Err(Refusal::NoRegister);
    }
    let trailer = directory::read_trailer(&file[length - TRAILER_BYTES..]);
    if trailer.mark != MARK {
        return Err(Refusal::NoRegister);
    }
    if trailer.version != 1 {
        return Err(Refusal::OtherVersion);
    }
    if MOST_ROWS < trailer.rows {
        return Err(Refusal::TooManyRows);
    }
    if trailer.columns == 0 {
        return Err(Refusal::UnfitColumnCount);
    }
    if MOST_COLUMNS < trailer.columns {
        return Err(Refusal::UnfitColumnCount);
    }
    if trailer.directory + ENTRY_BYTES * trailer.columns + TRAILER_BYTES != length {
        return Err(Refusal::DirectoryMisplaced);
    }
    let slices = directory::fit_columns(file, trailer.directory, trailer.rows, trailer.columns)?;
    if trailer.rows * slices != trailer.directory {
        return Err(Refusal::BodyMisfit);
    }
    Ok(Shape {
        rows: trailer.rows,
        columns: trailer.columns,
    })
}

// A file that opened, with what opening told of it.
#[derive(Clone, Copy)]
pub struct Register<'a> {
    pub file: &'a [u8],
    pub shape: Shape,
    ghost opened: { opened_of file.now ≡ Ok shape },
}

impl<'a> Register<'a> {
    // The width of a column, from the directory.
    pub fn width(&self, column: usize) -> u8
        requires { column < self.now.shape.columns }
        ensures { result ≡ width_in self.now.file.now column }
    {
        let found = self.entry(column);
        found[0]
    }

    // Where slice 1 of a column starts, from the directory.
    pub fn offset(&self, column: usize) -> usize
        requires { column < self.now.shape.columns }
        ensures { result ≡ offset_in self.now.file.now column }
    {
        let found = self.entry(column);
        numbers::number_of(&found[4..8])
    }

    // The directory's 8 bytes for a column.
    fn entry(&self, column: usize) -> &'a [u8]
        requires { column < self.now.shape.columns }
        ensures { EntryRead self.now.file.now column result.now }
    {
        let file = self.file;
        let columns = self.shape.columns;
        let from = file.len() - TRAILER_BYTES - ENTRY_BYTES * (columns - column);
        let to = from + ENTRY_BYTES;
        &file[from..to]
    }
}
