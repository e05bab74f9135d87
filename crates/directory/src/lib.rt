// The ends of a register's file, as they stand there: the numbers of its trailer, and how far its directory is fit. The file is
// lent as a slice of bytes, is read where it lies and is never changed.

#![tactic(auto)]

ghost use Rattle.std.specs.Prelude.{◌≡◌, length};
ghost use Rattle.limits.specs.Limits.{entry_bytes, trailer_bytes};
ghost use Rattle.directory.specs.File.{unfit_entry};
ghost use Rattle.directory.specs.Trailer.{TrailerRead};
ghost use Rattle.directory.specs.Fitting.{DirectoryThere, FitUpTo};
ghost use Rattle.refusals.specs.declared.Refusal.TheVariants.{UnfitColumn};

use limits::ENTRY_BYTES;
use refusals::Refusal;

// The numbers of a file's last 16 bytes.
#[derive(Clone, Copy)]
pub struct Trailer {
    pub rows: usize,
    pub columns: usize,
    pub version: usize,
    pub directory: usize,
    pub mark: usize,
}

// The first column that is unfit, and how many slices the columns before it have.
#[derive(Clone, Copy, Debug, PartialEq, Eq)]
pub struct FirstUnfit {
    pub column: usize,
    pub slices: usize,
}

impl From<FirstUnfit> for Refusal {
    ghost from_gives = { λ unfit refusal. refusal ≡ UnfitColumn unfit.column };

    fn from(unfit: FirstUnfit) -> Refusal {
        Refusal::UnfitColumn(unfit.column)
    }
}

// The numbers of a trailer.
pub fn read_trailer(last: &[u8]) -> Trailer
    requires { length last.now ≡ trailer_bytes }
    ensures { TrailerRead last.now result }
{
    Trailer {
        rows: numbers::number_of(&last[0..4]),
        columns: numbers::number_of(&last[4..6]),
        version: numbers::number_of(&last[6..8]),
        directory: numbers::number_of(&last[8..12]),
        mark: numbers::number_of(&last[12..16]),
    }
}

// Whether a directory entry is unfit for a column that should start at the offset.
fn unfit_entry(entry: &[u8], offset: usize) -> bool
    requires { length entry.now ≡ entry_bytes }
    ensures { result ≡ unfit_entry entry.now offset }
{
    if codes::unfit_width(entry[0]) {
        return true;
    }
    if numbers::number_of(&entry[1..4]) != 0 {
        return true;
    }
    numbers::number_of(&entry[4..8]) != offset
}

// Goes through the directory column by column: how many slices all columns have, or the first that is unfit.
pub fn fit_columns(
    file: &[u8],
    directory: usize,
    rows: usize,
    columns: usize,
) -> Result<usize, FirstUnfit>
    requires { DirectoryThere file.now directory rows columns }
    ensures { FitUpTo file.now columns result }
{
    let mut slices: usize = 0;
    for column in 0..columns {
        let from = directory + ENTRY_BYTES * column;
        let to = from + ENTRY_BYTES;
        let entry = &file[from..to];
        if unfit_entry(entry, rows * slices) {
            return Err(FirstUnfit { column, slices });
        }
        slices += codes::slices_of(entry[0]);
    }
    Ok(slices)
}
