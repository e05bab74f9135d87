// Writes a register's file into a lent buffer: rows of codes become slices, one after the other,
// and the directory and the trailer follow. Nothing is stored besides.

#![tactic(auto)]

ghost use Rattle.std.specs.Prelude.{◌≡◌, length};
ghost use Rattle.answers.specs.Answers.{shown_of};
ghost use Rattle.writer.specs.Writing.{written_of, shown_for, left_in};

use limits::{MOST_COLUMNS, MOST_ROWS};
use refusals::Refusal;
use table::Table;

// Writes the file of so many rows, with these widths and these codes, row after row, to the front
// of `out`. Refused, it changes nothing.
pub fn write(rows: usize, widths: &[u8], codes: &[u64], out: &mut [u8]) -> Result<usize, Refusal>
    ensures answer { result ≡ written_of rows widths.now codes.now (length out.old) }
    ensures shown { shown_of result ≡ shown_for rows widths.now codes.now (length out.old) }
    ensures left { out.new ≡ left_in rows widths.now codes.now out.old }
{
    if MOST_ROWS < rows {
        return Err(Refusal::TooManyRows);
    }
    let columns = widths.len();
    if columns == 0 {
        return Err(Refusal::UnfitColumnCount);
    }
    if MOST_COLUMNS < columns {
        return Err(Refusal::UnfitColumnCount);
    }
    if let Some(column) = table::first_unfit(widths) {
        return Err(Refusal::UnfitColumn(column));
    }
    if codes.len() != rows * columns {
        return Err(Refusal::UnfitCodeCount);
    }
    if let Some(index) = table::first_too_large(rows, widths, codes) {
        return Err(Refusal::CodeTooLarge(index));
    }
    let need = filing::file_length(rows, widths);
    if out.len() < need {
        return Err(Refusal::OutputTooShort(need));
    }
    let table = Table {
        rows,
        widths,
        codes,
    };
    filing::write_file(&table, out);
    Ok(need)
}
