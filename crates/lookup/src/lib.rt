// Looks codes up: a column and a list of rows, in any order and with repeats, give one code each.

#![tactic(auto)]

ghost use Rattle.std.specs.Prelude.{◌≡◌, length, MatchOption};
ghost use Rattle.basis.specs.Buffers.{laid};
ghost use Rattle.answers.specs.Answers.{shown_of};
ghost use Rattle.lookup.specs.Steps.{AllBelow, IsFirstMissing, NoneAbove, ToLookUp};
ghost use Rattle.lookup.specs.LookingUp.{codes_of, looked_up_of, shown_for, left_in};

use refusals::Refusal;
use register::Register;

// Writes the code that each listed row has in a column to the front of `out`. Refused, it changes
// nothing.
pub fn look_up(file: &[u8], column: usize, rows: &[u32], out: &mut [u64]) -> Result<usize, Refusal>
    ensures answer { result ≡ looked_up_of file.now column rows.now (length out.old) }
    ensures shown { shown_of result ≡ shown_for file.now column rows.now (length out.old) }
    ensures left { out.new ≡ left_in file.now column rows.now out.old }
{
    let shape = register::open(file)?;
    let register = Register { file, shape };
    if shape.columns <= column {
        return Err(Refusal::NoSuchColumn(0));
    }
    if let Some(i) = first_missing(shape.rows, rows) {
        return Err(Refusal::NoSuchRow(i));
    }
    if out.len() < rows.len() {
        return Err(Refusal::OutputTooShort(rows.len()));
    }
    write_codes(&register, column, rows, out);
    Ok(rows.len())
}

// The lowest index of a row number that is not below the rows. Mostly there is none, which the greatest
// number tells sooner than the search.
fn first_missing(rows: usize, list: &[u32]) -> Option<usize>
    ensures { MatchOption result (AllBelow rows list.now) (IsFirstMissing rows list.now) }
{
    if (greatest_of(list) as usize) < rows {
        return None;
    }
    list.iter().position(|row| rows <= *row as usize)
}

// A number that no listed one exceeds: the greatest of them, or 0 where there is none.
fn greatest_of(list: &[u32]) -> u32
    ensures { NoneAbove result list.now }
{
    list.iter().copied().max().unwrap_or(0)
}

// Writes the code of each listed row to the front, one for each.
fn write_codes(register: &Register<'_>, column: usize, list: &[u32], out: &mut [u64])
    requires { ToLookUp register.now column list.now out.old }
    ensures { out.new ≡ laid out.old 0 (codes_of register.now.file.now column list.now) }
{
    let file = register.file;
    let width = register.width(column);
    let offset = register.offset(column);
    let rows = register.shape.rows;
    for (i, row) in list.iter().enumerate() {
        out[i] = cells::code_of(file, width, offset, rows, *row as usize);
    }
}
