// Turns the bits of a result into the list of the rows whose bit is set, rising.

#![tactic(auto)]

ghost use Rattle.std.specs.Prelude.{◌≡◌, length};
ghost use Rattle.answers.specs.Answers.{shown_of};
ghost use Rattle.rows.specs.RowList.{listed_of, shown_for, left_in};

use bits::{count_rows, unfit};
use limits::MOST_ROWS;
use positions::write_rows;
use refusals::Refusal;

// Writes the rows whose bit is set to the front of `out`, rising. Refused, it changes nothing.
pub fn list(rows: usize, bits: &[u8], out: &mut [u32]) -> Result<usize, Refusal>
    ensures answer { result ≡ listed_of rows bits.now (length out.old) }
    ensures shown { shown_of result ≡ shown_for rows bits.now (length out.old) }
    ensures left { out.new ≡ left_in rows bits.now out.old }
{
    if MOST_ROWS < rows {
        return Err(Refusal::TooManyRows);
    }
    if unfit(rows, bits) {
        return Err(Refusal::UnfitBits);
    }
    let many = count_rows(bits);
    if out.len() < many {
        return Err(Refusal::OutputTooShort(many));
    }
    write_rows(bits, many, out);
    Ok(many)
}
