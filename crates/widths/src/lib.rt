// The widths of a register's columns, all at once.

#![tactic(auto)]

ghost use Rattle.std.specs.Prelude.{◌≡◌, ◌≤◌, length};
ghost use Rattle.basis.specs.Buffers.{laid};
ghost use Rattle.answers.specs.Answers as answers;
ghost use Rattle.widths.specs.Widths.{widths_of, measured_of, shown_for, left_in};

use refusals::Refusal;
use register::Register;

// Writes the width of every column to the front of `out`. Refused, it changes nothing.
pub fn widths(file: &[u8], out: &mut [u8]) -> Result<usize, Refusal>
    ensures answer { result ≡ measured_of file.now (length out.old) }
    ensures shown { answers.shown_of result ≡ shown_for file.now (length out.old) }
    ensures left { out.new ≡ left_in file.now out.old }
{
    let shape = register::open(file)?;
    let register = Register { file, shape };
    let columns = shape.columns;
    if out.len() < columns {
        return Err(Refusal::OutputTooShort(columns));
    }
    write_widths(&register, out);
    Ok(columns)
}

// Writes the width of every column to the front, in their order.
fn write_widths(register: &Register<'_>, out: &mut [u8])
    requires { register.now.shape.columns ≤ length out.old }
    ensures { out.new ≡ laid out.old 0 (widths_of register.now.file.now) }
{
    for column in 0..register.shape.columns {
        out[column] = register.width(column);
    }
}
