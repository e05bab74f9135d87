// The code of a row in a column, its bytes gathered from the slices of a file that is read where it lies.

#![tactic(auto)]

ghost use Rattle.std.specs.Prelude.{◌≡◌, ◌<◌, length, get_or};
ghost use Rattle.codes.specs.Bytes.{joined};
ghost use Rattle.register.specs.Cells.{CellThere, code_at};
ghost use Rattle.cells.specs.Gathered.{CodeWithin, place, gathered};

use register::Register;

// The code of a row in a column of a register.
pub fn code_at(register: &Register<'_>, column: usize, row: usize) -> u64
    requires { CellThere register.now column row }
    ensures { result ≡ code_at register.now.file.now column row }
{
    let width = register.width(column);
    let offset = register.offset(column);
    code_of(register.file, width, offset, register.shape.rows, row)
}

// The code of a row: its bytes are gathered from the slices of a column that starts at the offset. Each
// number of slices is a case of its own, so that the bytes need no memory on their way.
pub fn code_of(file: &[u8], width: u8, offset: usize, rows: usize, row: usize) -> u64
    requires { CodeWithin file.now width offset rows row }
    ensures { result ≡ joined width (gathered file.now width offset rows row) }
{
    let byte = |slice| byte_at(file, offset, rows, row, slice);
    match codes::slices_of(width) {
        1 => codes::join(width, &[byte(0)]),
        2 => codes::join(width, &[byte(0), byte(1)]),
        3 => codes::join(width, &[byte(0), byte(1), byte(2)]),
        _ => codes::join(width, &[byte(0), byte(1), byte(2), byte(3)]),
    }
}

// The byte of a row in a slice, counted from 0, of a column that starts at the offset.
fn byte_at(file: &[u8], offset: usize, rows: usize, row: usize, slice: usize) -> u8
    requires { place offset rows row slice < length file.now }
    ensures { result ≡ get_or file.now (place offset rows row slice) 0 }
{
    file[offset + slice * rows + row]
}
