// The body of a file: slices made of codes that stand row after row, by blocks of rows.

#![tactic(auto)]

ghost use Rattle.std.specs.Prelude.{◌≡◌, map, ◌+◌, ◌/◌, ◌%◌, ◌^◌, length, get_or};
ghost use Rattle.basis.specs.Buffers.{laid};
ghost use Rattle.basis.specs.Lists.{below};
ghost use Rattle.codes.specs.Width.{slices_of};
ghost use Rattle.codes.specs.Bytes.{stored_of};
ghost use Rattle.directory.specs.Layout.{slices_before};
ghost use Rattle.table.specs.Table.{width_of, code_of};
ghost use Rattle.table.specs.ManyAtOnce.{Holds};
ghost use Rattle.slicing.specs.Putting.{body, RoomForBody, FitBlock, FitColumn, FitCopy, FitRun, BodyPut};

use limits::BLOCK_ROWS;
use table::Table;

// Writes the slices of all columns to the front, by blocks of rows, so that the codes are gone
// through once.
pub fn write_body(table: &Table<'_>, out: &mut [u8])
    requires { RoomForBody table.now out.old }
    ensures { out.new ≡ laid out.old 0 (body table.now) }
{
    for first in (0..table.rows).step_by(BLOCK_ROWS) {
        let n = BLOCK_ROWS.min(table.rows - first);
        write_block(table, first, n, out);
    }
}

// Writes the bytes of a block of rows, column after column.
fn write_block(table: &Table<'_>, first: usize, n: usize, out: &mut [u8])
    requires { FitBlock table.now first n out.old }
    ensures { BodyPut table.now.rows (body table.now) out.old out.new
        first (first + n) 0 (slices_before (width_of table.now.widths.now) (length table.now.widths.now)) }
{
    let mut slices: usize = 0;
    for (column, width) in table.widths.iter().enumerate() {
        write_block_column(table, column, slices, first, n, out);
        slices += codes::slices_of(*width);
    }
}

// Writes the bytes of a block of rows in one column, with so many slices before it: slice after
// slice, from a copy of their stored numbers.
fn write_block_column(
    table: &Table<'_>,
    column: usize,
    slices: usize,
    first: usize,
    n: usize,
    out: &mut [u8],
)
    requires { FitColumn table.now column slices first n out.old }
    ensures { BodyPut table.now.rows (body table.now) out.old out.new
        first (first + n) slices (slices + slices_of (width_of table.now.widths.now column)) }
{
    let mut stored = [0u32; BLOCK_ROWS];
    copy_stored(table, column, first, n, &mut stored);
    let own = codes::slices_of(table.widths[column]);
    for slice in 0..own {
        let at = table.rows * (slices + slice) + first;
        write_run(&stored, n, 8 * (own - 1 - slice), out, at);
    }
}

// Copies the stored numbers of a block of rows in one column.
fn copy_stored(
    table: &Table<'_>,
    column: usize,
    first: usize,
    n: usize,
    stored: &mut [u32; BLOCK_ROWS],
)
    requires { FitCopy table.now column first n stored.old }
    ensures { Holds (λ k. stored_of (width_of table.now.widths.now column)
        (code_of table.now.widths.now table.now.codes.now (first + k) column)) n stored.new }
{
    let columns = table.widths.len();
    let unit = codes::unit_of(table.widths[column]);
    for k in 0..n {
        let row = first + k;
        stored[k] = (table.codes[row * columns + column] * unit) as u32;
    }
}

// Writes a byte of each of the first n numbers from a place on: the one that stands so many bits
// from the end.
fn write_run(stored: &[u32; BLOCK_ROWS], n: usize, shift: usize, out: &mut [u8], at: usize)
    requires { FitRun n shift at out.old }
    ensures { out.new ≡ laid out.old at
        (map (λ k. get_or stored.now k 0 / 2 ^ shift % 256) (below n)) }
{
    for k in 0..n {
        out[at + k] = ((stored[k] >> shift) % 256) as u8;
    }
}
