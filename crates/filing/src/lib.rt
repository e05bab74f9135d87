// The parts of a register's file, written to the front of a lent buffer: the body, then the directory, then the trailer.

#![tactic(auto)]

ghost use Rattle.std.specs.Prelude.{◌≡◌, ◌+◌, ◌*◌, ◌≤◌, length};
ghost use Rattle.basis.specs.Buffers.{laid};
ghost use Rattle.basis.specs.Numbers.{to_little};
ghost use Rattle.limits.specs.Limits.{entry_bytes, trailer_bytes};
ghost use Rattle.table.specs.Table.{FitWidths};
ghost use Rattle.filing.specs.Layout.{entry_with, directory_of, trailer_with, file_length, file_of};
ghost use Rattle.filing.specs.Steps.{FitShape, SlicesCounted, BytesCounted};

use limits::{ENTRY_BYTES, TRAILER_BYTES};
use table::Table;

// Writes body, directory and trailer to the front of `out`.
pub fn write_file(table: &Table<'_>, out: &mut [u8])
    requires { file_length table.now.rows table.now.widths.now ≤ length out.old }
    ensures { out.new ≡ laid out.old 0 (file_of table.now.rows table.now.widths.now table.now.codes.now) }
{
    let columns = table.widths.len();
    let body = body_length(table.rows, table.widths);
    slicing::write_body(table, out);
    write_directory(table, out, body);
    write_trailer(table.rows, columns, body, out, body + ENTRY_BYTES * columns);
}

// How many bytes the file has. It takes no `Table`: a caller may ask it before there are codes.
pub fn file_length(rows: usize, widths: &[u8]) -> usize
    requires { FitShape rows widths.now }
    ensures { result ≡ file_length rows widths.now }
{
    body_length(rows, widths) + ENTRY_BYTES * widths.len() + TRAILER_BYTES
}

// How many bytes the slices of all columns have.
fn body_length(rows: usize, widths: &[u8]) -> usize
    requires { FitShape rows widths.now }
    ensures { BytesCounted rows widths.now result }
{
    rows * slices_in(widths)
}

// How many slices all columns have.
fn slices_in(widths: &[u8]) -> usize
    requires { FitWidths widths.now }
    ensures { SlicesCounted widths.now result }
{
    let mut slices: usize = 0;
    for width in widths {
        slices += codes::slices_of(*width);
    }
    slices
}

// Writes the directory from a place on: an entry a column.
fn write_directory(table: &Table<'_>, out: &mut [u8], at: usize)
    requires { at + entry_bytes * length table.now.widths.now ≤ length out.old }
    ensures { out.new ≡ laid out.old at (directory_of table.now.rows table.now.widths.now) }
{
    let mut slices: usize = 0;
    for (column, width) in table.widths.iter().enumerate() {
        write_entry(*width, table.rows * slices, out, at + ENTRY_BYTES * column);
        slices += codes::slices_of(*width);
    }
}

// Writes one entry of the directory.
fn write_entry(width: u8, offset: usize, out: &mut [u8], at: usize)
    requires { at + entry_bytes ≤ length out.old }
    ensures { out.new ≡ laid out.old at (entry_with width offset) }
{
    out[at..at + 4].copy_from_slice(&[width, 0, 0, 0]);
    write_number(offset, 4, out, at + 4);
}

// Writes the trailer.
fn write_trailer(rows: usize, columns: usize, directory: usize, out: &mut [u8], at: usize)
    requires { at + trailer_bytes ≤ length out.old }
    ensures { out.new ≡ laid out.old at (trailer_with rows columns directory) }
{
    write_number(rows, 4, out, at);
    write_number(columns, 2, out, at + 4);
    write_number(1, 2, out, at + 6);
    write_number(directory, 4, out, at + 8);
    write_number(register::MARK, 4, out, at + 12);
}

// Writes a number in so many bytes, the least significant first.
fn write_number(number: usize, bytes: usize, out: &mut [u8], at: usize)
    requires few { bytes ≤ 8 }
    requires room { at + bytes ≤ length out.old }
    ensures { out.new ≡ laid out.old at (to_little bytes number) }
{
    out[at..at + bytes].copy_from_slice(&number.to_le_bytes()[..bytes]);
}
