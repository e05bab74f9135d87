// The calls of exports by their C names, for a static library. A slice passes as a pointer and a length, a reply as a pointer to
// so many numbers of 64 bits. They repeat those of exports, since an archive for C has these names alone and a crate calls by its paths.
#![tactic(auto)]

ghost use Rattle.std.specs.Prelude.{◌≡◌, length};
ghost use Rattle.register.specs.Opening as opening;
ghost use Rattle.widths.specs.Widths as measuring;
ghost use Rattle.writer.specs.Writing as writing;
ghost use Rattle.lookup.specs.LookingUp as looking;
ghost use Rattle.rows.specs.RowList as listing;
ghost use Rattle.exports.specs.Asked.{ReadReplied, ScanReplied};

use limits::{ANSWER_NUMBERS, OPEN_NUMBERS, READ_NUMBERS, SCAN_NUMBERS};

// Opens a file. Values: rows, columns.
#[unsafe(no_mangle)]
pub extern "C" fn bsl_open(file: &[u8], reply: &mut [u64; OPEN_NUMBERS])
    ensures { reply.new ≡ opening.shown_for file.now }
{
    exports::bsl_open(file, reply);
}

// Answers the width of every column. Value: how many columns.
#[unsafe(no_mangle)]
pub extern "C" fn bsl_widths(file: &[u8], out: &mut [u8], reply: &mut [u64; ANSWER_NUMBERS])
    ensures reply { reply.new ≡ measuring.shown_for file.now (length out.old) }
    ensures left { out.new ≡ measuring.left_in file.now out.old }
{
    exports::bsl_widths(file, out, reply);
}

// Writes a register's file. Value: its bytes.
#[unsafe(no_mangle)]
pub extern "C" fn bsl_write(
    rows: usize,
    widths: &[u8],
    codes: &[u64],
    out: &mut [u8],
    reply: &mut [u64; ANSWER_NUMBERS],
)
    ensures reply { reply.new ≡
        writing.shown_for rows widths.now codes.now (length out.old) }
    ensures left { out.new ≡ writing.left_in rows widths.now codes.now out.old }
{
    exports::bsl_write(rows, widths, codes, out, reply);
}

// Reads a query's text. Values: size, count, then column, comparison and literal of each of 16 slots.
#[unsafe(no_mangle)]
pub extern "C" fn bsl_read(text: &[u8], reply: &mut [u64; READ_NUMBERS])
    ensures { ReadReplied text.now reply.new }
{
    exports::bsl_read(text, reply);
}

// Scans a file by a query's text. Values: matches, total, then 16 counts.
#[unsafe(no_mangle)]
pub extern "C" fn bsl_scan(
    file: &[u8],
    text: &[u8],
    out: &mut [u8],
    reply: &mut [u64; SCAN_NUMBERS],
)
    ensures { ScanReplied file.now text.now out.old out.new reply.new }
{
    exports::bsl_scan(file, text, out, reply);
}

// Lists the rows whose bit is set. Value: how many.
#[unsafe(no_mangle)]
pub extern "C" fn bsl_list(
    rows: usize,
    bits: &[u8],
    out: &mut [u32],
    reply: &mut [u64; ANSWER_NUMBERS],
)
    ensures reply { reply.new ≡ listing.shown_for rows bits.now (length out.old) }
    ensures left { out.new ≡ listing.left_in rows bits.now out.old }
{
    exports::bsl_list(rows, bits, out, reply);
}

// Looks up the codes of rows in a column. Value: how many.
#[unsafe(no_mangle)]
pub extern "C" fn bsl_lookup(
    file: &[u8],
    column: usize,
    rows: &[u32],
    out: &mut [u64],
    reply: &mut [u64; ANSWER_NUMBERS],
)
    ensures reply { reply.new ≡
        looking.shown_for file.now column rows.now (length out.old) }
    ensures left { out.new ≡ looking.left_in file.now column rows.now out.old }
{
    exports::bsl_lookup(file, column, rows, out, reply);
}
