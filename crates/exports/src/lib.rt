// The calls for C and Rust, which the crate exports_c gives their C names. A reply is so many
// numbers of 64 bits: number, place and need of a refusal, 0 where there is none, then the values, 0
// where there is one. A query passes as its text.
#![tactic(auto)]

ghost use Rattle.std.specs.Prelude.{◌≡◌, length};
ghost use Rattle.register.specs.Opening as opening;
ghost use Rattle.widths.specs.Widths as measuring;
ghost use Rattle.writer.specs.Writing as writing;
ghost use Rattle.lookup.specs.LookingUp as looking;
ghost use Rattle.rows.specs.RowList as listing;
ghost use Rattle.exports.specs.Asked.{ReadReplied, ScanReplied, ScannedAsAsked};

use limits::{ANSWER_NUMBERS, OPEN_NUMBERS, READ_NUMBERS, SCAN_NUMBERS};
use refusals::Refusal;
use replies::{answer_reply, opened_reply, read_reply, scanned_reply};
use scan::Scanned;

// Opens a file. Values: rows, columns.
pub fn bsl_open(file: &[u8], reply: &mut [u64; OPEN_NUMBERS])
    ensures { reply.new ≡ opening.shown_for file.now }
{
    let opened = register::open(file);
    *reply = opened_reply(opened);
}

// Answers the width of every column. Value: how many columns.
pub fn bsl_widths(file: &[u8], out: &mut [u8], reply: &mut [u64; ANSWER_NUMBERS])
    ensures reply { reply.new ≡ measuring.shown_for file.now (length out.old) }
    ensures left { out.new ≡ measuring.left_in file.now out.old }
{
    let measured = widths::widths(file, out);
    *reply = answer_reply(measured);
}

// Writes a register's file. Value: its bytes.
pub fn bsl_write(
    rows: usize,
    widths: &[u8],
    codes: &[u64],
    out: &mut [u8],
    reply: &mut [u64; ANSWER_NUMBERS],
)
    ensures reply { reply.new ≡
        writing.shown_for rows widths.now codes.now (length out.old) }
    ensures left { out.new ≡ writing.left_in rows widths.now codes.now out.old }
{
    let written = writer::write(rows, widths, codes, out);
    *reply = answer_reply(written);
}

// Reads a query's text. Values: size, count, then column, comparison and literal of each of 16 slots.
pub fn bsl_read(text: &[u8], reply: &mut [u64; READ_NUMBERS])
    ensures { ReadReplied text.now reply.new }
{
    let asked = text::read(text);
    *reply = read_reply(asked);
}

// Scans a file by a query's text. Values: matches, total, then 16 counts.
pub fn bsl_scan(file: &[u8], text: &[u8], out: &mut [u8], reply: &mut [u64; SCAN_NUMBERS])
    ensures { ScanReplied file.now text.now out.old out.new reply.new }
{
    let scanned = scan_asked(file, text, out);
    *reply = scanned_reply(scanned);
}

// Scans a file by what a text asks; a text that is refused leaves the result as it was.
fn scan_asked(file: &[u8], text: &[u8], out: &mut [u8]) -> Result<Scanned, Refusal>
    ensures { ScannedAsAsked file.now text.now out.old out.new result }
{
    let asked = text::read(text)?;
    scan::scan(file, asked.size, asked.query, out)
}

// Lists the rows whose bit is set. Value: how many.
pub fn bsl_list(rows: usize, bits: &[u8], out: &mut [u32], reply: &mut [u64; ANSWER_NUMBERS])
    ensures reply { reply.new ≡ listing.shown_for rows bits.now (length out.old) }
    ensures left { out.new ≡ listing.left_in rows bits.now out.old }
{
    let listed = rows::list(rows, bits, out);
    *reply = answer_reply(listed);
}

// Looks up the codes of rows in a column. Value: how many.
pub fn bsl_lookup(
    file: &[u8],
    column: usize,
    rows: &[u32],
    out: &mut [u64],
    reply: &mut [u64; ANSWER_NUMBERS],
)
    ensures reply { reply.new ≡
        looking.shown_for file.now column rows.now (length out.old) }
    ensures left { out.new ≡ looking.left_in file.now column rows.now out.old }
{
    let looked_up = lookup::look_up(file, column, rows, out);
    *reply = answer_reply(looked_up);
}
