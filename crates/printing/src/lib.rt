// Printing the listing of a register: its file and the query's text are read whole, what they list is found once, and written to
// the output piece by piece.
#![tactic(auto)]

ghost use Rattle.std.specs.Prelude.{◌≡◌, ◌<◌, is_some, length, take};
ghost use Rattle.files.specs.Taking.{count_of};
ghost use Rattle.listing.specs.Found.{Listable, found_lines};
ghost use Rattle.listing.specs.Inputs.{bytes_of, unread_inputs, unread_of};
ghost use Rattle.printing.specs.Printing.{refused_file, TextTaken, PieceOf, PrintedOf};
ghost use Rattle.printing.specs.Printing.{InputsTaken, FoundPrintable, FoundPrinted, PartsListed};

use finding::Found;
use limits::{MOST_BITS, MOST_FILE};
use refusals::Refusal;
use std::io;
use std::io::{Read, Write};
use std::rt::{Clock, Files};

// That the listing was written in part: how many bytes, of how many, and why not all.
#[derive(Clone, Copy)]
pub struct CutShort {
    pub written: usize,
    pub all: usize,
    pub error: io::Error,
}

// Of a piece of the listing that was taken whole: how many bytes it has, and how many the whole listing has.
#[derive(Clone, Copy)]
struct Piece {
    put: usize,
    all: usize,
}

// Reads the file and the text into what is lent for them, and prints by way of `out`.
pub fn list_parts<R: Files + Clock, I: Read, W: Write>(
    rt: &R,
    input: &mut I,
    output: &mut W,
    file: &mut [u8],
    text: &mut [u8],
    out: &mut [u8],
) -> Result<usize, CutShort>
    requires { 0 < length out.old }
    ensures { PartsListed file.old file.new text.old text.new result }
{
    let taken = files::read_file(rt, b"parts.bsl", file);
    let given = take_text(input, taken, text);
    print_taken(rt, output, taken, file, given, text, out)
}

// Prints the listing of what was taken of the two inputs.
fn print_taken<R: Clock, W: Write>(
    rt: &R,
    output: &mut W,
    taken: Option<usize>,
    file: &[u8],
    given: Option<usize>,
    text: &[u8],
    out: &mut [u8],
) -> Result<usize, CutShort>
    requires { InputsTaken out.old taken file.now given text.now }
    ensures { PrintedOf (unread_inputs (is_some taken) (count_of taken) (is_some given) (count_of given))
        (take (count_of taken) file.now) (take (count_of given) text.now) result }
{
    let file = taken.map(|n| &file[..n]);
    let text = given.map(|n| &text[..n]);
    print_listing(rt, output, file, text, out)
}

// The text on the input; where the file is refused, nothing is waited for.
fn take_text<I: Read>(input: &mut I, taken: Option<usize>, text: &mut [u8]) -> Option<usize>
    ensures { TextTaken taken text.old text.new result }
{
    if is_refused(taken) {
        return None;
    }
    files::take_all(input, text)
}

// Whether the file is refused by 18, which needs no text.
fn is_refused(taken: Option<usize>) -> bool
    ensures { result ≡ refused_file taken }
{
    taken.is_none_or(|n| MOST_FILE < n)
}

// Finds what the listing of the two inputs shows, once, and prints it.
fn print_listing<R: Clock, W: Write>(
    rt: &R,
    output: &mut W,
    file: Option<&[u8]>,
    text: Option<&[u8]>,
    out: &mut [u8],
) -> Result<usize, CutShort>
    requires { 0 < length out.old }
    ensures { PrintedOf (unread_of file.entry text.entry) (bytes_of file.entry) (bytes_of text.entry) result }
{
    let mut bits = [0u8; MOST_BITS];
    let found = listing::prepare(file, text, &mut bits);
    let file = file.unwrap_or(&[]);
    print_found(rt, output, file, found, &bits, out)
}

// Prints the listing of what was found in pieces as long as `out`, and stops at the first that is not taken whole. It ends
// since each turn before that writes a byte at least, and no listing is longer than a number can say.
fn print_found<R: Clock, W: Write>(
    rt: &R,
    output: &mut W,
    file: &[u8],
    found: Result<Found, Refusal>,
    bits: &[u8; MOST_BITS],
    out: &mut [u8],
) -> Result<usize, CutShort>
    requires { FoundPrintable out.old file.now found }
    ensures { FoundPrinted file.now bits.now found result }
{
    let mut written: usize = 0;
    loop {
        let piece = print_piece(rt, output, file, found, bits, written, out)?;
        written += piece.put;
        if piece.all <= written {
            return Ok(written);
        }
    }
}

// Makes the piece of the listing that begins at a place, and writes it.
fn print_piece<R: Clock, W: Write>(
    rt: &R,
    output: &mut W,
    file: &[u8],
    found: Result<Found, Refusal>,
    bits: &[u8; MOST_BITS],
    from: usize,
    out: &mut [u8],
) -> Result<Piece, CutShort>
    requires { Listable file.now found }
    ensures { PieceOf (found_lines file.now bits.now found) from out.old out.new result }
{
    let all = listing::write_found(file, found, bits, from, out);
    let wanted = out.len().min(all.saturating_sub(from));
    match putting::put_all(rt, output, &out[..wanted]) {
        Ok(put) => Ok(Piece { put, all }),
        Err(stopped) => Err(CutShort {
            written: from + stopped.taken,
            all,
            error: stopped.error,
        }),
    }
}
