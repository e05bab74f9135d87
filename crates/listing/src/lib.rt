// Lists what a query finds in a register: how many rows match, how many bytes each test needed, and
// each row found with its codes; or why the query is refused.

#![tactic(auto)]

ghost use Rattle.pieces.specs.Pieces.{PieceWritten};
ghost use Rattle.listing.specs.Listing.{Listed};
ghost use Rattle.listing.specs.Found.{Listable, found_lines};
ghost use Rattle.listing.specs.Inputs.{bytes_of, unread_of, InputTaken, FoundRead, ListedRead};

use finding::Found;
use limits::{MOST_BITS, MOST_FILE, MOST_TEXT};
use lines::{head_line, refused_line};
use refusals::Refusal;
use register::Register;
use sections::{row_lines, test_lines};

// Writes a piece of what the program prints, of a file and a text that were taken or not: refused by 18
// where one was not or has too many bytes, and else the listing of the two. Answers how many bytes there
// are to print.
pub fn write_read(file: Option<&[u8]>, text: Option<&[u8]>, from: usize, out: &mut [u8]) -> usize
    ensures { ListedRead (unread_of file.entry text.entry) (bytes_of file.entry) (bytes_of text.entry) from out.old out.new result }
{
    let mut bits = [0u8; MOST_BITS];
    let found = prepare(file, text, &mut bits);
    write_found(file.unwrap_or(&[]), found, &bits, from, out)
}

// Writes a piece of the listing of a file and a query's text: its bytes from a place on, as many as
// `out` has room for. Answers how many bytes the whole listing has.
pub fn write(file: &[u8], text: &[u8], from: usize, out: &mut [u8]) -> usize
    ensures { Listed file.now text.now from out.old out.new result }
{
    let mut bits = [0u8; MOST_BITS];
    let found = finding::find(file, text, &mut bits);
    write_found(file, found, &bits, from, out)
}

// Finds what the program prints, of which any piece can then be written: refusal 18 where an input was
// not taken or has too many bytes, and else what the listing of the two shows.
pub fn prepare(
    file: Option<&[u8]>,
    text: Option<&[u8]>,
    bits: &mut [u8; MOST_BITS],
) -> Result<Found, Refusal>
    ensures { FoundRead (unread_of file.entry text.entry) (bytes_of file.entry) (bytes_of text.entry) bits.old bits.new result }
{
    let file = taken(file, MOST_FILE)?;
    let text = taken(text, MOST_TEXT)?;
    finding::find(file, text, bits)
}

// The bytes of an input, refused by 18 where it was not taken or has more than these many.
pub fn taken(input: Option<&[u8]>, most: usize) -> Result<&[u8], Refusal>
    ensures { InputTaken input.entry most result }
{
    input
        .filter(|bytes| bytes.len() <= most)
        .ok_or(Refusal::InputNotTaken)
}

// Writes a piece of the listing of what was found: its bytes from a place on, as many as `out` has room
// for. Answers how many bytes the whole listing has.
pub fn write_found(
    file: &[u8],
    found: Result<Found, Refusal>,
    bits: &[u8; MOST_BITS],
    from: usize,
    out: &mut [u8],
) -> usize
    requires { Listable file.now found }
    ensures { PieceWritten (found_lines file.now bits.now found) from out.old out.new result }
{
    let found = match found {
        Ok(found) => found,
        Err(refusal) => {
            let piece = refused_line(out, from, refusal);
            return piece.at;
        }
    };
    let shape = found.shape;
    let register = Register { file, shape };
    let mut piece = head_line(out, from, shape.rows, found.matches);
    test_lines(&mut piece, &register, &found.query, found.counts);
    row_lines(&mut piece, &register, bits);
    piece.at
}
