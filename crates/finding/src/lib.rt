// Finds what a listing shows: the text of a query is read and held to a file, and the file is scanned, each once.

#![tactic(auto)]

ghost use Rattle.finding.specs.Finding.{FoundBy, FoundIn};
ghost use Rattle.std.specs.Prelude.{Ok};

use limits::{MOST_BITS, MOST_TESTS};
use query::Query;
use refusals::Refusal;
use register::{Register, Shape};
use text::Asked;

// What a listing shows: the register's shape, how many rows match, how many bytes each test needed, and
// the query. The bits of the rows stand beside it.
#[derive(Clone, Copy)]
pub struct Found {
    pub shape: Shape,
    pub matches: usize,
    pub counts: [usize; MOST_TESTS],
    pub query: Query,
}

// Finds what the listing of a file and a query's text shows, and leaves the bits of the rows found.
pub fn find(file: &[u8], text: &[u8], bits: &mut [u8; MOST_BITS]) -> Result<Found, Refusal>
    ensures { FoundIn file.now text.now bits.old bits.new result }
{
    let asked = text::read(text)?;
    find_rows(file, asked, bits)
}

// Holds what a text asks to the file, which opens it, and scans it.
fn find_rows(file: &[u8], asked: Asked, bits: &mut [u8; MOST_BITS]) -> Result<Found, Refusal>
    ensures { FoundBy file.now (Ok asked) bits.old bits.new result }
{
    let query = asked.query;
    let shape = asking::ask(file, asked.size, query)?;
    let register = Register { file, shape };
    let scanned = scan::scan_rows(&register, asked.size, query, bits);
    let counts = scanned.counts;
    Ok(Found {
        shape,
        matches: scanned.matches,
        counts,
        query,
    })
}
