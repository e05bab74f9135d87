// Scans a register: which rows meet every test of a query, and how many bytes each test needed. Rows
// go by segments; a segment's slices are taken one after the other, by all tests, until none of them
// has a row left that the next slice could decide.

#![tactic(auto)]

ghost use Rattle.std.specs.Prelude.{◌≡◌, ◌+◌, length, get_or};
ghost use Rattle.limits.specs.Limits.{most_tests};
ghost use Rattle.basis.specs.Buffers.{laid};
ghost use Rattle.scan.specs.Answers.{accepted, found_bits, scanned_of, left_in};
ghost use Rattle.basis.specs.Sweeps.{Swept};
ghost use Rattle.scan.specs.Steps.{ScanFit, CountsFit};

use limits::MOST_TESTS;
use query::Query;
use refusals::Refusal;
use register::Register;

// What a scan found: how many rows match, a count of bytes for each test (0 after the last) and their total.
#[derive(Clone, Copy)]
pub struct Scanned {
    pub matches: usize,
    pub counts: [usize; MOST_TESTS],
    pub total: usize,
}

// Finds the rows of a file that meet every test, and sets their bits at the front of the result.
// Refused, it changes nothing.
pub fn scan(file: &[u8], size: usize, query: Query, res: &mut [u8]) -> Result<Scanned, Refusal>
    ensures answer { result ≡ scanned_of file.now size query (length res.old) }
    ensures left { res.new ≡ left_in file.now size query res.old }
{
    let shape = asking::ask(file, size, query)?;
    let need = bits::bytes_for(shape.rows);
    if res.len() < need {
        return Err(Refusal::OutputTooShort(need));
    }
    let register = Register { file, shape };
    Ok(scan_rows(&register, size, query, res))
}

// Scans all segments of a register to which a query was held, one after the other. The query is taken by
// value: of an array in a struct behind a reference a proof knows no length.
pub fn scan_rows(register: &Register<'_>, size: usize, query: Query, res: &mut [u8]) -> Scanned
    requires { ScanFit register.now.file.now register.now.shape size query res.old }
    ensures answer { result ≡ accepted register.now.file.now size query }
    ensures left { res.new ≡ laid res.old 0 (found_bits register.now.file.now query) }
{
    let plan = segment::plan_of(register, &query);
    let rows = register.shape.rows;
    let mut counts = [0usize; MOST_TESTS];
    let mut matches: usize = 0;
    // a `for` over (0..rows).step_by(size) takes up to 10 % more instructions
    let mut first = 0;
    while first < rows {
        let n = size.min(rows - first);
        let segment = segment::scan_segment(register, first, n, &query, &plan);
        // a copy: with a reference into the segment a scan takes up to 5 % more instructions
        let found = segment.found;
        add_counts(&mut counts, &segment.counts);
        matches += bits::put_bits(&found, n, res, first / 8);
        first += n;
    }
    let total = counts.iter().sum();
    Scanned {
        matches,
        counts,
        total,
    }
}

// Adds a segment's counts to those so far.
fn add_counts(counts: &mut [usize; MOST_TESTS], read: &[usize; MOST_TESTS])
    requires { CountsFit counts.old read.now }
    ensures { Swept counts.old counts.new 0 most_tests
        (λ t. get_or counts.old t 0 + get_or read.now t 0) }
{
    for t in 0..MOST_TESTS {
        counts[t] += read[t];
    }
}
