// Scans one segment of a register: which of its rows meet every test of a query, and how many bytes each
// test needed. What the query asks of each slice is planned once for all segments.

#![tactic(auto)]

ghost use Rattle.std.specs.Prelude.{◌≡◌};
ghost use Rattle.codes.specs.Bytes.{byte_of};
ghost use Rattle.codes.specs.Pad.{high_of};
ghost use Rattle.asking.specs.Judged.{Judged};
ghost use Rattle.segment.specs.Steps.{FitLiteral, LiteralSlice, ColumnPlanned, Planned, SegmentPlanned, SegmentScanned};

use limits::{LONGEST_SEGMENT, MOST_SLICES, MOST_TESTS, STANDING_PLACES};
use query::Query;
use register::Register;
use standings::{NoMatch, RuledOut, in_rows, open_row, step, take_out_all};

// The bytes of a slice between which a row counts as equal to the literal.
#[derive(Clone, Copy)]
pub struct Bounds {
    pub low: u8,
    pub high: u8,
}

// What is planned of a test's column: where it starts in the file, how many slices it has, and the
// literal's bounds in each.
#[derive(Clone, Copy)]
pub struct Column {
    pub offset: usize,
    pub slices: usize,
    pub bounds: [Bounds; MOST_SLICES],
}

// The plan of a query, made once: its tests' columns.
#[derive(Clone, Copy)]
pub struct Plan {
    pub columns: [Column; MOST_TESTS],
}

// A segment scanned: 1 for each row that is found, and each test's count.
#[derive(Clone, Copy)]
pub struct Segment {
    pub found: [u8; LONGEST_SEGMENT],
    pub counts: [usize; MOST_TESTS],
}

// Makes the plan of a query.
pub fn plan_of(register: &Register<'_>, query: &Query) -> Plan
    requires { Judged register.now.file.now register.now.shape query.now }
    ensures { Planned register.now.file.now query.now.tests query.now.count result }
{
    let mut columns = [Column {
        offset: 0,
        slices: 0,
        bounds: [Bounds { low: 0, high: 0 }; MOST_SLICES],
    }; MOST_TESTS];
    for t in 0..query.count {
        let test = query.tests[t];
        let width = register.width(test.column);
        let offset = register.offset(test.column);
        columns[t] = plan_column(width, query::literal_of(test.comparison), offset);
    }
    Plan { columns }
}

// Plans a column of some width, from an offset on, by the literal of its test.
fn plan_column(width: u8, literal: u64, offset: usize) -> Column
    requires { FitLiteral width literal }
    ensures { ColumnPlanned width literal offset result }
{
    let slices = codes::slices_of(width);
    let mut bounds = [Bounds { low: 0, high: 0 }; MOST_SLICES];
    for j in 0..slices {
        bounds[j] = Bounds {
            low: codes::byte_of(width, literal, j),
            high: high_of(width, literal, j),
        };
    }
    Column {
        offset,
        slices,
        bounds,
    }
}

// The greatest byte of a slice that is the literal's when its pad is cleared.
fn high_of(width: u8, literal: u64, slice: usize) -> u8
    requires { LiteralSlice width literal slice }
    ensures { result ≡ high_of width slice (byte_of width literal slice) }
{
    let low = codes::byte_of(width, literal, slice);
    if slice + 1 == codes::slices_of(width) {
        (u64::from(low) + (codes::unit_of(width) - 1)) as u8
    } else {
        low
    }
}

// Scans one segment of n rows: all tests take slice j before any row is ruled out by it, and the slices
// end as soon as no test counts one. The query is lent: of one that is taken by value the whole is copied
// for each segment.
pub fn scan_segment(
    register: &Register<'_>,
    first: usize,
    n: usize,
    query: &Query,
    plan: &Plan,
) -> Segment
    requires { SegmentPlanned register.now.file.now register.now.shape first n query.now plan.now }
    ensures { SegmentScanned register.now.file.now query.now first n result }
{
    let file = register.file;
    let rows = register.shape.rows;
    let mut standings = [0u8; STANDING_PLACES];
    let mut inside = in_rows(n);
    let mut counts = [0usize; MOST_TESTS];
    'slices: for j in 0..MOST_SLICES {
        let mut closed = true;
        'tests: for t in 0..query.count {
            let column = &plan.columns[t];
            if j < column.slices {
                let base = t * LONGEST_SEGMENT;
                let mut open = 0u8;
                'rows: for r in 0..n {
                    open += open_row(standings[base + r], inside[r]);
                }
                if 0 < open {
                    let from = column.offset + j * rows + first;
                    let bounds = column.bounds[j];
                    step(
                        &file[from..from + n],
                        &mut standings,
                        base,
                        bounds.low,
                        bounds.high,
                    );
                    counts[t] += n;
                    closed = false;
                }
            }
        }
        if closed {
            break 'slices;
        }
        take_out_all::<RuledOut>(query, &standings, &mut inside, n);
    }
    take_out_all::<NoMatch>(query, &standings, &mut inside, n);
    Segment {
        found: inside,
        counts,
    }
}
