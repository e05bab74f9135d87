// Widths that fit, and codes held to the widths of their columns: many codes at once, and one by one
// only where some are too large.

#![tactic(auto)]

ghost use Rattle.std.specs.Prelude.{◌≡◌, not, ◌+◌, ◌^◌, ltb, length, get_or};
ghost use Rattle.basis.specs.Places.{first_found};
ghost use Rattle.table.specs.Table.{width_of, FitWidths, FullTable, FitCodes, unfit_at, too_large_at};
ghost use Rattle.table.specs.ManyAtOnce.{FullRows, RowThere, PeriodsThere, CodesThere};
ghost use Rattle.table.specs.ManyAtOnce.{RowsBelow, Covers, Raised, Holds};

use limits::{LONGEST_PERIOD, MOST_COLUMNS};

// Rows of codes, row after row, that a register may hold under columns of these widths.
#[derive(Clone, Copy)]
pub struct Table<'a> {
    pub rows: usize,
    pub widths: &'a [u8],
    pub codes: &'a [u64],
    pub ghost fit_widths: { FitWidths widths.now },
    pub ghost fit_codes: { FitCodes rows widths.now codes.now },
}

// The lowest column whose width fits none.
pub fn first_unfit(widths: &[u8]) -> Option<usize>
    ensures { result ≡ first_found (unfit_at widths.now) (length widths.now) }
{
    widths.iter().position(|width| codes::unfit_width(*width))
}

// The lowest index of a code that is too large for its column. Rows that are known to be below their
// limits at once are passed over; the others are gone through one by one.
// It takes no `Table`: one is made of codes that have been judged.
pub fn first_too_large(rows: usize, widths: &[u8], codes: &[u64]) -> Option<usize>
    requires { FullTable rows widths.now codes.now }
    ensures { result ≡ first_found (too_large_at widths.now codes.now) (length codes.now) }
{
    let columns = widths.len();
    let limits = limits_of(widths);
    let known = rows_below(&limits, columns, rows, codes);
    for row in known..rows {
        if let Some(column) = first_at_limit(&limits, columns, codes, row * columns) {
            return Some(row * columns + column);
        }
    }
    None
}

// The limit of each column: 2 to the power of its width.
fn limits_of(widths: &[u8]) -> [u64; MOST_COLUMNS]
    requires { FitWidths widths.now }
    ensures { Holds (λ column. 2 ^ width_of widths.now column) (length widths.now) result }
{
    let mut limits = [0u64; MOST_COLUMNS];
    for (column, width) in widths.iter().enumerate() {
        limits[column] = 1 << *width;
    }
    limits
}

// How many rows in front are known to be below their limits: all whole eights of them, or none. The
// codes that stand alike in every eight rows make, joined bit by bit, a number at least as large as
// each of them.
fn rows_below(limits: &[u64; MOST_COLUMNS], columns: usize, rows: usize, codes: &[u64]) -> usize
    requires { FullRows columns rows codes.now }
    ensures { RowsBelow limits.now codes.now columns rows result }
{
    let period = 8 * columns;
    let eights = rows / 8;
    let joined = joined_codes(codes, period, eights);
    for place in 0..period {
        if limits[place % columns] <= joined[place] {
            return 0;
        }
    }
    8 * eights
}

// The codes of so many periods, joined place by place.
fn joined_codes(codes: &[u64], period: usize, periods: usize) -> [u64; LONGEST_PERIOD]
    requires { PeriodsThere period periods codes.now }
    ensures { Covers codes.now period periods result }
{
    let mut joined = [0u64; LONGEST_PERIOD];
    for i in 0..periods {
        join_codes(codes, i * period, period, &mut joined);
    }
    joined
}

// Joins n codes from a place on, each to what is held for it.
fn join_codes(codes: &[u64], at: usize, n: usize, joined: &mut [u64; LONGEST_PERIOD])
    requires { CodesThere at n codes.now joined.old }
    ensures { Raised codes.now at n joined.old joined.new }
{
    for k in 0..n {
        joined[k] |= codes[at + k];
    }
}

// The lowest column whose code, in the row that starts at a place, is not below its limit.
fn first_at_limit(
    limits: &[u64; MOST_COLUMNS],
    columns: usize,
    codes: &[u64],
    at: usize,
) -> Option<usize>
    requires { RowThere columns at codes.now }
    ensures { result ≡ first_found (λ column. not (ltb (get_or codes.now (at + column) 0)
        (get_or limits.now column 0))) columns }
{
    for column in 0..columns {
        if limits[column] <= codes[at + column] {
            return Some(column);
        }
    }
    None
}
