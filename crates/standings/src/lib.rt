// Row work: small functions whose result is stored without a condition, so that a loop over them
// becomes vectors. A standing is a byte (0 equal so far, 1 less, 2 greater), and so is whether a row is
// still in (1 or 0). They are bytes, and no enum, as what these loops become is vectors of bytes.

#![tactic(auto)]

ghost use Rattle.std.specs.Prelude.{◌≡◌, ℕ, Bool, ◌+◌, ◌*◌, ◌≤◌, ◌<◌, cond, ltb, length, get_or};
ghost use Rattle.limits.specs.Limits.{most_tests, longest_segment, standing_places};
ghost use Rattle.query.specs.declared.Comparison.{Comparison};
ghost use Rattle.standings.specs.Standings.{stepped_row, open_row, rules_out_kept, fails_kept};
ghost use Rattle.basis.specs.Sweeps.{Swept};
ghost use Rattle.standings.specs.TakenOut.{taken_out_by, taken_out, taken_out_by_all};

use limits::{LONGEST_SEGMENT, STANDING_PLACES};
use query::{Comparison, Query};

// The standing after one more byte.
fn step_row(standing: u8, byte: u8, low: u8, high: u8) -> u8
    ensures { result ≡ stepped_row standing low high byte }
{
    if standing == 0 {
        if byte < low {
            1
        } else if high < byte {
            2
        } else {
            0
        }
    } else {
        standing
    }
}

// 1 where a row that is still in is equal so far, 0 otherwise.
pub fn open_row(standing: u8, inside: u8) -> u8
    ensures { result ≡ open_row standing inside }
{
    if standing == 0 { inside } else { 0 }
}

// A row is in no longer where its standing is the bad one.
fn left_row(standing: u8, bad: u8, inside: u8) -> u8
    ensures { result ≡ taken_out_by standing bad inside }
{
    if standing == bad { 0 } else { inside }
}

// 1 for each of n rows, 0 for every place after them. With `fill`, which stores the last one apart, scans
// of segments of 32 and 64 rows were a twentieth slower.
pub fn in_rows(n: usize) -> [u8; LONGEST_SEGMENT]
    requires { n ≤ longest_segment }
    ensures { (length result ≡ longest_segment) × ((k : ℕ) → get_or result k 0 ≡ cond (ltb k n) 1 0) }
{
    let mut inside = [0u8; LONGEST_SEGMENT];
    for r in 0..n {
        inside[r] = 1;
    }
    inside
}

// Takes one slice for one test: the standings from a base on, by the part's bytes. By an index, since of
// what is written through a zip of `iter_mut` a proof knows no element.
pub fn step(part: &[u8], standings: &mut [u8; STANDING_PLACES], base: usize, low: u8, high: u8)
    requires { (base + length part.now ≤ standing_places) × (length standings.old ≡ standing_places) }
    ensures { Swept standings.old standings.new base (length part.now)
        (λ k. stepped_row (get_or standings.old (base + k) 0) low high (get_or part.now k 0)) }
{
    for (r, byte) in part.iter().enumerate() {
        standings[base + r] = step_row(standings[base + r], *byte, low, high);
    }
}

// Takes out the rows whose standing is the bad one. By an index, as `step`.
fn take_out(
    standings: &[u8; STANDING_PLACES],
    base: usize,
    inside: &mut [u8; LONGEST_SEGMENT],
    n: usize,
    bad: u8,
)
    requires { (base + n ≤ standing_places) × (n ≤ longest_segment) × (length inside.old ≡ longest_segment) }
    ensures { Swept inside.old inside.new 0 n
        (λ k. taken_out_by (get_or standings.now (base + k) 0) bad (get_or inside.old k 0)) }
{
    for (r, standing) in standings[base..base + n].iter().enumerate() {
        inside[r] = left_row(*standing, bad, inside[r]);
    }
}

// Which rows a test takes out: those whose standing to it the ghost member says so of.
pub trait Ruling {
    ghost takes_out: { Comparison → ℕ → Bool };

    // Takes out the rows that one test takes out.
    fn rule(
        comparison: Comparison,
        standings: &[u8; STANDING_PLACES],
        base: usize,
        inside: &mut [u8; LONGEST_SEGMENT],
        n: usize,
    )
        requires { (base + n ≤ standing_places) × (n ≤ longest_segment) × (length inside.old ≡ longest_segment) }
        ensures { Swept inside.old inside.new 0 n
            (taken_out takes_out comparison standings.now base inside.old) };
}

// After each slice, what a test rules out.
pub struct RuledOut;

impl Ruling for RuledOut {
    ghost takes_out = { rules_out_kept };

    fn rule(
        comparison: Comparison,
        standings: &[u8; STANDING_PLACES],
        base: usize,
        inside: &mut [u8; LONGEST_SEGMENT],
        n: usize,
    ) {
        match comparison {
            Comparison::Less(_) | Comparison::AtMost(_) => take_out(standings, base, inside, n, 2),
            Comparison::More(_) | Comparison::AtLeast(_) => take_out(standings, base, inside, n, 1),
            Comparison::Equal(_) => {
                take_out(standings, base, inside, n, 1);
                take_out(standings, base, inside, n, 2);
            }
            Comparison::Differs(_) => {}
        }
    }
}

// After the last slice, what is equal to the end, where that is no match.
pub struct NoMatch;

impl Ruling for NoMatch {
    ghost takes_out = { fails_kept };

    fn rule(
        comparison: Comparison,
        standings: &[u8; STANDING_PLACES],
        base: usize,
        inside: &mut [u8; LONGEST_SEGMENT],
        n: usize,
    ) {
        match comparison {
            Comparison::Less(_) | Comparison::More(_) | Comparison::Differs(_) => {
                take_out(standings, base, inside, n, 0);
            }
            Comparison::AtMost(_) | Comparison::AtLeast(_) | Comparison::Equal(_) => {}
        }
    }
}

// Takes out the rows that some test takes out. Each ruling has a loop of its own, with one caller, so that
// it becomes part of it; one loop with a switch was slower with one test and short segments.
pub fn take_out_all<R: Ruling>(
    query: &Query,
    standings: &[u8; STANDING_PLACES],
    inside: &mut [u8; LONGEST_SEGMENT],
    n: usize,
)
    requires { (query.now.count ≤ most_tests) × (n ≤ longest_segment) × (length inside.old ≡ longest_segment) }
    ensures { Swept inside.old inside.new 0 n
        (taken_out_by_all R.takes_out query.now.tests query.now.count standings.now inside.old) }
{
    for (t, test) in query.tests[..query.count].iter().enumerate() {
        R::rule(test.comparison, standings, t * LONGEST_SEGMENT, inside, n);
    }
}
