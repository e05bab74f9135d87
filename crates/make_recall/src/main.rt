// Prints the file of an example register as a recall meets it, as the writer makes it: 10,000 pickups, and of each the
// crystal lot (12 bits), the board issue (5), the test bench (4) and the site (3). The codes follow from the row alone.
// Where not all of the file can be written it says so on standard error.
#![tactic(auto)]

ghost use Rattle.std.specs.Prelude.{◌≡◌, map, length};
ghost use Rattle.basis.specs.Lists.{below};
ghost use Rattle.basis.specs.Buffers.{laid};
ghost use Rattle.make_recall.specs.Pickups.{lot_of, issue_of, bench_of, site_of, code_of, code_at};

use std::io::Write;
use std::rt::{Clock, Files};

const ROWS: usize = 10000;

fn main(rt: HostRuntime) {
    let widths = [12u8, 5, 4, 3];
    let mut codes = [0u64; 40000];
    // as long as the file
    let mut out = [0u8; 50048];
    print_register(&rt, &mut rt.stdout(), &widths, &mut codes, &mut out);
}

fn print_register<R: Files + Clock + Eprint, W: Write>(
    rt: &R,
    output: &mut W,
    widths: &[u8],
    codes: &mut [u64],
    out: &mut [u8],
) {
    fill(codes);
    if writer::write(ROWS, widths, codes, out).is_err() {
        return;
    }
    if let Err(stopped) = putting::put_all(rt, output, out) {
        putting::fail(rt, "make_recall: the file is not whole", &stopped.error);
        return;
    }
    if let Err(error) = putting::saved(rt) {
        putting::fail(
            rt,
            "make_recall: the file may not be whole, saving it failed",
            &error,
        );
    }
}

// The codes row after row, four a row.
fn fill(codes: &mut [u64])
    ensures { codes.new ≡ laid codes.old 0 (map code_at (below (length codes.old))) }
{
    for (at, code) in codes.iter_mut().enumerate() {
        *code = code_of(at as u64 / 4, at % 4);
    }
}

fn code_of(row: u64, column: usize) -> u64
    ensures { result ≡ code_of row column }
{
    match column {
        0 => lot_of(row),
        1 => issue_of(row),
        2 => bench_of(row),
        _ => site_of(row),
    }
}

// This and the next differ in numbers alone. Each says its rule in a line, which one function of five numbers would not.
// A lot is good for forty pickups. Two in eleven still get a crystal of the lot before.
fn lot_of(row: u64) -> u64
    ensures { result ≡ lot_of row }
{
    1700 + row / 40 - row % 11 / 9
}

// A new issue every 800 pickups. Two in fifty still get a board of the issue before.
fn issue_of(row: u64) -> u64
    ensures { result ≡ issue_of row }
{
    3 + row / 800 - row % 50 / 48
}

// Twelve benches in turn, and the turn moves on every 90 pickups.
fn bench_of(row: u64) -> u64
    ensures { result ≡ bench_of row }
{
    (row % 12 * 7 + row / 90) % 12
}

// Six sites, sixteen pickups a crate; one in five is kept back for the next site.
fn site_of(row: u64) -> u64
    ensures { result ≡ site_of row }
{
    (row / 16 + row % 5 / 4) % 6
}
