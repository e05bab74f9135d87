// Scans a register of as many rows as a register may have and prints each reply: number, place and need
// of a refusal, or matches, total and counts; then a digest of the result and the byte after it. What it
// must print is made by tests/expect_most_rows.py, which goes row by row through the codes.
#![tactic(auto)]

ghost use Rattle.std.specs.Prelude.{◌≡◌, [], ◌∷◌, ◌+◌, ◌<◌, ◌≤◌, length, get_or, set, replicate};
ghost use Rattle.basis.specs.Buffers.{laid};
ghost use Rattle.query.specs.Tests.{tests_of};
ghost use Rattle.try_most_rows.specs.Made.{body_bytes, file_bytes, if_long, HasCodes, ending, test_of};

use limits::{MOST_ROWS, MOST_TESTS};
use query::{Comparison, Query, Test};
use refusals::Refusal;
use scan::Scanned;

// A column of 12 bits is two slices; a directory of 8 bytes and a trailer of 16 follow them.
const BODY: usize = 2 * MOST_ROWS;

const FILE: usize = BODY + 24;

// The bytes of a result, a bit for each row; one byte more stands behind them, to see that it is left.
const NEED: usize = MOST_ROWS / 8;

const WITH_ONE_MORE: usize = NEED + 1;

// What each byte of the result holds before a scan.
const UNTOUCHED: u8 = 77;

fn main(rt: HostRuntime) {
    let mut file = [0u8; FILE];
    let mut result = [UNTOUCHED; WITH_ONE_MORE];
    show_all(&rt, &mut file, &mut result);
}

// The register at the limit, and the same file with a row more in its trailer.
fn show_all<R: Print>(rt: &R, file: &mut [u8], res: &mut [u8]) {
    put_codes(file);
    put_ending(file);
    show_limit(rt, file, res);
    show_counts(rt, file, res);
    put_one_row_more(file);
    show(rt, b"1048577 rows, 8", file, 8, four(), res, NEED);
}

// Row r has the code (r x 1103 + r / 7 x 331) mod 5000 mod 4096, of 12 bits: 8 in the first slice, and 4
// above a pad of 4 in the second. Codes below 904 come about twice as often as the others.
fn put_codes(file: &mut [u8])
    ensures { file_bytes ≤ length file.old → HasCodes 1048576 file.new }
{
    if file.len() < FILE {
        return;
    }
    for row in 0..MOST_ROWS {
        let code = (row * 1103 + row / 7 * 331) % 5000 % 4096;
        file[row] = (code / 16) as u8;
        file[MOST_ROWS + row] = (code % 16 * 16) as u8;
    }
}

// The directory and the trailer: a column of width 12 at offset 0; 1048576 rows, 1 column, version 1,
// the directory at 2097152, and the mark.
fn put_ending(file: &mut [u8])
    ensures { file.new ≡ if_long file.old (laid file.old body_bytes ending) }
{
    if file.len() < FILE {
        return;
    }
    let ending = [
        12u8, 0, 0, 0, 0, 0, 0, 0, 0, 0, 16, 0, 1, 0, 1, 0, 0, 0, 32, 0, 0x42, 0x53, 0x4C, 0x31,
    ];
    file[BODY..FILE].copy_from_slice(&ending);
}

// The trailer says 1048577 rows.
fn put_one_row_more(file: &mut [u8])
    ensures { file.new ≡ if_long file.old (set file.old (body_bytes + 8) 1) }
{
    if file.len() < FILE {
        return;
    }
    file[BODY + 8] = 1;
}

fn show_limit<R: Print>(rt: &R, file: &[u8], res: &mut [u8]) {
    show_sizes(rt, file, res);
    show_rooms(rt, file, res);
    show(rt, b"no tests, 8", file, 8, none(), res, NEED);
}

fn show_sizes<R: Print>(rt: &R, file: &[u8], res: &mut [u8]) {
    show(rt, b"four tests, 8", file, 8, four(), res, NEED);
    show(rt, b"four tests, 16", file, 16, four(), res, NEED);
    show(rt, b"four tests, 32", file, 32, four(), res, NEED);
    show(rt, b"four tests, 64", file, 64, four(), res, NEED);
}

fn show_rooms<R: Print>(rt: &R, file: &[u8], res: &mut [u8]) {
    show(rt, b"a byte more, 64", file, 64, four(), res, WITH_ONE_MORE);
    show(rt, b"a byte short, 64", file, 64, four(), res, NEED - 1);
}

// Queries that no text can ask, as they count more tests than there are slots. A file comes first, then the segment size.
fn show_counts<R: Print>(rt: &R, file: &[u8], res: &mut [u8]) {
    let below = test(Comparison::Less(512));
    let many = counted(below, 17);
    let most = counted(below, 18446744073709551615);
    show(rt, b"17 tests, 8", file, 8, many, res, NEED);
    show(rt, b"a great count, 8", file, 8, most, res, NEED);
    show(rt, b"17 tests, 24", file, 24, many, res, NEED);
    let no_file = [1u8, 2, 3];
    show(rt, b"no file, 17 tests, 7", &no_file, 7, many, res, NEED);
}

// The same test in every slot, and a count of so many.
fn counted(same: Test, count: usize) -> Query
    ensures { (result.count ≡ count) × (result.tests ≡ replicate 16 same) }
{
    Query {
        count,
        tests: [same; 16],
    }
}

fn none() -> Query
    ensures { tests_of result ≡ [] }
{
    Query {
        count: 0,
        tests: [query::empty_slot(); 16],
    }
}

// The codes of 100 to 999 but for 900; a row that could be 3000 by its first byte is ruled out by then.
fn four() -> Query
    ensures { tests_of result ≡ test_of (Comparison.AtLeast 100) ∷ test_of (Comparison.Less 1000) ∷ test_of (Comparison.Differs 900)
        ∷ test_of (Comparison.Differs 3000) ∷ [] }
{
    let mut tests = [query::empty_slot(); 16];
    tests[0] = test(Comparison::AtLeast(100));
    tests[1] = test(Comparison::Less(1000));
    tests[2] = test(Comparison::Differs(900));
    tests[3] = test(Comparison::Differs(3000));
    Query { count: 4, tests }
}

fn test(comparison: Comparison) -> Test
    ensures { result ≡ test_of comparison }
{
    Test {
        column: 0,
        comparison,
    }
}

// Scans into so many bytes of a result that was filled anew, and prints the reply and what the result
// holds then.
fn show<R: Print>(
    rt: &R,
    name: &[u8],
    file: &[u8],
    size: usize,
    query: Query,
    res: &mut [u8],
    room: usize,
) {
    res.fill(UNTOUCHED);
    let kept = room.min(res.len());
    let scanned = scan::scan(file, size, query, &mut res[..kept]);
    let _ = rt.write_all(name);
    say_reply(rt, scanned);
    say(rt, b", digest ", digest_of(res));
    say(rt, b", after it ", byte_after(res));
    end_line(rt);
}

// A running sum over the bytes that a result needs, so that each byte and its place tell.
fn digest_of(res: &[u8]) -> usize
    ensures { result < 65521 }
{
    if res.len() < NEED {
        return 0;
    }
    let mut digest: usize = 0;
    for byte in &res[..NEED] {
        digest = (digest * 31 + usize::from(*byte)) % 65521;
    }
    digest
}

// The byte behind those that a result needs.
fn byte_after(res: &[u8]) -> usize
    ensures { result ≡ get_or res.now 131072 0 }
{
    usize::from(res.get(NEED).copied().unwrap_or(0))
}

// A refusal answers 0 for each number of a scan, and a scan 0 for those of a refusal.
fn say_reply<R: Print>(rt: &R, reply: Result<Scanned, Refusal>) {
    match reply {
        Ok(scanned) => {
            say_refusal(rt, 0, 0, 0);
            say_scanned(rt, scanned);
        }
        Err(refusal) => {
            say_refusal(rt, refusal.number(), refusal.place(), refusal.need());
            let nothing = Scanned {
                matches: 0,
                counts: [0; MOST_TESTS],
                total: 0,
            };
            say_scanned(rt, nothing);
        }
    }
}

fn say_refusal<R: Print>(rt: &R, number: u64, place: usize, need: usize) {
    let _ = print!(rt; ": number {number} place {place} need {need}");
}

fn say_scanned<R: Print>(rt: &R, scanned: Scanned) {
    let counts = scanned.counts;
    say(rt, b" matches ", scanned.matches);
    say(rt, b" total ", scanned.total);
    say(rt, b" counts ", counts[0]);
    say(rt, b" ", counts[1]);
    say(rt, b" ", counts[2]);
    say(rt, b" ", counts[3]);
}

// Prints words and then a number.
fn say<R: Print>(rt: &R, words: &[u8], number: usize) {
    let _ = rt.write_all(words);
    let _ = print!(rt; "{number}");
}

// Ends the line that is being printed.
fn end_line<R: Print>(rt: &R) {
    let _ = rt.write_all(b"\n");
}
