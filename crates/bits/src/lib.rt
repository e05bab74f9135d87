// The bits of a result: the bytes that they take, the rows that they mark, how many these are, and the
// rows found in a segment packed into them.

#![tactic(auto)]

ghost use Rattle.std.specs.Prelude.{◌≡◌, ◌+◌, ◌*◌, ◌≤◌, eqb, length, get_or};
ghost use Rattle.limits.specs.Limits.{most_rows};
ghost use Rattle.bits.specs.Bits.{bytes_for, bits_at, EightRows, OnesOfRows, BitsFit, BitsPut};
ghost use Rattle.bits.specs.Marked.{marked, marked_below, marked_past, unfit_bits};
ghost use Rattle.bits.specs.SetBits.{places_of, OnesIn, WordFits, WordRead};

use limits::LONGEST_SEGMENT;

// How many bytes the bits of so many rows take.
pub fn bytes_for(rows: usize) -> usize
    requires { rows ≤ most_rows }
    ensures { result ≡ bytes_for rows }
{
    (rows + 7) / 8
}

// Whether the bit of a row is set; the bits past the last byte are not.
pub fn is_marked(bits: &[u8], row: usize) -> bool
    ensures { result ≡ marked bits.now row }
{
    if bits.len() <= row / 8 {
        return false;
    }
    (bits[row / 8] >> (row % 8)) % 2 == 1
}

// Whether the bits are too few or too many, or one past the last row is set.
pub fn unfit(rows: usize, bits: &[u8]) -> bool
    requires { rows ≤ most_rows }
    ensures { result ≡ unfit_bits rows bits.now }
{
    if bits.len() != bytes_for(rows) {
        return true;
    }
    marked_past(rows, bits)
}

// Whether a bit past the last row is set in the last byte.
fn marked_past(rows: usize, bits: &[u8]) -> bool
    requires { length bits.now ≡ bytes_for rows }
    ensures { result ≡ marked_past rows bits.now }
{
    let used = rows % 8;
    if used == 0 {
        return false;
    }
    let weight: u8 = 1 << used;
    weight <= bits[rows / 8]
}

// How many bits are set in all bytes, eight bytes at a time.
pub fn count_rows(bits: &[u8]) -> usize
    requires { length bits.now ≤ most_rows }
    ensures { result ≡ length (marked_below (8 * length bits.now) bits.now) }
{
    let mut many: usize = 0;
    let mut i = 0;
    // no `for` over the words: with it a list of few rows takes 1.08 times as long
    while i + 8 <= bits.len() {
        many += ones_in(word_at(bits, i, 8));
        i += 8;
    }
    many + ones_in(word_at(bits, i, bits.len() - i))
}

// The word of so many bytes from a place on: its set bits are the rows marked there.
pub fn word_at(bits: &[u8], i: usize, many: usize) -> usize
    requires { WordFits bits.now i many }
    ensures { WordRead bits.now i many result }
{
    let end = i + many;
    numbers::number_of(&bits[i..end])
}

// How many bits of a word are set. A trait for words and bytes would be longer than the two functions.
fn ones_in(word: usize) -> usize
    ensures { OnesIn word result }
{
    word.count_ones() as usize
}

// How many bits of a byte are set.
pub fn ones_of(byte: u8) -> usize
    ensures { result ≡ length (places_of byte) }
{
    byte.count_ones() as usize
}

// Writes the bits of a segment's n rows from a byte of the result on, and answers how many are set.
pub fn put_bits(found: &[u8; LONGEST_SEGMENT], n: usize, res: &mut [u8], at: usize) -> usize
    requires { BitsFit found.now n at res.old }
    ensures { BitsPut found.now n at res.old res.new result }
{
    let mut matches: usize = 0;
    for i in 0..bytes_for(n) {
        res[at + i] = byte_of_rows(found, 8 * i);
        matches += ones_of_rows(found, 8 * i);
    }
    matches
}

// The byte of eight rows from a place on: the first is the least significant bit.
fn byte_of_rows(found: &[u8; LONGEST_SEGMENT], at: usize) -> u8
    requires { EightRows found.now at }
    ensures { result ≡ bits_at (λ k. eqb (get_or found.now (at + k) 0) 1) 8 0 }
{
    found[at]
        + 2 * found[at + 1]
        + 4 * found[at + 2]
        + 8 * found[at + 3]
        + 16 * found[at + 4]
        + 32 * found[at + 5]
        + 64 * found[at + 6]
        + 128 * found[at + 7]
}

// How many of eight rows from a place on are found.
fn ones_of_rows(found: &[u8; LONGEST_SEGMENT], at: usize) -> usize
    requires { EightRows found.now at }
    ensures { OnesOfRows found.now at result }
{
    found[at..at + 8].iter().map(|row| usize::from(*row)).sum()
}
