// The table of positions, and the rows of set bits written by it, rising.

#![tactic(auto)]

mod table;

ghost use Rattle.std.specs.Prelude.{◌≡◌, ◌+◌, ◌*◌, ◌<◌, length, get_or, map};
ghost use Rattle.basis.specs.Lists.{below};
ghost use Rattle.basis.specs.Buffers.{laid};
ghost use Rattle.bits.specs.Marked.{marked_below};
ghost use Rattle.bits.specs.SetBits.{places_of};
ghost use Rattle.positions.specs.Places.{HoldsPlaces};
ghost use Rattle.positions.specs.Steps.{row_at, RowsFit, WordHasRoom, ByteHasRoom, EntriesHaveRoom, BytePut, WordPut};

use table::POSITIONS;

// Writes the rows of all set bits, of which there are so many, to the front, byte after byte.
pub fn write_rows(bits: &[u8], all: usize, out: &mut [u32])
    requires { RowsFit bits.now all out.old }
    ensures { out.new ≡ laid out.old 0 (marked_below (8 * length bits.now) bits.now) }
{
    let positions = Positions { places: POSITIONS };
    positions.write(bits, all, out);
}

// A table of 256 rows of eight positions: the places of the set bits of each byte, then zeros.
#[derive(Drop)]
struct Positions {
    places: [u8; 2048],
    ghost right: { HoldsPlaces places },
}

// `out`, `at` and `all` stay three parameters: with a struct of them each contract would say as well that `all` is kept.
impl Positions {
    // Writes the rows by the table. Where they are so few that five bytes of six are 0 it leaves those out.
    fn write(&self, bits: &[u8], all: usize, out: &mut [u32])
        requires { RowsFit bits.now all out.old }
        ensures { out.new ≡ laid out.old 0 (marked_below (8 * length bits.now) bits.now) }
    {
        if all < bits.len() / 6 {
            self.write_words(bits, all, out);
            return;
        }
        self.write_bytes(bits, all, out);
    }

    // Writes them eight bytes at a time, without the bytes of 0.
    fn write_words(&self, bits: &[u8], all: usize, out: &mut [u32])
        requires { RowsFit bits.now all out.old }
        ensures { out.new ≡ laid out.old 0 (marked_below (8 * length bits.now) bits.now) }
    {
        let words = bits.len() / 8;
        let mut at: usize = 0;
        for w in 0..words {
            let i = 8 * w;
            let word = bits::word_at(bits, i, 8);
            at = self.put_word(word, (8 * i) as u32, out, at, all);
        }
        let i = 8 * words;
        let word = bits::word_at(bits, i, bits.len() - i);
        self.put_word(word, (8 * i) as u32, out, at, all);
    }

    // Puts the rows of a word at a place, with a turn for each byte that is not 0, and answers the place
    // behind them.
    fn put_word(&self, word: usize, first: u32, out: &mut [u32], at: usize, all: usize) -> usize
        requires { WordHasRoom word first at all out.old }
        ensures { WordPut word first at all out.old out.new result }
    {
        let mut next = at;
        let mut rest = word;
        let mut passed: u32 = 0;
        while rest != 0 {
            let zeros = rest.trailing_zeros() / 8 * 8;
            rest >>= zeros;
            passed += zeros;
            next = self.put_byte((rest % 256) as u8, first + passed, out, next, all);
            rest /= 256;
            passed += 8;
        }
        next
    }

    // Writes them with a turn for every byte.
    fn write_bytes(&self, bits: &[u8], all: usize, out: &mut [u32])
        requires { RowsFit bits.now all out.old }
        ensures { out.new ≡ laid out.old 0 (marked_below (8 * length bits.now) bits.now) }
    {
        let mut at: usize = 0;
        for (i, byte) in bits.iter().enumerate() {
            at = self.put_byte(*byte, (8 * i) as u32, out, at, all);
        }
    }

    // Puts the rows of one byte at a place, and answers the place behind them. While eight more rows are
    // to come all eight entries of its row are stored, which takes no turn that cannot be foretold: what
    // they put behind the byte's own rows is overwritten by those of later bytes.
    fn put_byte(&self, byte: u8, first: u32, out: &mut [u32], at: usize, all: usize) -> usize
        requires { ByteHasRoom byte first at all out.old }
        ensures next { result ≡ at + length (places_of byte) }
        ensures put { BytePut byte first at all out.old out.new }
    {
        let many = bits::ones_of(byte);
        if at + 8 <= all {
            self.write_places(byte, 8, first, out, at);
        } else {
            self.write_places(byte, many, first, out, at);
        }
        at + many
    }

    // Writes the rows of a byte's first entries from a place on; the byte's first bit is that of the first
    // row.
    fn write_places(&self, byte: u8, many: usize, first: u32, out: &mut [u32], at: usize)
        requires { EntriesHaveRoom many first at out.old }
        ensures { out.new ≡ laid out.old at (map (row_at byte first) (below many)) }
    {
        for k in 0..many {
            out[at + k] = first + u32::from(self.place(byte, k));
        }
    }

    // The place of a byte's set bit number k.
    fn place(&self, byte: u8, k: usize) -> u8
        requires { k < 8 }
        ensures { result ≡ get_or (places_of byte) k 0 }
    {
        self.places[8 * usize::from(byte) + k]
    }
}
