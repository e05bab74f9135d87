// Bytes of a long listing, one after the other, of which a lent buffer takes a piece: those at places
// from a first one on, as many as it has room for.

#![tactic(auto)]

ghost use Rattle.std.specs.Prelude.{◌+◌, ◌^◌, ◌<◌, [], ◌∷◌};
ghost use Rattle.limits.specs.Limits.{longest_decimal};
ghost use Rattle.decimals.specs.Decimals.{decimal};
ghost use Rattle.pieces.specs.Pieces.{Begun, Wrote, WroteUpTo, WordAt};

// A piece of a listing: the buffer that takes it, the place of the listing at which it begins, and the
// place that has been reached.
#[derive(Drop)]
pub struct Piece<'a> {
    pub out: &'a mut [u8],
    pub from: usize,
    pub at: usize,
}

impl<'a> Piece<'a> {
    // A piece of which nothing is written yet.
    pub fn new(out: &'a mut [u8], from: usize) -> Piece<'a>
        ensures { Begun out.entry from result }
    {
        Piece { out, from, at: 0 }
    }

    // One byte.
    #[tactic(auto, unfolding(crate::specs::Pieces::write_at, crate::specs::Pieces::put_at))]
    pub fn put(&mut self, byte: u8)
        requires { self.old.at < 2 ^ 62 }
        ensures { Wrote (byte ∷ []) self.old self.new }
    {
        if self.from <= self.at && self.at - self.from < self.out.len() {
            self.out[self.at - self.from] = byte;
        }
        self.at += 1;
    }

    // The bytes of a word.
    pub fn put_word(&mut self, word: &[u8])
        requires { WordAt self.old.at word.now }
        ensures { Wrote word.now self.old self.new }
    {
        for byte in word {
            self.put(*byte);
        }
    }

    // A number in decimal: that of its tenth, where it has one, and then its last digit. Not by `write!`, which
    // promises its bytes only where it answers `Ok`, nor by `InlineText`, which does not promise them whole.
    pub fn put_decimal(&mut self, number: u64)
        requires { self.old.at < 2 ^ 61 }
        ensures { WroteUpTo (self.old.at + longest_decimal) (decimal number) self.old self.new }
    {
        if number < 10 {
            return self.put(b'0' + number as u8);
        }
        self.put_decimal(number / 10);
        self.put(b'0' + (number % 10) as u8);
    }
}
