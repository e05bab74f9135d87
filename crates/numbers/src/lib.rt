// The number that bytes make.

#![tactic(auto)]

ghost use Rattle.std.specs.Prelude.{◌≤◌, length};
ghost use Rattle.numbers.specs.OfBytes.{OfBytes};

// The number that at most eight bytes make, the least significant first.
pub fn number_of(bytes: &[u8]) -> usize
    requires { length bytes.now ≤ 8 }
    ensures { OfBytes bytes.now result }
{
    let mut number: usize = 0;
    for byte in bytes.iter().rev() {
        number = number * 256 + usize::from(*byte);
    }
    number
}
