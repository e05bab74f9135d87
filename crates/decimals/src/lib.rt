// Reads one decimal at a place of a text, with the byte that must follow it. The caller says how large
// the number may be, up to the largest of 64 bits.

#![tactic(auto)]

ghost use Rattle.std.specs.Prelude.{◌+◌, ◌≤◌, ◌≡◌, length, get_or};
ghost use Rattle.decimals.specs.Reading.{after_byte, ended_by, NumberAt, FirstDigit};

// What must follow a decimal: a space between words, a line feed at the end of a line.
#[derive(Clone, Copy)]
pub enum After {
    Space,
    LineFeed,
}

// A decimal without leading zeros, at most the given number, and the byte that must follow it: the number
// and the place behind both.
pub fn read_number(text: &[u8], at: usize, after: After, most: u64) -> Option<(u64, usize)>
    requires { at ≤ length text.now }
    ensures { NumberAt (most + 1) text.now at after result }
{
    let first = byte_at(text, at);
    match first {
        b'0' => ended(after, byte_at(text, at + 1), 0, at + 2),
        b'1'..=b'9' => {
            let begun = u64::from(first - b'0');
            if most < begun {
                return None;
            }
            read_digits(text, at, after, begun, most)
        }
        _ => None,
    }
}

// Goes on with a decimal whose first digit is not 0: its further digits, and the byte that must follow
// them. Below a tenth of the greatest number every digit has room; of one that is not, whether it has
// room is told before it is taken in, and no digit comes after it.
fn read_digits(
    text: &[u8],
    from: usize,
    after: After,
    begun: u64,
    most: u64,
) -> Option<(u64, usize)>
    requires { FirstDigit text.now from begun most }
    ensures { NumberAt (most + 1) text.now from after result }
{
    let mut number = begun;
    for at in from + 1..text.len() {
        let byte = text[at];
        match byte {
            b'0'..=b'9' => {
                let digit = u64::from(byte - b'0');
                if most / 10 <= number {
                    let longer = number.checked_mul(10)?.checked_add(digit)?;
                    if most < longer {
                        return None;
                    }
                    return ended(after, byte_at(text, at + 1), longer, at + 2);
                }
                number = number * 10 + digit;
            }
            _ => return ended(after, byte, number, at + 1),
        }
    }
    None
}

// The number and the place behind, if the byte after it is the one that must follow.
fn ended(after: After, byte: u8, number: u64, next: usize) -> Option<(u64, usize)>
    ensures { result ≡ ended_by after byte number next }
{
    match (after, byte) {
        (After::Space, b' ') | (After::LineFeed, b'\n') => Some((number, next)),
        _ => None,
    }
}

// The byte at a place, 0 where the text has ended. No line holds a 0.
pub fn byte_at(text: &[u8], at: usize) -> u8
    ensures { result ≡ get_or text.now at 0 }
{
    text.get(at).copied().unwrap_or(0)
}
