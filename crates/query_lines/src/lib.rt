// The lines of a query's text, read from a place on: the first, with the segment size, and those of tests.

#![tactic(auto)]

ghost use Rattle.std.specs.Prelude.{◌≡◌, ◌+◌, ◌≤◌, length};
ghost use Rattle.query_lines.specs.Steps.{SegmentAt, ComparisonAt, ComparedAt, LineAt};

use decimals::After;
use limits::DECIMAL_LIMIT;
use query::{Comparison, Test};

// No decimal is greater.
const GREATEST_DECIMAL: u64 = DECIMAL_LIMIT - 1;

// Line 0: the word "segment", a space, the size, a line feed. The size, and the place behind the line.
pub fn read_segment(text: &[u8]) -> Option<(u64, usize)>
    ensures { SegmentAt text.now result }
{
    if !text.starts_with(b"segment ") {
        return None;
    }
    decimals::read_number(text, 8, After::LineFeed, GREATEST_DECIMAL)
}

// A line of a test, from a place on: column, space, sign, space, literal, line feed. The test, and the
// place behind the line.
pub fn read_line(text: &[u8], at: usize) -> Option<(Test, usize)>
    requires { at ≤ length text.now }
    ensures { LineAt text.now at result }
{
    let (column, behind) = decimals::read_number(text, at, After::Space, GREATEST_DECIMAL)?;
    let (comparison, behind) = read_comparison(text, behind)?;
    let test = Test {
        column: column as usize,
        comparison,
    };
    Some((test, behind))
}

// A sign, a space, a literal, a line feed: the comparison, and the place behind the line.
fn read_comparison(text: &[u8], at: usize) -> Option<(Comparison, usize)>
    requires { at ≤ length text.now }
    ensures { ComparisonAt text.now at result }
{
    let first = decimals::byte_at(text, at);
    let second = decimals::byte_at(text, at + 1);
    match (first, second) {
        (b'<', b'=') => compared(text, at + 2, Comparison::AtMost),
        (b'<', _) => compared(text, at + 1, Comparison::Less),
        (b'>', b'=') => compared(text, at + 2, Comparison::AtLeast),
        (b'>', _) => compared(text, at + 1, Comparison::More),
        (b'=', _) => compared(text, at + 1, Comparison::Equal),
        (b'!', b'=') => compared(text, at + 2, Comparison::Differs),
        _ => None,
    }
}

// A space, a literal, a line feed: the comparison that is made of the literal, and the place behind the
// line.
fn compared<F: FnOnce(u64) -> Comparison>(
    text: &[u8],
    at: usize,
    comparison: F,
) -> Option<(Comparison, usize)>
    requires within { at ≤ length text.now + 2 }
    requires callable { F.IsAlwaysCallable comparison }
    ensures { ComparedAt (F.post comparison) text.now at result }
{
    match decimals::byte_at(text, at) {
        b' ' => {
            let (literal, next) = decimals::read_number(
                text,
                at + 1,
                After::LineFeed,
                GREATEST_DECIMAL,
            )?;
            Some((comparison(literal), next))
        }
        _ => None,
    }
}
