// Reads the text of a query: a line with the segment size and a line for each test. The text is
// gone through once, from its first byte to its last.

#![tactic(auto)]

ghost use Rattle.std.specs.Prelude.{◌≡◌};
ghost use Rattle.text.specs.Reading.{Reads};

use limits::MOST_TESTS;
use query::Query;
use refusals::Refusal;

// What a text asks: the segment size and the query.
#[derive(Clone, Copy)]
pub struct Asked {
    pub size: usize,
    pub query: Query,
}

// Reads a text whole: the size and at most 16 tests, or refusal 17 at the first malformed line, or
// 11 where every line is well formed and there are more tests.
pub fn read(text: &[u8]) -> Result<Asked, Refusal>
    ensures { Reads text.now result }
{
    let mut tests = [query::empty_slot(); MOST_TESTS];
    let Some((size, mut at)) = query_lines::read_segment(text) else {
        return Err(Refusal::MalformedText(0));
    };
    let mut count: usize = 0;
    while at < text.len() {
        let Some((test, next)) = query_lines::read_line(text, at) else {
            return Err(Refusal::MalformedText(count + 1));
        };
        if count < MOST_TESTS {
            tests[count] = test;
        }
        count += 1;
        at = next;
    }
    if MOST_TESTS < count {
        return Err(Refusal::TooManyTests);
    }
    Ok(Asked {
        size: size as usize,
        query: Query { count, tests },
    })
}
