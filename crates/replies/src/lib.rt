// Replies as arrays of numbers: number, place and need of a refusal, then the values.

#![tactic(auto)]

ghost use Rattle.std.specs.Prelude.{◌≡◌, ◌≤◌, ◌-◌, ◌++◌, replicate, Ok};
ghost use Rattle.refusals.specs.Numbers.{numbers_of};
ghost use Rattle.answers.specs.Answers as answers;
ghost use Rattle.register.specs.Answers as register;
ghost use Rattle.replies.specs.Replies.{kind_of, read_reply, scan_reply};

use limits::{ANSWER_NUMBERS, MOST_TESTS, OPEN_NUMBERS, READ_NUMBERS, SCAN_NUMBERS};
use query::Comparison;
use refusals::Refusal;
use register::Shape;
use scan::Scanned;
use text::Asked;

pub fn opened_reply(opened: Result<Shape, Refusal>) -> [u64; OPEN_NUMBERS]
    ensures { result ≡ register.shown_of opened }
{
    match opened {
        Ok(shape) => [0, 0, 0, shape.rows as u64, shape.columns as u64],
        Err(unfit) => refused_reply(unfit),
    }
}

pub fn answer_reply(answer: Result<usize, Refusal>) -> [u64; ANSWER_NUMBERS]
    ensures { result ≡ answers.shown_of answer }
{
    match answer {
        Ok(elements) => [0, 0, 0, elements as u64],
        Err(refusal) => refused_reply(refusal),
    }
}

// This and `scanned_reply` have arms of one form; one function over what makes the numbers would be longer than both.
pub fn read_reply(asked: Result<Asked, Refusal>) -> [u64; READ_NUMBERS]
    ensures { result ≡ read_reply asked }
{
    match asked {
        Ok(asked) => asked_reply(asked),
        Err(unread) => refused_reply(unread),
    }
}

fn asked_reply(asked: Asked) -> [u64; READ_NUMBERS]
    ensures { result ≡ read_reply (Ok asked) }
{
    let query = asked.query;
    let tests = query.tests;
    let mut reply = [0u64; READ_NUMBERS];
    reply[3] = asked.size as u64;
    reply[4] = query.count as u64;
    for t in 0..MOST_TESTS {
        let test = tests[t];
        let comparison = test.comparison;
        reply[5 + 3 * t] = test.column as u64;
        reply[6 + 3 * t] = kind_of(comparison);
        reply[7 + 3 * t] = query::literal_of(comparison);
    }
    reply
}

// Comparisons are numbered in the order < <= > >= = !=, as C is told them.
fn kind_of(comparison: Comparison) -> u64
    ensures { result ≡ kind_of comparison }
{
    match comparison {
        Comparison::Less(_) => 0,
        Comparison::AtMost(_) => 1,
        Comparison::More(_) => 2,
        Comparison::AtLeast(_) => 3,
        Comparison::Equal(_) => 4,
        Comparison::Differs(_) => 5,
    }
}

pub fn scanned_reply(scanned: Result<Scanned, Refusal>) -> [u64; SCAN_NUMBERS]
    ensures { result ≡ scan_reply scanned }
{
    match scanned {
        Ok(scanned) => counted_reply(scanned),
        Err(unscanned) => refused_reply(unscanned),
    }
}

fn counted_reply(scanned: Scanned) -> [u64; SCAN_NUMBERS]
    ensures { result ≡ scan_reply (Ok scanned) }
{
    let counts = scanned.counts;
    let mut reply = [0u64; SCAN_NUMBERS];
    reply[3] = scanned.matches as u64;
    reply[4] = scanned.total as u64;
    for t in 0..MOST_TESTS {
        reply[5 + t] = counts[t] as u64;
    }
    reply
}

// A refused call's reply: the refusal, and 0 for each value.
fn refused_reply<const N: usize>(refusal: Refusal) -> [u64; N]
    requires { 3 ≤ N }
    ensures { result ≡ numbers_of refusal ++ replicate (N - 3) 0 }
{
    let mut reply = [0u64; N];
    reply[0] = refusal.number();
    reply[1] = refusal.place() as u64;
    reply[2] = refusal.need() as u64;
    reply
}
