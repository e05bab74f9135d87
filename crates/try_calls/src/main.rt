// Makes the calls of `exports` that standard input asks for, a line each, and prints what each leaves. A line is the call's
// name, a space, the case's name, a colon, and the numbers that the call takes, with any words between them: a slice is its
// length and its elements, an output how many elements it has and how many of them are lent. The answer is the line up to
// the colon, the numbers of the reply, and every element of the output. What must be printed is made by tests/calls.
#![tactic(auto)]

mod calls;

ghost use Rattle.std.specs.Prelude.{◌+◌, ◌≤◌, length};
ghost use Rattle.io.specs.Counts.{IsPrefixLen};
ghost use Rattle.try_calls.specs.Requests.{MadeFor};

use calls::say;
use std::io::Read;
use try_reading::{behind, numbers_of};

// The requests that are taken in one run, in bytes. One more is lent, so that more show.
const MOST_REQUESTS: usize = 1048576;

// The numbers of a request: the bits of the most rows, and some more.
const MOST_NUMBERS: usize = 131200;

fn main(rt: HostRuntime) {
    let mut requests = [0u8; MOST_REQUESTS + 1];
    let mut numbers = [0u64; MOST_NUMBERS];
    take_requests(&rt, &mut rt.stdin(), &mut requests, &mut numbers);
}

// Reads the requests and answers them, by way of what is lent for them and for the numbers of each.
fn take_requests<R: Print, I: Read>(
    rt: &R,
    input: &mut I,
    requests: &mut [u8],
    numbers: &mut [u64],
) {
    let n = read_full(input, requests);
    if MOST_REQUESTS < n {
        say(rt, b"more than 1048576 bytes of requests\n");
        return;
    }
    answer_all(rt, &requests[..n], numbers);
}

// Reads until the buffer is full, the input ends or a read fails, and answers how many bytes it put at the start.
fn read_full<I: Read>(input: &mut I, buffer: &mut [u8]) -> usize
    ensures { IsPrefixLen result buffer.new }
{
    let mut done: usize = 0;
    while done < buffer.len() {
        let more = read_more(input, buffer, done);
        if more == 0 {
            return done;
        }
        done += more;
    }
    done
}

// One read into the buffer from a place on: no bytes where the input has ended or the read failed.
fn read_more<I: Read>(input: &mut I, buffer: &mut [u8], done: usize) -> usize
    requires { done ≤ length buffer.old }
    ensures { done + result ≤ length buffer.old }
{
    input.read(&mut buffer[done..]).unwrap_or(0)
}

// Answers line after line, and says at the end how many there were. It ends since each line has a byte at least.
fn answer_all<R: Print>(rt: &R, requests: &[u8], numbers: &mut [u64]) {
    let mut rest = requests;
    let mut lines: usize = 0;
    while !rest.is_empty() {
        let end = behind(rest, b'\n');
        let (line, next) = rest.split_at(end);
        answer(rt, line, numbers);
        rest = next;
        lines += 1;
    }
    let _ = println!(rt; "requests {lines}");
}

// Prints a line up to its colon, and then the answer, or that it is no request: its numbers are not those of a call, or too many or
// too large.
fn answer<R: Print>(rt: &R, line: &[u8], numbers: &mut [u64]) {
    let named = behind(line, b':');
    say(rt, &line[..named]);
    if make_call(rt, line, &line[named..], numbers).is_none() {
        say(rt, b" no request\n");
    }
}

#[tactic(auto, using(crate::proofs::Words::spelt))]
fn make_call<R: Print>(rt: &R, line: &[u8], text: &[u8], numbers: &mut [u64]) -> Option<()>
    ensures { MadeFor (length numbers.old) line.now text.now result }
{
    let count = numbers_of(text, numbers)?;
    let numbers = &numbers[..count];
    let word = behind(line, b' ');
    match &line[..word] {
        b"open " => calls::open(rt, numbers),
        b"widths " => calls::widths(rt, numbers),
        b"write " => calls::write(rt, numbers),
        b"read " => calls::read(rt, numbers),
        b"scan " => calls::scan(rt, numbers),
        b"list " => calls::list(rt, numbers),
        b"lookup " => calls::lookup(rt, numbers),
        _ => None,
    }
}
