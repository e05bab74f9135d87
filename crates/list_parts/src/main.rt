// Lists what a query finds in a register: the file is parts.bsl in the current folder, the query's text is standard input.
// Prints the listing, or the line of a refusal. Where not all of it can be written it says so on standard error.
#![tactic(auto)]

use limits::{MOST_FILE, MOST_TEXT};
use printing::CutShort;
use std::env::FillError;
use std::rt::Env;

// Bytes that are printed at a time.
const PIECE: usize = 65536;

// Lends a byte more than is taken of each input, so that a larger one shows. What a disk elsewhere could not take may show only
// once all is written, so that is looked at too.
fn main(rt: HostRuntime) {
    if has_argument(&rt) {
        say_usage(&rt);
        return;
    }
    let mut file = [0u8; MOST_FILE + 1];
    let mut text = [0u8; MOST_TEXT + 1];
    let mut out = [0u8; PIECE];
    let mut input = rt.stdin();
    let mut output = rt.stdout();
    if let Err(cut) = printing::list_parts(
        &rt,
        &mut input,
        &mut output,
        &mut file,
        &mut text,
        &mut out,
    ) {
        say_cut_short(&rt, cut);
        return;
    }
    if let Err(error) = putting::saved(&rt) {
        putting::fail(
            &rt,
            "list_parts: the listing may not be whole, saving it failed",
            &error,
        );
    }
}

// Whether the program was called with an argument, an empty one too.
fn has_argument<R: Env>(rt: &R) -> bool {
    let mut word = [0u8; 1];
    !matches!(rt.arg(1, &mut word), Err(FillError::NotPresent))
}

// Says that the listing is not whole, why, and how much of it was written.
fn say_cut_short<R: Eprint>(rt: &R, cut: CutShort) {
    let CutShort {
        written,
        all,
        error,
    } = cut;
    putting::fail(rt, "list_parts: the listing is not whole", &error);
    let _ = eprintln!(rt; "list_parts: {written} of {all} bytes were written");
}

// Says how the program is called. Where that cannot be written there is nowhere to say it.
fn say_usage<R: Eprint>(rt: &R) {
    let _ = eprintln!(rt; "usage: list_parts < QUERY");
    let _ = eprintln!(rt;
        "It takes no argument: it reads the register parts.bsl in the current folder and the query on standard input."
    );
}
