// The seven calls of `exports`, each made with the numbers of a request, and answered by none where these are not its numbers. Each
// element of a reply and of an output holds 77 before the call, so that one that is left shows.
ghost use Rattle.std.specs.Prelude.{◌^◌, ◌<◌, ◌≤◌};
ghost use Rattle.try_calls.specs.Requests.{MadeWith, open_call, widths_call, write_call, read_call, scan_call, list_call, lookup_call};

use limits::{MOST_BITS, MOST_ROWS};
use std::fmt::Display;
use try_reading::{Room, room_of, slice_at, slice_of};

// A file, or the bits of the most rows.
const MOST_BYTES: usize = MOST_BITS;

// Any other slice, and all but the largest outputs.
const MOST_ELEMENTS: usize = 4096;

// The list of the most rows, and an element more.
const MOST_LISTED: usize = MOST_ROWS + 1;

// A file.
pub fn open<R: Print>(rt: &R, numbers: &[u64]) -> Option<()>
    ensures { MadeWith open_call numbers.now result }
{
    let mut file = [0u8; MOST_BYTES];
    let (file, rest) = slice_at(numbers, &mut file)?;
    if !rest.is_empty() {
        return None;
    }
    let mut reply = [77u64; 5];
    exports::bsl_open(file, &mut reply);
    say_all(rt, &reply);
    say(rt, b"\n");
    Some(())
}

// A file, and an output.
pub fn widths<R: Print>(rt: &R, numbers: &[u64]) -> Option<()>
    ensures { MadeWith widths_call numbers.now result }
{
    let mut file = [0u8; MOST_BYTES];
    let (file, rest) = slice_at(numbers, &mut file)?;
    let Room { elements, lent } = room_of(rest, MOST_ELEMENTS)?;
    let mut out = [77u8; MOST_ELEMENTS];
    let mut reply = [77u64; 4];
    exports::bsl_widths(file, &mut out[..lent], &mut reply);
    say_both(rt, &reply, &out[..elements]);
    Some(())
}

// Rows, widths, codes, and an output.
pub fn write<R: Print>(rt: &R, numbers: &[u64]) -> Option<()>
    ensures { MadeWith write_call numbers.now result }
{
    let (rows, rest) = numbers.split_first()?;
    let mut widths = [0u8; MOST_ELEMENTS];
    let (widths, rest) = slice_at(rest, &mut widths)?;
    let (codes, rest) = slice_of(rest)?;
    let Room { elements, lent } = room_of(rest, MOST_ELEMENTS)?;
    let mut out = [77u8; MOST_ELEMENTS];
    let mut reply = [77u64; 4];
    exports::bsl_write(*rows as usize, widths, codes, &mut out[..lent], &mut reply);
    say_both(rt, &reply, &out[..elements]);
    Some(())
}

// A text.
pub fn read<R: Print>(rt: &R, numbers: &[u64]) -> Option<()>
    ensures { MadeWith read_call numbers.now result }
{
    let mut text = [0u8; MOST_ELEMENTS];
    let (text, rest) = slice_at(numbers, &mut text)?;
    if !rest.is_empty() {
        return None;
    }
    let mut reply = [77u64; 53];
    exports::bsl_read(text, &mut reply);
    say_all(rt, &reply);
    say(rt, b"\n");
    Some(())
}

// A file, a text, and an output.
pub fn scan<R: Print>(rt: &R, numbers: &[u64]) -> Option<()>
    ensures { MadeWith scan_call numbers.now result }
{
    let mut file = [0u8; MOST_BYTES];
    let (file, rest) = slice_at(numbers, &mut file)?;
    let mut text = [0u8; MOST_ELEMENTS];
    let (text, rest) = slice_at(rest, &mut text)?;
    let Room { elements, lent } = room_of(rest, MOST_ELEMENTS)?;
    let mut out = [77u8; MOST_ELEMENTS];
    let mut reply = [77u64; 21];
    exports::bsl_scan(file, text, &mut out[..lent], &mut reply);
    say_both(rt, &reply, &out[..elements]);
    Some(())
}

// Rows, bits, and an output. The largest is made only where it is asked for, as it takes long to fill.
pub fn list<R: Print>(rt: &R, numbers: &[u64]) -> Option<()>
    ensures { MadeWith list_call numbers.now result }
{
    let (rows, rest) = numbers.split_first()?;
    let mut bits = [0u8; MOST_BYTES];
    let (bits, rest) = slice_at(rest, &mut bits)?;
    let room = room_of(rest, MOST_LISTED)?;
    if room.elements <= MOST_ELEMENTS {
        list_into::<R, MOST_ELEMENTS>(rt, *rows as usize, bits, room);
    } else {
        list_into::<R, MOST_LISTED>(rt, *rows as usize, bits, room);
    }
    Some(())
}

// Lists into an output that is the front of so many elements.
fn list_into<R: Print, const ROOM: usize>(rt: &R, rows: usize, bits: &[u8], room: Room)
    requires lends { room.lent ≤ room.elements }
    requires fits { room.elements ≤ ROOM }
    requires small { ROOM < 2 ^ 61 }
{
    let mut out = [77u32; ROOM];
    let mut reply = [77u64; 4];
    exports::bsl_list(rows, bits, &mut out[..room.lent], &mut reply);
    say_both(rt, &reply, &out[..room.elements]);
}

// A file, a column, rows, and an output.
pub fn lookup<R: Print>(rt: &R, numbers: &[u64]) -> Option<()>
    ensures { MadeWith lookup_call numbers.now result }
{
    let mut file = [0u8; MOST_BYTES];
    let (file, rest) = slice_at(numbers, &mut file)?;
    let (column, rest) = rest.split_first()?;
    let mut rows = [0u32; MOST_ELEMENTS];
    let (rows, rest) = slice_at(rest, &mut rows)?;
    let Room { elements, lent } = room_of(rest, MOST_ELEMENTS)?;
    let mut out = [77u64; MOST_ELEMENTS];
    let mut reply = [77u64; 4];
    exports::bsl_lookup(file, *column as usize, rows, &mut out[..lent], &mut reply);
    say_both(rt, &reply, &out[..elements]);
    Some(())
}

// Prints bytes. What cannot be printed is missed by whoever compares.
pub fn say<R: Print>(rt: &R, bytes: &[u8]) {
    let _ = rt.write_all(bytes);
}

// Prints a reply, and behind it an output.
fn say_both<R: Print, T: Display>(rt: &R, reply: &[u64], out: &[T]) {
    say_all(rt, reply);
    say(rt, b" |");
    say_all(rt, out);
    say(rt, b"\n");
}

// Prints numbers, a space before each.
fn say_all<R: Print, T: Display>(rt: &R, numbers: &[T]) {
    for number in numbers {
        let _ = print!(rt; " {number}");
    }
}
