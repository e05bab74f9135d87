// Writing to the last byte: what a write leaves is taken up again, a reader that is slow is waited for, and where a write
// fails not a byte more is written. Which bytes arrive is the operating system's word, and is not promised.
#![tactic(auto)]

ghost use Rattle.std.specs.Prelude.{◌≡◌, ◌+◌, ◌<◌, ◌≤◌, length, MatchResult};
ghost use Rattle.putting.specs.Putting.{put_count, put_for};

use std::fs::OpenFile;
use std::io::{ErrorKind, Write};
use std::rt::{Clock, Files};
use std::time::Duration;
use std::{fs, io, str, thread};

// How often a reader is waited for, a moment each time: longer than any machine lasts, so that the loop has an end.
const MOST_WAITS: u64 = 18446744073709551615;

// Bytes of the words for an error.
const MOST_WORDS: usize = 128;

// Standard output by its name.
const OUTPUT: &str = "/dev/stdout";

// What one write did: it took so many bytes; it can take none yet; or it failed.
#[derive(Clone, Copy)]
pub enum Put {
    Bytes(usize),
    Later(io::Error),
    Failed(io::Error),
}

// How many bytes were taken, which are not all of them, and why.
#[derive(Clone, Copy)]
pub struct Stopped {
    pub taken: usize,
    pub error: io::Error,
}

// Writes all the bytes, and answers how many were taken: fewer than all where a write failed or took none, and then why.
// It ends since each turn leaves fewer bytes or fewer waits.
pub fn put_all<W: Write>(clock: &impl Clock, writer: &mut W, bytes: &[u8]) -> Result<usize, Stopped>
    ensures { MatchResult result (λ taken. taken ≡ length bytes.now) (λ stopped. stopped.taken < length bytes.now) }
{
    let mut taken: usize = 0;
    let mut waits = MOST_WAITS;
    while taken < bytes.len() {
        match put_more(writer, bytes, taken) {
            Put::Bytes(0) => {
                let error = io::Error::from(ErrorKind::WriteZero);
                return Err(Stopped { taken, error });
            }
            Put::Bytes(more) => taken += more,
            Put::Later(_) if 0 < waits => {
                waits -= 1;
                pause(clock);
            }
            Put::Later(error) | Put::Failed(error) => return Err(Stopped { taken, error }),
        }
    }
    Ok(taken)
}

// One write of the bytes from a place on.
fn put_more<W: Write>(writer: &mut W, bytes: &[u8], done: usize) -> Put
    requires { done ≤ length bytes.now }
    ensures { done + put_count result ≤ length bytes.now }
{
    match writer.write(&bytes[done..]) {
        Ok(more) => Put::Bytes(more),
        Err(error) => put_for(error),
    }
}

// What a write that took nothing means, by its error: that the reader is behind, or that a signal came, passes; any other
// does not.
fn put_for(error: io::Error) -> Put
    ensures answer { result ≡ put_for error }
    ensures nothing { put_count result ≡ 0 }
{
    match error.kind() {
        ErrorKind::WouldBlock | ErrorKind::Interrupted => Put::Later(error),
        _ => Put::Failed(error),
    }
}

// Waits two milliseconds.
fn pause(clock: &impl Clock) {
    thread::sleep(clock, Duration::from_millis(2));
}

// Says on standard error what failed, as the caller names it, and why. Where that cannot be written there is nowhere to say it.
// Each program ends by this and by saved, in words of its own: a function for all their ends would promise nothing.
pub fn fail<R: Eprint>(rt: &R, what: &str, error: &io::Error) {
    let mut text = [0u8; MOST_WORDS];
    let words = words_of(error, &mut text);
    let _ = eprintln!(rt; "{what}: {words}");
}

// The system's words for an error, by way of what is lent for them, without the number that std puts behind.
fn words_of<'a>(error: &io::Error, text: &'a mut [u8; MOST_WORDS]) -> &'a str {
    let mut rest: &mut [u8] = text;
    let room = rest.len();
    let _ = write!(rest, "{error}");
    let made = room.saturating_sub(rest.len());
    let Ok(words) = str::from_utf8(&text[..made]) else {
        return "";
    };
    match words.split_once(" (os error ") {
        Some((front, _)) => front,
        None => words,
    }
}

// What a disk elsewhere could not take may show only once all is written. Nothing in std closes standard output and says how that
// went. So where it is a file of a disk, what was written is sent to that disk now, by the file's own name, which answers the same.
// Where it is none, or cannot be opened by that name or sent to a disk, there is nothing to ask.
pub fn saved<R: Files>(files: &R) -> io::Result<()> {
    let Ok(about) = fs::metadata(files, OUTPUT) else {
        return Ok(());
    };
    if !about.is_file() {
        return Ok(());
    }
    let mut how = fs::OpenOptions::new();
    how.write(true);
    let Ok(file) = how.open(files, OUTPUT) else {
        return Ok(());
    };
    match file.sync_data() {
        Err(error) if is_unasked(error.kind()) => Ok(()),
        done => done,
    }
}

// Whether a file cannot be sent to its disk at all, so that the error says nothing of what was written.
fn is_unasked(kind: ErrorKind) -> bool {
    matches!(
        kind,
        ErrorKind::InvalidInput | ErrorKind::Unsupported | ErrorKind::ReadOnlyFilesystem
    )
}
