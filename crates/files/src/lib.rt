// An input read whole into a lent buffer, a reader's or a file's by its name. The contracts say how much of the buffer an
// answer counts. Which bytes stand there is the operating system's word, and is not promised.
#![tactic(auto)]

ghost use Rattle.std.specs.Prelude.{◌≡◌, ◌+◌, ◌≤◌, None, length};
ghost use Rattle.files.specs.Taking.{count_of, taken_by, TakenInto, NotOpened};

use std::io::{ErrorKind, Read};
use std::rt::Files;
use std::{fs, io, str};

// Reads until the input ends or the buffer is full, and answers how many bytes it put at the start of the buffer, or none where a
// read failed. A full buffer may not hold the whole input, so a caller lends one byte more than it accepts. It ends since each turn
// leaves less to fill.
pub fn take_all<R: Read>(reader: &mut R, buffer: &mut [u8]) -> Option<usize>
    ensures { TakenInto buffer.old buffer.new result }
{
    let mut done: usize = 0;
    while done < buffer.len() {
        let more = take_more(reader, buffer, done)?;
        if more == 0 {
            return Some(done);
        }
        done += more;
    }
    Some(done)
}

// Reads the file of this name as take_all does. One that cannot be opened is unreadable, and so is
// a folder, which opens and whose first read fails.
pub fn read_file<R: Files>(files: &R, path: &[u8], buffer: &mut [u8]) -> Option<usize>
    ensures { TakenInto buffer.old buffer.new result }
{
    let opened = open_named(files, path);
    take_opened(opened, buffer)
}

// Opens a file for reading. The system's files are named by text here, so none has a name that is no text.
fn open_named<R: Files>(files: &R, path: &[u8]) -> io::Result<R::File> {
    match str::from_utf8(path) {
        Ok(name) => fs::open(files, name),
        Err(_) => Err(io::Error::from(ErrorKind::NotFound)),
    }
}

// Reads what opening answered, a file or an error, and closes it. That closing what was only read failed says
// nothing of what was read.
fn take_opened<F: Read + Drop>(opened: io::Result<F>, buffer: &mut [u8]) -> Option<usize>
    ensures taken { TakenInto buffer.old buffer.new result }
    ensures unopened { NotOpened opened → result ≡ None }
{
    let mut file = opened.ok()?;
    take_all(&mut file, buffer)
}

// One read into the buffer from a place on. No bytes: the input has ended. A read that a signal
// interrupts counts as one that failed.
fn take_more<R: Read>(reader: &mut R, buffer: &mut [u8], done: usize) -> Option<usize>
    requires { done ≤ length buffer.old }
    ensures { done + count_of result ≤ length buffer.old }
{
    let rest = &mut buffer[done..];
    let got = reader.read(rest);
    taken_by(got, rest)
}

// What a read into a part of the buffer says by its answer.
fn taken_by(got: io::Result<usize>, part: &[u8]) -> Option<usize>
    ensures answer { result ≡ taken_by got (length part.now) }
    ensures within { count_of result ≤ length part.now }
{
    Some(got.ok()?.min(part.len()))
}
