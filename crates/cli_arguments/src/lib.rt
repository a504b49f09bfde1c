// A program's arguments, and the files that they name. A file that cannot be read is reported in one line on standard error.
//
// All but `prefix` only read, or print on standard error, so that they promise no more than a bound of what they read.
#![tactic(auto)]

ghost use Rattle.std.specs.Prelude.{◌≡◌, ◌≤◌, IfOk, length, take};
ghost use Rattle.std.specs.Io.{WritesAtMost};

use std::env::{Env, FillError};
use std::fmt::Display;
use std::fs::File;
use std::io::{Cursor, Read, Write};
use std::{io, str};

// Room for any path, with the zero that ends it: the system takes no longer one.
pub const PATH: usize = 4096;

// Room for the text of any error.
const TEXT: usize = 256;

// The system's numbers of errors: of an argument that is not there, of one that is too long, of a path that is not UTF-8, and of none.
const MISSING: i32 = 22;

const TOO_LONG: i32 = 36;

const NO_TEXT: i32 = 84;

const NONE: i32 = 0;

// The first n bytes, or all where there are fewer.
pub fn prefix(s: &[u8], n: usize) -> &[u8]
    ensures { result.now ≡ take n s.now }
{
    &s[..n.min(s.len())]
}

// Prints on standard error. What is lost there cannot be reported anywhere.
pub fn say<D: Display + Drop>(rt: &HostRuntime, value: D) {
    let _ = Print::print(&rt.stderr(), value);
}

// Prints bytes as they are on standard error: an argument need not be text.
pub fn say_bytes(rt: &HostRuntime, bytes: &[u8]) {
    let _ = Print::write_all(&rt.stderr(), bytes);
}

// An error's text without the number that std puts behind the system's words, as ` (os error 2)`.
fn words(text: &[u8]) -> &[u8] {
    match text.iter().rposition(|b| *b == b'(') {
        Some(i) => prefix(text, i.saturating_sub(1)),
        None => text,
    }
}

// Prints a line on standard error: what failed, a colon and why.
pub fn fail(rt: &HostRuntime, what: &[u8], why: io::Error) {
    let mut text = Cursor::new([0u8; TEXT]);
    let _ = write!(text, "{why}");
    let written = text.position() as usize;
    let bytes = text.into_inner();
    let whole = prefix(&bytes, written);
    say_bytes(rt, what);
    say(rt, ": ");
    match why.raw_os_error() {
        Some(_) => say_bytes(rt, words(whole)),
        None => say_bytes(rt, whole),
    }
    say(rt, "\n");
}

// The system's error for an argument that cannot be had.
fn error_of(why: FillError) -> io::Error {
    match why {
        FillError::TooLong => io::Error::from_raw_os_error(TOO_LONG),
        FillError::NotPresent => io::Error::from_raw_os_error(MISSING),
    }
}

// Argument i, in the buffer; an error where it is not there, or longer than the buffer.
pub fn argument<'a>(rt: &HostRuntime, i: usize, buffer: &'a mut [u8]) -> io::Result<&'a [u8]>
    ensures { IfOk result (λ word. length word.now ≤ length buffer.old) }
{
    match rt.arg(i, buffer) {
        Ok(n) => Ok(&buffer[..n]),
        Err(why) => Err(error_of(why)),
    }
}

// Argument i as above; nothing where it cannot be had.
pub fn argument_or_none<'a>(rt: &HostRuntime, i: usize, buffer: &'a mut [u8]) -> &'a [u8]
    ensures { length result.now ≤ length buffer.old }
{
    argument(rt, i, buffer).unwrap_or(&[])
}

// Whether there is an argument i.
fn is_given(rt: &HostRuntime, i: usize) -> bool {
    !matches!(rt.arg(i, &mut [0u8; 1]), Err(FillError::NotPresent))
}

// How many arguments the program has, its own name among them.
pub fn count(rt: &HostRuntime) -> usize {
    (0..usize::MAX)
        .find(|i| !is_given(rt, *i))
        .unwrap_or(usize::MAX)
}

// Whether the first argument is `--help`.
fn asks_for_help(rt: &HostRuntime) -> bool {
    argument_or_none(rt, 1, &mut [0u8; 6]) == b"--help".as_slice()
}

// Prints how the program is used.
pub fn print_usage(rt: &HostRuntime, usage: &[u8]) {
    say(rt, "usage: ");
    say_bytes(rt, usage);
    say(rt, "\n");
}

// Whether the program has `count` arguments, its own name among them, and the first after it does not ask for help. If not, prints the usage.
pub fn are_given(rt: &HostRuntime, count: usize, usage: &[u8]) -> bool {
    if self::count(rt) == count && !asks_for_help(rt) {
        return true;
    }
    print_usage(rt, usage);
    false
}

// A path as std takes it: as text.
pub fn text(path: &[u8]) -> io::Result<&str> {
    str::from_utf8(path).map_err(|_| io::Error::from_raw_os_error(NO_TEXT))
}

// Reads until the buffer is full or the input ends, and returns how many bytes it put at the buffer's front.
pub fn read_full<R: Read>(from: &mut R, buffer: &mut [u8]) -> io::Result<usize>
    ensures { WritesAtMost result buffer.new }
{
    let mut done = 0;
    while done < buffer.len() {
        let n = from.read(&mut buffer[done..])?;
        if n == 0 {
            return Ok(done);
        }
        done += n;
    }
    Ok(done)
}

// What is read of an open file, up to the buffer's length. One more read has to tell that nothing comes behind what seems to be the file's end.
fn read_open<'a>(file: &mut File, buffer: &'a mut [u8]) -> io::Result<&'a [u8]> {
    let n = read_full(file, buffer)?;
    let got = file.read(&mut [0u8; 1])?;
    if 0 < got && n < buffer.len() {
        return Err(io::Error::from_raw_os_error(NONE));
    }
    Ok(&buffer[..n])
}

// What is read of the file of a path.
fn read_path<'a>(rt: &HostRuntime, path: &[u8], buffer: &'a mut [u8]) -> io::Result<&'a [u8]> {
    let mut file = File::open(rt, text(path)?)?;
    read_open(&mut file, buffer)
}

// The file that argument i names, up to the buffer's length, in the buffer; nothing where it cannot be read, which is reported. A message about an argument
// that cannot be had names it by `what`.
pub fn read<'a>(rt: &HostRuntime, i: usize, what: &[u8], buffer: &'a mut [u8]) -> Option<&'a [u8]> {
    let mut room = [0u8; PATH];
    let path = match argument(rt, i, &mut room) {
        Ok(path) => path,
        Err(why) => {
            fail(rt, what, why);
            return None;
        }
    };
    match read_path(rt, path, buffer) {
        Ok(bytes) => Some(bytes),
        Err(why) => {
            fail(rt, path, why);
            None
        }
    }
}

// Argument i, as it was given, on standard error: what a message begins with.
pub fn print(rt: &HostRuntime, i: usize) {
    say_bytes(rt, argument_or_none(rt, i, &mut [0u8; PATH]));
}
