// Writes files so that a failure leaves the old ones. All bytes go to a temporary file beside the file, FILE.PID.tmp, and from there to the disk; then it is
// renamed. An argument's number says which file is meant. A failure is reported in one line on standard error.
//
// These functions call the system, so that no contract says what becomes of the files; `checks/programs` tries it.
#![tactic(auto)]

ghost use Rattle.std.specs.Prelude.{◌≤◌, IfOk, IfSome, length};

use cli_arguments::{PATH, argument_or_none, say, say_bytes};
use std::fs::{File, OpenOptions};
use std::io::{ErrorKind, Write};
use std::os::unix::fs::MetadataExt;
use std::{fs, io, process};

// Room for a path and for what the name of its temporary file adds.
const ROOM: usize = 4112;

// Links that are followed, as many as the system follows.
const LINKS: usize = 40;

// A file is not saved, and why has been reported.
#[derive(Clone, Copy, Debug, PartialEq, Eq)]
pub struct Unsaved;

// The name of the temporary file beside the file of a path, in the room for it.
fn temporary<'a>(rt: &HostRuntime, path: &[u8], room: &'a mut [u8; ROOM]) -> &'a [u8]
    requires { length path.now ≤ 4096 }
    ensures { length result.now ≤ length room.old }
{
    let named = text_bytes::append(path, 0, room);
    let numbered = text_bytes::number_if(true, b".", process::id(rt.process()), named, room);
    let end = text_bytes::append(b".tmp", numbered, room);
    &room[..end]
}

// Reports what is wrong with the file of a path.
fn report(rt: &HostRuntime, path: &[u8], what: &str) -> Result<(), Unsaved> {
    say_bytes(rt, path);
    say(rt, what);
    Err(Unsaved)
}

// Reports why the system does not save the file of a path.
fn report_error(rt: &HostRuntime, path: &[u8], why: io::Error) -> Result<(), Unsaved> {
    cli_arguments::fail(rt, path, why);
    Err(Unsaved)
}

// Whether a path is a symbolic link.
fn is_link(rt: &HostRuntime, path: &[u8]) -> io::Result<bool> {
    let text = cli_arguments::text(path)?;
    let about = fs::symlink_metadata(rt, text)?;
    Ok(about.is_symlink())
}

// Opens the file of a path for reading and writing, as it is.
fn open_update(rt: &HostRuntime, path: &[u8]) -> io::Result<File> {
    let text = cli_arguments::text(path)?;
    let mut how = OpenOptions::new();
    how.read(true).write(true);
    how.open(rt, text)
}

// Whether what the open file has is on the disk, and closes it: nothing may be said while it is open, for it may have taken standard error's number.
fn is_flushed(file: File) -> bool {
    file.sync_all().is_ok()
}

// A file may take this name if there is none yet, or a regular file that may be written. Devices, pipes and terminals have nothing to flush.
fn test_replaceable(rt: &HostRuntime, path: &[u8]) -> Result<(), Unsaved> {
    if let Ok(true) = is_link(rt, path) {
        return report(rt, path, ": a symbolic link\n");
    }
    match open_update(rt, path) {
        Ok(file) => {
            if is_flushed(file) {
                Ok(())
            } else {
                report(rt, path, ": not a regular file\n")
            }
        }
        Err(why) if why.kind() == ErrorKind::NotFound => Ok(()),
        Err(why) => report_error(rt, path, why),
    }
}

// The bytes into the open file and to the disk.
fn write_open(file: &mut File, bytes: &[u8]) -> io::Result<()> {
    file.write_all(bytes)?;
    file.sync_all()
}

// Opens a new file of that name for writing.
fn create(rt: &HostRuntime, name: &[u8]) -> io::Result<File> {
    let text = cli_arguments::text(name)?;
    let mut how = OpenOptions::new();
    how.write(true).create_new(true);
    how.open(rt, text)
}

// Removes the file of that name, if there is one.
fn remove(rt: &HostRuntime, name: &[u8]) {
    if let Ok(text) = cli_arguments::text(name) {
        let _ = fs::remove_file(rt, text);
    }
}

// Has all bytes in the new file and on the disk, and closes it.
fn write_and_close(mut file: File, bytes: &[u8]) -> io::Result<()> {
    write_open(&mut file, bytes)
}

// Writes all bytes to a new file of that name; where that fails there is none. `path` is the name that it is to get.
fn write_new(rt: &HostRuntime, path: &[u8], name: &[u8], bytes: &[u8]) -> Result<(), Unsaved> {
    match create(rt, name) {
        Ok(file) => {
            if let Err(why) = write_and_close(file, bytes) {
                cli_arguments::fail(rt, path, why);
                remove(rt, name);
                return Err(Unsaved);
            }
            Ok(())
        }
        Err(why) if why.kind() == ErrorKind::AlreadyExists => report_error(rt, name, why),
        Err(why) => report_error(rt, path, why),
    }
}

// Writes the bytes for the file that argument i names to its temporary file. A message about an argument that cannot be had names it by `what`.
pub fn prepare(rt: &HostRuntime, i: usize, what: &[u8], bytes: &[u8]) -> Result<(), Unsaved> {
    let mut room = [0u8; PATH];
    match cli_arguments::argument(rt, i, &mut room) {
        Ok(path) => {
            test_replaceable(rt, path)?;
            let mut name = [0u8; ROOM];
            write_new(rt, path, temporary(rt, path, &mut name), bytes)
        }
        Err(why) => report_error(rt, what, why),
    }
}

// Opens the file of that name.
fn open(rt: &HostRuntime, name: &[u8]) -> io::Result<File> {
    File::open(rt, cli_arguments::text(name)?)
}

// Whether the file of a path has a temporary file: one that was prepared for it under this or another path.
fn has_temporary(rt: &HostRuntime, path: &[u8]) -> bool
    requires { length path.now ≤ 4096 }
{
    let mut name = [0u8; ROOM];
    open(rt, temporary(rt, path, &mut name)).is_ok()
}

// The path's folder, with the slash that ends it; empty where the path has none.
fn folder(path: &[u8]) -> &[u8]
    ensures { length result.now ≤ length path.now }
{
    match path.iter().rposition(|b| *b == b'/') {
        Some(i) => &path[..i + 1],
        None => &[],
    }
}

// What of a path is kept in front of what its link says: nothing where that begins at the root, else the path's folder.
fn kept<'a>(target: &[u8], path: &'a [u8]) -> &'a [u8]
    ensures { length result.now ≤ length path.now }
{
    if target.first() == Some(&b'/') {
        &[]
    } else {
        folder(path)
    }
}

// Where the symbolic link of a path leads, in the buffer; none where the path is no link, or the buffer is too short.
fn link_of<'a>(rt: &HostRuntime, path: &[u8], buffer: &'a mut [u8]) -> io::Result<Option<&'a [u8]>>
    ensures { IfOk result (λ target. IfSome target (λ word. length word.now ≤ length buffer.old)) }
{
    let Ok(true) = is_link(rt, path) else {
        return Ok(None);
    };
    let to = fs::read_link(rt, cli_arguments::text(path)?)?;
    let bytes = to.as_str().as_bytes();
    if bytes.is_empty() || buffer.len() < bytes.len() {
        return Ok(None);
    }
    let n = text_bytes::append(bytes, 0, buffer);
    Ok(Some(&buffer[..n]))
}

// The path that the link of a path of n bytes leads to, in its place, and its length; none where it is no link, or one that is too long. An error where the
// link cannot be read.
fn follow(rt: &HostRuntime, n: usize, path: &mut [u8; PATH]) -> io::Result<Option<usize>>
    requires { n ≤ 4096 }
    ensures { IfOk result (λ next. IfSome next (λ m. m ≤ 4096)) }
{
    let mut room = [0u8; PATH];
    let Some(target) = link_of(rt, &path[..n], &mut room)? else {
        return Ok(None);
    };
    let kept = kept(target, &path[..n]).len();
    if path.len() - kept < target.len() {
        return Ok(None);
    }
    Ok(Some(text_bytes::append(target, kept, path)))
}

// Whether the file that argument i names, or one that it leads to, has a temporary file. An error where that cannot be decided.
fn is_prepared(rt: &HostRuntime, i: usize) -> io::Result<bool> {
    let mut path = [0u8; PATH];
    let mut n = argument_or_none(rt, i, &mut path).len();
    for _ in 0..LINKS {
        if has_temporary(rt, &path[..n]) {
            return Ok(true);
        }
        let Some(m) = follow(rt, n, &mut path)? else {
            return Ok(false);
        };
        n = m;
    }
    Ok(false)
}

// Removes the temporary file of the file that argument i names.
pub fn discard(rt: &HostRuntime, i: usize) {
    let mut path = [0u8; PATH];
    let mut name = [0u8; ROOM];
    let path = argument_or_none(rt, i, &mut path);
    remove(rt, temporary(rt, path, &mut name));
}

// The device and the number of the file that argument i names.
fn node(rt: &HostRuntime, i: usize) -> io::Result<(u64, u64)> {
    let mut path = [0u8; PATH];
    let path = argument_or_none(rt, i, &mut path);
    let about = fs::metadata(rt, cli_arguments::text(path)?)?;
    Ok((about.dev(), about.ino()))
}

// Whether arguments i and j name one file, by its number. Where there is no file i yet, they do not.
fn is_one_file(rt: &HostRuntime, i: usize, j: usize) -> io::Result<bool> {
    match node(rt, i) {
        Ok(old) => Ok(node(rt, j)? == old),
        Err(why) if why.kind() == ErrorKind::NotFound => Ok(false),
        Err(why) => Err(why),
    }
}

// Whether argument j leads to the file that was prepared for argument i: by its temporary file or, where a link on the way cannot be read, by its number.
fn leads_to(rt: &HostRuntime, i: usize, j: usize) -> io::Result<bool> {
    is_prepared(rt, j).or_else(|_| is_one_file(rt, i, j))
}

// Reports why the file that argument i names cannot be distinguished from another.
fn report_unknown(rt: &HostRuntime, i: usize, why: io::Error) {
    let mut path = [0u8; PATH];
    cli_arguments::fail(rt, argument_or_none(rt, i, &mut path), why);
}

// Fails if argument j names the very file that was prepared for argument i, or if this cannot be decided. Nothing is written then.
pub fn tell_apart(rt: &HostRuntime, i: usize, j: usize) -> Result<(), Unsaved> {
    match leads_to(rt, i, j) {
        Ok(false) => return Ok(()),
        Ok(true) => {
            discard(rt, i);
            cli_arguments::print(rt, i);
            say(rt, ": the same file as ");
            cli_arguments::print(rt, j);
            say(rt, "\n");
        }
        Err(why) => {
            discard(rt, i);
            report_unknown(rt, j, why);
        }
    }
    Err(Unsaved)
}

// Has the folder of a path on the disk.
fn flush_folder(rt: &HostRuntime, path: &[u8]) -> io::Result<()> {
    let folder = folder(path);
    let open = open(rt, if folder.is_empty() { b"." } else { folder })?;
    open.sync_all()
}

// Gives a file another name.
fn rename(rt: &HostRuntime, from: &[u8], to: &[u8]) -> io::Result<()> {
    let from = cli_arguments::text(from)?;
    let to = cli_arguments::text(to)?;
    fs::rename(rt, from, to)
}

// Gives the temporary file of the file that argument i names its name. Where that fails, it is gone and the old file is as it was.
pub fn put(rt: &HostRuntime, i: usize) -> Result<(), Unsaved> {
    let mut path = [0u8; PATH];
    let mut name = [0u8; ROOM];
    let path = argument_or_none(rt, i, &mut path);
    let name = temporary(rt, path, &mut name);
    if let Err(why) = rename(rt, name, path) {
        cli_arguments::fail(rt, path, why);
        remove(rt, name);
        return Err(Unsaved);
    }
    if flush_folder(rt, path).is_err() {
        say_bytes(rt, path);
        say(
            rt,
            ": written, but its folder could not be flushed to the disk\n",
        );
    }
    Ok(())
}
