// Files by name.
ghost use Rattle.std.specs.Prelude.{◌≤◌, length, IfSome, IfOk};
ghost use Rattle.io.specs.Counts.{IsPrefixLen};

use crate::errors::file_error;
use cli_page::Out;
use std::fs;
use std::fs::File;
use std::io::{Error, ErrorKind, Read, Write};

// One byte more than the longest sheet has; a book is shorter.
pub const LONGEST: usize = 31725;

// Why a file can't be used.
#[derive(Clone, Copy, Debug, PartialEq, Eq)]
pub enum Unusable {
    Missing,
    Forbidden,
    Shut,
    Folder,
    Unread,
    Empty,
    Long,
}

impl Unusable {
    fn words(self) -> &'static str {
        match self {
            Unusable::Missing => "there is no such file",
            Unusable::Forbidden => "may not be opened",
            Unusable::Shut => "cannot be opened",
            Unusable::Folder => "is a folder",
            Unusable::Unread => "cannot be read",
            Unusable::Empty => "is empty",
            Unusable::Long => { "is too long: a sheet has 31,724 bytes at most, a book 9,604" }
        }
    }
}

// C's EACCES: a mode forbids it. `PermissionDenied` is EPERM too.
const EACCES: i32 = 13;

fn not_opened(error: &Error) -> Unusable {
    match (error.kind(), error.raw_os_error()) {
        (ErrorKind::NotFound, _) => Unusable::Missing,
        (_, Some(EACCES)) => Unusable::Forbidden,
        _ => Unusable::Shut,
    }
}

fn not_read(error: &Error) -> Unusable {
    match error.kind() {
        ErrorKind::IsADirectory => Unusable::Folder,
        _ => Unusable::Unread,
    }
}

// What is read behind the first n bytes, to the end of the file or of buf; a read that fails ends it too. Stays by hand: `read_to_end` allocates.
fn read_on(file: &mut File, buf: &mut [u8], n: usize) -> usize
    requires { n ≤ length buf.old }
    ensures { IsPrefixLen result buf.new }
{
    let mut done = n;
    while done < buf.len() {
        match file.read(&mut buf[done..]) {
            Ok(0) | Err(_) => return done,
            Ok(got) => done += got,
        }
    }
    done
}

// Reads a whole file. One that fills buf is too long; one whose name is no UTF-8 can't be opened.
pub fn try_read(rt: HostRuntime, path: &[u8], buf: &mut [u8]) -> Result<usize, Unusable>
    ensures { IfOk result (λ n. IsPrefixLen n buf.new) }
{
    let name = std::str::from_utf8(path).map_err(|_| Unusable::Shut)?;
    let mut file = File::open(&rt, name).map_err(|e| not_opened(&e))?;
    let first = file.read(buf).map_err(|e| not_read(&e))?;
    match read_on(&mut file, buf, first) {
        0 => Err(Unusable::Empty),
        n if n == buf.len() => Err(Unusable::Long),
        n => Ok(n),
    }
}

// The same; where the file can't be used, that is told.
pub fn read(out: &mut Out, path: &[u8], buf: &mut [u8]) -> Option<usize>
    ensures { IfSome result (λ n. IsPrefixLen n buf.new) }
{
    match try_read(out.rt, path, buf) {
        Ok(n) => Some(n),
        Err(e) => {
            file_error(out, path, e.words());
            None
        }
    }
}

// Why a file can't be written: it can't be made, or a part of it may be there.
#[derive(Clone, Copy, Debug, PartialEq, Eq)]
pub enum Unwritten {
    NotOpened,
    NotWhole,
}

// Whether a disk took all that was written, by what asking it to answers. A pipe, a terminal and a device can't be asked, nor can some file systems: what
// was written went there.
fn is_kept(asked: Result<(), Error>) -> bool {
    match asked {
        Ok(()) => true,
        Err(e) => matches!(
            e.kind(),
            ErrorKind::InvalidInput | ErrorKind::Unsupported | ErrorKind::ReadOnlyFilesystem
        ),
    }
}

// Writes a whole file, which is made or emptied first. A file whose name is no UTF-8 can't be opened.
pub fn write(rt: HostRuntime, path: &[u8], bytes: &[u8]) -> Result<(), Unwritten> {
    let name = std::str::from_utf8(path).map_err(|_| Unwritten::NotOpened)?;
    let mut file = fs::create(&rt, name).map_err(|_| Unwritten::NotOpened)?;
    file.write_all(bytes).map_err(|_| Unwritten::NotWhole)?;
    if is_kept(file.sync_all()) {
        Ok(())
    } else {
        Err(Unwritten::NotWhole)
    }
}
