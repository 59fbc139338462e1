// The files that the arguments name.
ghost use Rattle.std.specs.Prelude.{◌<◌, ◌≤◌, length, take, IfOk, IfSome};
ghost use Rattle.std.specs.Io.KnownBytes.{Consumes, IsAtEnd};

use super::standard_error::fail;
use std::env::FillError;
use std::fs::File;
use std::io;
use std::io::Read;
use std::rt::{Env, Files};

// A path that is longer cannot be opened.
const LONGEST_PATH: usize = 4096;

// What the system says of an argument that is not there, of one that is too long for a path, and of one that is no text in UTF-8, by which
// alone std opens a file.
const INVALID_ARGUMENT: i32 = 22;

const NAME_TOO_LONG: i32 = 36;

const ILLEGAL_BYTES: i32 = 84;

// How many arguments the program was started with, its own name among them.
pub(crate) fn argument_count(rt: &impl Env) -> usize {
    for i in 0..usize::MAX {
        if let Err(FillError::NotPresent) = rt.arg(i, &mut []) {
            return i;
        }
    }
    usize::MAX
}

// Room for a path.
pub(crate) fn path_buffer() -> [u8; LONGEST_PATH] {
    [0u8; LONGEST_PATH]
}

// Puts an argument at the start of the buffer, and returns its length; 0 where it is missing, or longer than the buffer.
pub(crate) fn argument(rt: &impl Env, i: usize, buffer: &mut [u8]) -> usize
    ensures { result ≤ length buffer.new }
{
    rt.arg(i, buffer).unwrap_or(0)
}

// A file that an argument names, to its end or until the buffer is full; and how long that is. One that cannot be read is said on standard
// error by what it is, as its path may hold any bytes.
pub(crate) fn read_argument(
    rt: &(impl Env + Files + Eprint + AllocGlobal),
    what: &str,
    i: usize,
    buffer: &mut [u8],
) -> Option<usize>
    ensures { IfSome result (λ n. n ≤ length buffer.new) }
{
    match read_named(rt, i, buffer) {
        Ok(n) => Some(n),
        Err(error) => {
            fail(rt, what, &error);
            None
        }
    }
}

fn read_named(rt: &(impl Env + Files), i: usize, buffer: &mut [u8]) -> io::Result<usize>
    ensures { IfOk result (λ n. n ≤ length buffer.new) }
{
    let mut path = path_buffer();
    let n = rt.arg(i, &mut path).map_err(argument_error)?;
    let mut file = open_file(rt, &path[..n])?;
    read_all(&mut file, buffer)
}

fn argument_error(error: FillError) -> io::Error {
    io::Error::from_raw_os_error(match error {
        FillError::NotPresent => INVALID_ARGUMENT,
        FillError::TooLong => NAME_TOO_LONG,
    })
}

fn open_file<R: Files>(rt: &R, path: &[u8]) -> io::Result<R::File> {
    match str::from_utf8(path) {
        Ok(text) => File::open(rt, text),
        Err(_) => Err(io::Error::from_raw_os_error(ILLEGAL_BYTES)),
    }
}

// Of a file whose bytes are known, these are the next. A read that fails is no end of the file.
fn read_all<F: Read>(file: &mut F, buffer: &mut [u8]) -> io::Result<usize>
    ensures in_bounds { IfOk result (λ n. n ≤ length buffer.new) }
    ensures bytes { IfOk result (λ n. Consumes (F.remaining file.old) (F.remaining file.new) (take n buffer.new)) }
    ensures end { IfOk result (λ n. n < length buffer.new → IsAtEnd (F.remaining file.new)) }
{
    let mut n = 0;
    while n < buffer.len() {
        let more = file.read(&mut buffer[n..])?;
        if more == 0 {
            return Ok(n);
        }
        n += more;
    }
    Ok(n)
}
