// `save_input PATH [FROM]`: saves standard input, or the file FROM, as the file PATH, so that tests/saving can try how a file is read and saved.
#![tactic(auto)]

ghost use Rattle.std.specs.Prelude.{◌≤◌, length, IfOk};

use disk::SaveError;
use std::rt::{Env, HostRuntime};
use streams::Ending;

const ERRORS: i32 = 2;

// The error numbers of a wrong usage, and of what is too large.
const INVALID: i32 = 22;

const TOO_LARGE: i32 = 27;

// The most that is saved, and one byte more.
const ROOM: usize = 131073;

// ---- what is told

fn print_error(error: i32) {
    io::write_all(ERRORS, b"error ");
    if 0 < error {
        io::print_decimal(ERRORS, error as u64);
    }
    io::write_all(ERRORS, b"\n");
}

// The line that tells which step failed, and how.
fn tell(path: &[u8], what: &[u8], error: i32) -> Ending {
    io::write_all(ERRORS, path);
    io::write_all(ERRORS, what);
    print_error(error);
    Ending::Failed
}

// A match, since each case has words of its own.
fn tell_saved(path: &[u8], saved: Result<(), SaveError>) -> Ending {
    match saved {
        Ok(()) => Ending::Done,
        Err(SaveError::NotMade(error)) => tell(path, b": can't be written: not made, ", error),
        Err(SaveError::NotWritten(error)) => tell(
            path,
            b": can't be written: not written, ",
            error,
        ),
        Err(SaveError::NotSafe(error)) => tell(path, b": can't be written: not made safe, ", error),
        Err(SaveError::NotRenamed(error)) => tell(
            path,
            b": can't be written: not renamed, ",
            error,
        ),
    }
}

// ---- what is saved

// Reads standard input, or the file of this name.
fn read_from(rt: &HostRuntime, from: &[u8], buf: &mut [u8]) -> Result<usize, i32>
    ensures { IfOk result (λ count. count ≤ length buf.new) }
{
    if from.is_empty() {
        let mut input = rt.stdin();
        return disk::read_input(rt, &mut input, buf);
    }
    disk::read_file(rt, from, buf)
}

fn run(rt: &HostRuntime, path: &[u8], from: &[u8], bytes: &mut [u8]) -> Ending {
    if path.is_empty() {
        return tell(b"usage: save_input PATH [FROM]", b": ", INVALID);
    }
    match read_from(rt, from, bytes) {
        Ok(count) if ROOM <= count => tell(b"the input", b": too long: ", TOO_LARGE),
        Ok(count) => tell_saved(path, disk::save(rt, path, &bytes[..count])),
        Err(error) => tell(b"the input", b": can't be read: ", error),
    }
}

// How many bytes the argument has: none where it is not there, since an empty one is treated alike.
fn argument(rt: &HostRuntime, i: usize, arg: &mut [u8]) -> usize
    ensures { result ≤ length arg.new }
{
    rt.arg(i, arg).unwrap_or(0)
}

fn main(rt: HostRuntime) {
    let mut path = [0u8; 8192];
    let mut from = [0u8; 8192];
    let mut bytes = [0u8; ROOM];
    let n = argument(&rt, 1, &mut path);
    let k = argument(&rt, 2, &mut from);
    streams::tell_ending(run(&rt, &path[..n], &from[..k], &mut bytes));
}
