// The words of the system's error numbers.
// A place beside the bytes, as in ascii's laying, and each asks for room by a clause: a type around the lent bytes would be built at each call, and taken apart again in it.
ghost use Rattle.std.specs.Prelude.{◌≡◌, ◌+◌, ◌≤◌, length, ◌++◌};
ghost use Rattle.ascii.specs.Text.{bytes_of};
ghost use Rattle.ascii.specs.Decimals.{decimal};
ghost use Rattle.ascii.specs.Laying.{Laid};
ghost use Rattle.reasons.specs.Reasons.{error_number, reason_words, reason_room};

use ascii::{put_bytes, put_number};

// The error number as it is told: the system gives none below 0.
pub fn error_number(error: i32) -> u64
    ensures { result ≡ error_number error }
{
    u64::try_from(error).unwrap_or(0)
}

// An error number that has no words.
fn put_error(out: &mut [u8], at: usize, n: u64) -> usize
    requires { at + reason_room ≤ length out.old }
    ensures { Laid out.old at (bytes_of "error " ++ decimal n) out.new result × (result ≤ at + reason_room) }
{
    let at = put_bytes(out, at, b"error ");
    put_number(out, at, n)
}

// The words of an error number behind the first `at` bytes. Answers where the next byte goes.
// A `match`, which is the table itself: each arm is a row, its number and its words.
pub fn put_reason(out: &mut [u8], at: usize, n: u64) -> usize
    requires { at + reason_room ≤ length out.old }
    ensures { Laid out.old at (reason_words n) out.new result × (result ≤ at + reason_room) }
{
    match n {
        1 => put_bytes(out, at, b"no permission"),
        2 => put_bytes(out, at, b"no such file"),
        5 => put_bytes(out, at, b"the disk or the device has failed"),
        9 => put_bytes(out, at, b"closed"),
        13 => put_bytes(out, at, b"no permission"),
        17 => put_bytes(out, at, b"ten .part files are in the way"),
        20 => put_bytes(out, at, b"the name leads through a file"),
        21 => put_bytes(out, at, b"a folder"),
        27 => put_bytes(out, at, b"too large"),
        28 => put_bytes(out, at, b"the disk is full"),
        30 => put_bytes(out, at, b"the disk can only be read"),
        36 => put_bytes(out, at, b"the name is too long"),
        40 => put_bytes(out, at, b"links in a circle, or too many"),
        _ => put_error(out, at, n),
    }
}
