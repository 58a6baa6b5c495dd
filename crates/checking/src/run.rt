// What a run of `check` over several files comes to.
// A place beside the bytes, as in ascii's laying, and each asks for room by a clause: a type around the lent bytes would be built at each call, and taken apart again in it.
ghost use Rattle.std.specs.Prelude.{◌≡◌, ◌+◌, ◌≤◌, ◌++◌, length};
ghost use Rattle.ascii.specs.Decimals.{most_places, decimal};
ghost use Rattle.ascii.specs.Laying.{Laid};
ghost use Rattle.checking.specs.Tallied.{no_files, tallied, files, worth_telling, ending_of, tally_told, tallies_room, tally_line, tally_room};

use ascii::{NEWLINE, put_byte, put_bytes, put_number};
use streams::Ending;

// How many files were accepted, were refused, and could not be read.
#[derive(Clone, Copy)]
pub struct Tally {
    pub accepted: u32,
    pub refused: u32,
    pub unread: u32,
}

// What came of a file.
#[derive(Clone, Copy)]
pub enum Came {
    Accepted,
    Refused,
    Unread,
}

// Before the first file.
pub fn no_files() -> Tally
    ensures { result ≡ no_files }
{
    Tally {
        accepted: 0,
        refused: 0,
        unread: 0,
    }
}

// One file more, up to the most that can be counted.
pub fn count_file(t: Tally, c: Came) -> Tally
    ensures { result ≡ tallied t c }
{
    match c {
        Came::Accepted => Tally {
            accepted: t.accepted.saturating_add(1),
            ..t
        },
        Came::Refused => Tally {
            refused: t.refused.saturating_add(1),
            ..t
        },
        Came::Unread => Tally {
            unread: t.unread.saturating_add(1),
            ..t
        },
    }
}

// All of them.
fn files(t: Tally) -> u64
    ensures { result ≡ files t }
{
    u64::from(t.accepted) + u64::from(t.refused) + u64::from(t.unread)
}

// Whether the sum is told: of several files, not all were accepted.
pub fn worth_telling(t: Tally) -> bool
    ensures { result ≡ worth_telling t }
{
    let others = u64::from(t.refused) + u64::from(t.unread);
    if others < 1 {
        return false;
    }
    1 < files(t)
}

pub fn ending_of(t: Tally) -> Ending
    ensures { result ≡ ending_of t }
{
    if 0 < t.unread {
        return Ending::Failed;
    }
    if 0 < t.refused {
        return Ending::Refused;
    }
    Ending::Done
}

// A number and what it counts, behind the first `at` bytes.
pub fn put_count(out: &mut [u8], at: usize, n: u64, what: &[u8]) -> usize
    requires { at + most_places + length what.now ≤ length out.old }
    ensures { Laid out.old at (decimal n ++ what.now) out.new result × (result ≤ at + most_places + length what.now) }
{
    let next = put_number(out, at, n);
    put_bytes(out, next, what)
}

// How many files there were, and what came of them, behind the first `at` bytes.
fn put_tally(out: &mut [u8], at: usize, t: Tally) -> usize
    requires { at + tallies_room ≤ length out.old }
    ensures { Laid out.old at (tally_told t) out.new result × (result ≤ at + tallies_room) }
{
    let at = put_count(out, at, files(t), b" files: ");
    let at = put_count(out, at, u64::from(t.accepted), b" accepted, ");
    let at = put_count(out, at, u64::from(t.refused), b" refused, ");
    put_count(out, at, u64::from(t.unread), b" can't be read")
}

// "`bin/poolmirror: N files: A accepted, R refused, U can't be read`" from the front of `out`. Answers its length.
pub fn tally_line(out: &mut [u8], t: Tally) -> usize
    requires { tally_room ≤ length out.old }
    ensures { Laid out.old 0 (tally_line t) out.new result }
{
    let at = put_bytes(out, 0, b"bin/poolmirror: ");
    let at = put_tally(out, at, t);
    put_byte(out, at, NEWLINE)
}
