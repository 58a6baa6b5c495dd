// The line that `check` prints for a file.
// A place beside the bytes, as in ascii's laying, and each asks for room by a clause: a type around the lent bytes would be built at each call, and taken apart again in it.
ghost use Rattle.std.specs.Prelude.{◌+◌, ◌≤◌, length};
ghost use Rattle.ascii.specs.Laying.{Laid};
ghost use Rattle.checking.specs.Checked.{counts_told, accepted_line, CheckTold, check_room};
ghost use Rattle.checking.specs.Inner.{counts_room};

use crate::parts::put_parts;
use crate::run::put_count;
use crate::tallies::action_count;
use ascii::{NEWLINE, put_byte, put_bytes};
use refusals::refusal_line;
use score::{AcceptedFile, check_file, event_count, item_count, message_count};
use session::Refusal;

// How long a file's line is, and whether the file was accepted. No Result: either way there is a line.
#[derive(Clone, Copy)]
pub struct Checked {
    pub count: usize,
    pub accepted: bool,
}

// How much of everything an accepted file has, behind the first `at` bytes.
fn put_counts(out: &mut [u8], at: usize, file: AcceptedFile<'_>) -> usize
    requires { at + counts_room ≤ length out.old }
    ensures { Laid out.old at (counts_told file.entry.bytes.now) out.new result × (result ≤ at + counts_room) }
{
    let events = event_count(file.bytes);
    let items = item_count(file.bytes);
    let actions = action_count(file.bytes);
    let messages = message_count(file.bytes);
    let at = put_count(out, at, events as u64, b" events, ");
    let at = put_count(out, at, items as u64, b" items, ");
    let at = put_count(out, at, actions as u64, b" actions, ");
    put_count(out, at, messages as u64, b" messages, parts")
}

// The line of an accepted file from the front of `out`. Answers its length.
fn accepted_line(out: &mut [u8], name: &[u8], file: AcceptedFile<'_>) -> usize
    requires { check_room + length name.now ≤ length out.old }
    ensures { Laid out.old 0 (accepted_line name.now file.entry.bytes.now) out.new result }
{
    let named = put_bytes(out, 0, name);
    let at = put_bytes(out, named, b": accepted, ");
    let at = put_counts(out, at, file);
    let at = put_parts(out, at, file);
    put_byte(out, at, NEWLINE)
}

// The line of any file from the front of `out`. The file is checked once.
pub fn check_line(out: &mut [u8], name: &[u8], file: &[u8]) -> Checked
    requires { check_room + length name.now ≤ length out.old }
    ensures { CheckTold out.old name.now file.now out.new result }
{
    match check_file(file) {
        Ok(()) => Checked {
            count: accepted_line(out, name, AcceptedFile { bytes: file }),
            accepted: true,
        },
        Err(x) => Checked {
            count: refusal_line(out, name, file, Refusal::File(x)),
            accepted: false,
        },
    }
}
