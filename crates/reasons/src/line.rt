// The lines of what can't be read or written.
// Each asks for room by a clause: a type around the lent bytes would be built at each call, and taken apart again in it.
ghost use Rattle.std.specs.Prelude.{◌+◌, ◌≤◌, length};
ghost use Rattle.ascii.specs.Laying.{Laid};
ghost use Rattle.reasons.specs.Reasons.{reason_room, reason_line, unread_line, unwritten_line, reason_line_room};

use crate::table::{error_number, put_reason};
use ascii::{NEWLINE, put_byte, put_bytes};

// A name, what can't be done, and why, from the front of `out`. Answers the line's length.
fn reason_line(out: &mut [u8], name: &[u8], what: &[u8], error: i32) -> usize
    requires { length name.now + length what.now + reason_room + 1 ≤ length out.old }
    ensures { Laid out.old 0 (reason_line name.now what.now error) out.new result }
{
    let named = put_bytes(out, 0, name);
    let at = put_bytes(out, named, what);
    let at = put_reason(out, at, error_number(error));
    put_byte(out, at, NEWLINE)
}

// "`NAME: can't be read: REASON`" from the front of `out`. Answers its length.
pub fn unread_line(out: &mut [u8], name: &[u8], error: i32) -> usize
    requires { reason_line_room + length name.now ≤ length out.old }
    ensures { Laid out.old 0 (unread_line name.now error) out.new result }
{
    reason_line(out, name, b": can't be read: ", error)
}

// "`NAME: can't be written: REASON`" in the same way.
pub fn unwritten_line(out: &mut [u8], name: &[u8], error: i32) -> usize
    requires { reason_line_room + length name.now ≤ length out.old }
    ensures { Laid out.old 0 (unwritten_line name.now error) out.new result }
{
    reason_line(out, name, b": can't be written: ", error)
}
