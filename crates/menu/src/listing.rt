// What `help` prints: how the program is called, a line for each command, and closing lines.
// A place beside the bytes, as in ascii's laying: `Laid` says what stands before it and behind it.
ghost use Rattle.std.specs.Prelude.{◌+◌, ◌≤◌, length};
ghost use Rattle.ascii.specs.Laying.{Laid};
ghost use Rattle.menu.specs.Table.{row_of, usage_width};
ghost use Rattle.menu.specs.Help.{padded, command_line, line_room, help_head, help_end, help_text, head_room, end_room, help_room};

use crate::Command;
use crate::table::{COMMANDS, entry_of};
use ascii::{NEWLINE, put_byte, put_bytes, put_spaces};

// The width of the column of usages.
const USAGE_WIDTH: usize = 30;

// The usage, and spaces up to the column of the help.
fn put_padded(out: &mut [u8], at: usize, usage: &[u8]) -> usize
    requires { (length usage.now ≤ usage_width) × (at + usage_width ≤ length out.old) }
    ensures { Laid out.old at (padded usage.now) out.new result × (result ≤ at + usage_width) }
{
    let left = USAGE_WIDTH - usage.len();
    let used = put_bytes(out, at, usage);
    put_spaces(out, used, left)
}

// The line of a command.
fn put_command_line(out: &mut [u8], at: usize, c: Command) -> usize
    requires { at + line_room ≤ length out.old }
    ensures { Laid out.old at (command_line (row_of c)) out.new result × (result ≤ at + line_room) }
{
    let row = entry_of(c);
    let begun = put_bytes(out, at, b"  ");
    let used = put_padded(out, begun, row.usage);
    let helped = put_bytes(out, used, row.help);
    put_byte(out, helped, NEWLINE)
}

// How the program is called.
fn put_head(out: &mut [u8]) -> usize
    requires { head_room ≤ length out.old }
    ensures { Laid out.old 0 help_head out.new result × (result ≤ head_room) }
{
    put_bytes(out, 0, b"usage: bin/poolmirror COMMAND ARGS\n\n")
}

// What holds for every command.
fn put_end(out: &mut [u8], at: usize) -> usize
    requires { at + end_room ≤ length out.old }
    ensures { Laid out.old at help_end out.new result }
{
    put_bytes(
        out,
        at,
        b"\nA name of a file may be - for standard input, or for standard output where one is written. Before a name that begins with a dash write --\nStatus: 0 done, 1 refused, 2 wrong usage, or something can't be read or written\ndocs/POOLMIRROR.md says more, and docs/PLAY.md which commands play reads.\n",
    )
}

// All of it from the front of `out`. Answers its length.
pub fn help_text(out: &mut [u8]) -> usize
    requires { help_room ≤ length out.old }
    ensures { Laid out.old 0 help_text out.new result }
{
    let mut at = put_head(out);
    for c in COMMANDS {
        at = put_command_line(out, at, c);
    }
    put_end(out, at)
}
