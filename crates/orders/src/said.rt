// What standard error is told of a wrong usage, and names as people are told them.
// A place beside the bytes, as in ascii's laying: `Laid` says what stands before it and behind it. A name that is shown in place is the first n of lent bytes, since showing it may need two more than it has.
ghost use Rattle.std.specs.Prelude.{◌≡◌, map, ◌+◌, ◌≤◌, length, take};
ghost use Rattle.ascii.specs.Laying.{Laid};
ghost use Rattle.menu.specs.Table.{row_of};
ghost use Rattle.orders.specs.Said.{usage_line, usage_room, front_room, fault, fault_usage, misuse_line, misuse_room, missing, shown_byte, shown, quotes_room, first_line, line_size};

use crate::{Order, Usage};
use ascii::{NEWLINE, put_byte, put_bytes};
use menu::{Command, entry_of};

// What is shown in place of a byte that is not.
const UNSHOWN: u8 = b'?';

// The first byte that is shown, and one above it that is not.
const FIRST_SHOWN: u8 = b' ';

const DELETE: u8 = 127;

// How the command is used.
fn put_usage_line(out: &mut [u8], at: usize, c: Command) -> usize
    requires { at + usage_room ≤ length out.old }
    ensures { Laid out.old at (usage_line (row_of c)) out.new result }
{
    let at = put_bytes(out, at, b"usage: bin/poolmirror ");
    let used = put_bytes(out, at, entry_of(c).usage);
    put_byte(out, used, NEWLINE)
}

// What is wrong with what.
fn put_fault(out: &mut [u8], what: &[u8], words: &[u8]) -> usize
    requires { front_room + length what.now + length words.now ≤ length out.old }
    ensures { Laid out.old 0 (fault what.now words.now) out.new result }
{
    let at = put_bytes(out, 0, b"bin/poolmirror: ");
    let said = put_bytes(out, at, what);
    put_bytes(out, said, words)
}

// The same, and how the command is used.
fn put_fault_usage(out: &mut [u8], what: &[u8], words: &[u8], c: Command) -> usize
    requires { front_room + length what.now + length words.now + usage_room ≤ length out.old }
    ensures { Laid out.old 0 (fault_usage what.now words.now (row_of c)) out.new result }
{
    let at = put_fault(out, what, words);
    put_usage_line(out, at, c)
}

// The command itself is what an argument is missing of.
fn put_missing(out: &mut [u8], c: Command) -> usize
    requires { misuse_room ≤ length out.old }
    ensures { Laid out.old 0 (missing (row_of c)) out.new result }
{
    put_fault_usage(out, entry_of(c).name, b": an argument is missing\n", c)
}

// What is told of a wrong usage, from the front of `out`; `arg` is the argument at fault. Answers its length. A match, since the words of each case are its meaning.
pub fn misuse_line(out: &mut [u8], o: Order, arg: &[u8]) -> usize
    requires { misuse_room + length arg.now ≤ length out.old }
    ensures { Laid out.old 0 (misuse_line o arg.now) out.new result }
{
    let c = o.command;
    match o.usage {
        Usage::Right | Usage::Wished => 0,
        Usage::NoCommand => put_fault(
            out,
            arg,
            b": no such command. bin/poolmirror help lists the commands.\n",
        ),
        Usage::NoOption => put_fault_usage(
            out,
            arg,
            b": no such option. Before a name that begins with a dash write --\n",
            c,
        ),
        Usage::TooFew => put_missing(out, c),
        Usage::TooMany => put_fault_usage(out, arg, b": one argument too many\n", c),
        Usage::NoNumber => put_fault_usage(
            out,
            arg,
            b": not a whole number of 1 to 10 digits\n",
            c,
        ),
        Usage::InputTwice => put_fault_usage(
            out,
            b"-",
            b": standard input can't be read twice\n",
            c,
        ),
    }
}

// The byte as it is shown.
fn shown_byte(b: u8) -> u8
    ensures { result ≡ shown_byte b }
{
    if b < FIRST_SHOWN || b == DELETE {
        return UNSHOWN;
    }
    b
}

// The first n bytes in place as they are shown.
fn show_bytes(name: &mut [u8], n: usize) -> usize
    requires { n ≤ length name.old }
    ensures { Laid name.old 0 (map shown_byte (take n name.old)) name.new result }
{
    for b in &mut name[..n] {
        *b = shown_byte(*b);
    }
    n
}

// The name that the first n bytes are, in place as it is shown: on one line, whatever its bytes. Answers its length.
pub fn show(name: &mut [u8], n: usize) -> usize
    requires { (n ≤ length name.old) × (quotes_room ≤ length name.old) }
    ensures { Laid name.old 0 (shown (take n name.old)) name.new result }
{
    if n == 0 {
        return put_bytes(name, 0, b"\"\"");
    }
    show_bytes(name, n)
}

// What line 1 of a file is called, from the front of `out`. Answers its length.
pub fn put_first_line(out: &mut [u8], name: &[u8]) -> usize
    requires { length name.now + line_size ≤ length out.old }
    ensures { Laid out.old 0 (first_line name.now) out.new result }
{
    let at = put_bytes(out, 0, name);
    put_bytes(out, at, b":1")
}
