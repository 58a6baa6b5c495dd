// The lines that `play` prints, laid out from the front of `out`, or behind what stands there. Each function answers where the line ends.
// Each asks for room by a clause: a type around the lent bytes would be built at each call, and taken apart again in it.
ghost use Rattle.std.specs.Prelude.{◌+◌, ◌≤◌, length};
ghost use Rattle.ascii.specs.Decimals.{most_places};
ghost use Rattle.ascii.specs.Laying.{Laid};
ghost use Rattle.lines.specs.Output.{word_line, words_line, figure, open_line, message_line, no_line, bad_line, end_line, line_room};

use ascii::{NEWLINE, SPACE, put_byte, put_bytes, put_number};

// A word and a number behind the first `at` bytes, and the line's end.
fn put_word_line(out: &mut [u8], at: usize, word: &[u8], n: u64) -> usize
    requires { at + length word.now + most_places + 1 ≤ length out.old }
    ensures { Laid out.old at (word_line word.now n) out.new result }
{
    let at = put_bytes(out, at, word);
    let at = put_number(out, at, n);
    put_byte(out, at, NEWLINE)
}

// A line of two words, each with its number.
fn put_words_line(out: &mut [u8], word: &[u8], n: u64, other: &[u8], m: u64) -> usize
    requires { length word.now + most_places + length other.now + most_places + 1 ≤ length out.old }
    ensures { Laid out.old 0 (words_line word.now n other.now m) out.new result }
{
    let at = put_bytes(out, 0, word);
    let at = put_number(out, at, n);
    put_word_line(out, at, other, m)
}

// The number and a space.
fn put_figure(out: &mut [u8], at: usize, n: u64) -> usize
    requires { at + most_places + 1 ≤ length out.old }
    ensures { Laid out.old at (figure n) out.new result × (result ≤ at + most_places + 1) }
{
    let next = put_number(out, at, n);
    put_byte(out, next, SPACE)
}

// "`open N parts C`"
pub fn open_line(out: &mut [u8], number: u64, parts: u64) -> usize
    requires { line_room ≤ length out.old }
    ensures { Laid out.old 0 (open_line number parts) out.new result }
{
    put_words_line(out, b"open ", number, b" parts ", parts)
}

// "per message clock, due date, part and label", behind the first `at` bytes
pub fn message_line(
    out: &mut [u8],
    at: usize,
    clock: u64,
    due: u64,
    part: u64,
    label: &[u8],
) -> usize
    requires { at + line_room + length label.now ≤ length out.old }
    ensures { Laid out.old at (message_line clock due part label.now) out.new result }
{
    let at = put_figure(out, at, clock);
    let at = put_figure(out, at, due);
    let at = put_figure(out, at, part);
    let labelled = put_bytes(out, at, label);
    put_byte(out, labelled, NEWLINE)
}

// "`no N` for a refused call"
pub fn no_line(out: &mut [u8], number: u64) -> usize
    requires { line_room ≤ length out.old }
    ensures { Laid out.old 0 (no_line number) out.new result }
{
    put_word_line(out, 0, b"no ", number)
}

// "`bad L` for line L that it can't read or that comes out of turn"
pub fn bad_line(out: &mut [u8], line: u64) -> usize
    requires { line_room ≤ length out.old }
    ensures { Laid out.old 0 (bad_line line) out.new result }
{
    put_word_line(out, 0, b"bad ", line)
}

// "last `end K sent S`"
pub fn end_line(out: &mut [u8], clock: u64, total: u64) -> usize
    requires { line_room ≤ length out.old }
    ensures { Laid out.old 0 (end_line clock total) out.new result }
{
    put_words_line(out, b"end ", clock, b" sent ", total)
}
