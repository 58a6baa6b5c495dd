// The lines of the text form, each laid behind the first `at` bytes of `out`, which stay. Each function answers where the next begins.
// A place beside the bytes, as in ascii's laying. Room and a delay's limit are asked for by clauses: a type around either would be built at each call, and taken apart again in it.
ghost use Rattle.std.specs.Prelude.{◌+◌, ◌≤◌, length};
ghost use Rattle.ascii.specs.Laying.{Laid};
ghost use Rattle.contents.specs.Limits.{longest};
ghost use Rattle.text.specs.Written.{synchrony_word, error_word, indent};
ghost use Rattle.writer.specs.Phrases.{numbered, delayed, noted, message_line, event_line, part_text, send_line, group_words, group_line, close_line};

use crate::fractions::put_beats;
use crate::quoting::put_quoted;
use ascii::{NEWLINE, SPACE, put_byte, put_bytes, put_decimal, put_spaces};
use page::Item;

// "items with two blanks more for each depth, from four"
fn put_indent(out: &mut [u8], at: usize, depth: usize) -> usize
    requires { at + length (indent depth) ≤ length out.old }
    ensures { Laid out.old at (indent depth) out.new result }
{
    put_spaces(out, at, 4 + 2 * depth)
}

// A word and a number.
fn put_numbered(out: &mut [u8], at: usize, word: &[u8], n: u64) -> usize
    requires { at + length (numbered word.now n) ≤ length out.old }
    ensures { Laid out.old at (numbered word.now n) out.new result }
{
    let next = put_bytes(out, at, word);
    put_decimal(out, next, n)
}

fn put_delayed(out: &mut [u8], at: usize, depth: usize, delay: u64) -> usize
    requires { (delay ≤ longest) × (at + length (delayed depth delay) ≤ length out.old) }
    ensures { Laid out.old at (delayed depth delay) out.new result }
{
    let next = put_indent(out, at, depth);
    put_beats(out, next, delay)
}

// ` # `, the bytes, and the line's end.
fn put_noted(out: &mut [u8], at: usize, bytes: &[u8]) -> usize
    requires { at + length (noted bytes.now) ≤ length out.old }
    ensures { Laid out.old at (noted bytes.now) out.new result }
{
    let a = put_bytes(out, at, b" # ");
    let b = put_bytes(out, a, bytes);
    put_byte(out, b, NEWLINE)
}

// The two words of a group by their numbers, as page's `Item` holds them and the definitions `synchrony_word` and `error_word` read them.
fn put_synchrony(out: &mut [u8], at: usize, synchrony: usize) -> usize
    requires { at + length (synchrony_word synchrony) ≤ length out.old }
    ensures { Laid out.old at (synchrony_word synchrony) out.new result }
{
    match synchrony {
        0 => put_bytes(out, at, b"loose"),
        _ => put_bytes(out, at, b"tight"),
    }
}

fn put_error(out: &mut [u8], at: usize, error: usize) -> usize
    requires { at + length (error_word error) ≤ length out.old }
    ensures { Laid out.old at (error_word error) out.new result }
{
    match error {
        0 => put_bytes(out, at, b"local"),
        1 => put_bytes(out, at, b"global"),
        2 => put_bytes(out, at, b"partial"),
        _ => put_bytes(out, at, b"causal"),
    }
}

fn put_group_words(out: &mut [u8], at: usize, synchrony: usize, error: usize) -> usize
    requires { at + length (group_words synchrony error) ≤ length out.old }
    ensures { Laid out.old at (group_words synchrony error) out.new result }
{
    let a = put_bytes(out, at, b" group ");
    let b = put_synchrony(out, a, synchrony);
    let c = put_byte(out, b, SPACE);
    let d = put_error(out, c, error);
    put_bytes(out, d, b" {\n")
}

pub fn put_message(out: &mut [u8], at: usize, number: u64, label: &[u8]) -> usize
    requires { at + length (message_line number label.now) ≤ length out.old }
    ensures { Laid out.old at (message_line number label.now) out.new result }
{
    let a = put_numbered(out, at, b"  ", number);
    let b = put_byte(out, a, SPACE);
    let c = put_quoted(out, b, label);
    put_byte(out, c, NEWLINE)
}

pub fn put_event(out: &mut [u8], at: usize, grains: u64, number: u64) -> usize
    requires { (grains ≤ longest) × (at + length (event_line grains number) ≤ length out.old) }
    ensures { Laid out.old at (event_line grains number) out.new result }
{
    let a = put_bytes(out, at, b"event ");
    let b = put_beats(out, a, grains);
    let c = put_numbered(out, b, b" # ", number);
    put_byte(out, c, NEWLINE)
}

pub fn put_part(out: &mut [u8], at: usize, part: u64) -> usize
    requires { at + length (part_text part) ≤ length out.old }
    ensures { Laid out.old at (part_text part) out.new result }
{
    let next = put_numbered(out, at, b"  part ", part);
    put_byte(out, next, NEWLINE)
}

pub fn put_send(
    out: &mut [u8],
    at: usize,
    depth: usize,
    delay: u64,
    number: u64,
    label: &[u8],
) -> usize
    requires { (delay ≤ longest) × (at + length (send_line depth delay number label.now) ≤ length out.old) }
    ensures { Laid out.old at (send_line depth delay number label.now) out.new result }
{
    let a = put_delayed(out, at, depth, delay);
    let b = put_numbered(out, a, b" send ", number);
    put_noted(out, b, label)
}

pub fn put_group(out: &mut [u8], at: usize, depth: usize, item: Item) -> usize
    requires { (item.delay.0 ≤ longest) × (at + length (group_line depth item.delay.0 item.synchrony item.error) ≤ length out.old) }
    ensures { Laid out.old at (group_line depth item.delay.0 item.synchrony item.error) out.new result }
{
    let next = put_delayed(out, at, depth, item.delay.0);
    put_group_words(out, next, item.synchrony, item.error)
}

pub fn put_close(out: &mut [u8], at: usize, depth: usize) -> usize
    requires { at + length (close_line depth) ≤ length out.old }
    ensures { Laid out.old at (close_line depth) out.new result }
{
    let next = put_indent(out, at, depth);
    put_bytes(out, next, b"}\n")
}
