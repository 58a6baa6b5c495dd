// The numbers of a command, each behind a space. A number is a term, or a sum or difference of two, modulo 2^64; a term is written in digits or by its name in the
// session's layout, and is 0 where nothing is written, so that -1 is all ones. What can't be read is printed: no line of `stdout` is like that.
ghost use Rattle.std.specs.Prelude.{◌<◌, ◌≤◌, length};

use crate::text;
use session::layout;

pub type Numbers = [u64; 8];

// The first place of a byte from one place on and before another, or that other.
pub fn find(a: &[u8], from: usize, to: usize, byte: u8) -> usize
    requires { (from ≤ to) × (to ≤ length a.now) }
    ensures { (from ≤ result) × (result ≤ to) }
{
    for i in from..to {
        if a[i] == byte {
            return i;
        }
    }
    to
}

// A number with one digit more.
fn longer(value: u64, byte: u8) -> u64 {
    let digit = u64::from(byte).wrapping_sub(48);
    if 9 < digit {
        text(b"not a digit\n");
        return 0;
    }
    if 1844674407370955160 < value {
        text(b"too many digits\n");
        return 0;
    }
    value * 10 + digit
}

fn digits(word: &[u8]) -> u64 {
    let mut value = 0;
    for &byte in word {
        value = longer(value, byte);
    }
    value
}

fn term(word: &[u8]) -> u64 {
    match word {
        b"MARK" => layout::MARK,
        b"MARK_AT" => layout::MARK_AT as u64,
        b"EVENT_COUNT_AT" => layout::EVENT_COUNT_AT as u64,
        b"ITEM_COUNT_AT" => layout::ITEM_COUNT_AT as u64,
        b"PARTS_AT" => layout::PARTS_AT as u64,
        b"GRACE_AT" => layout::GRACE_AT as u64,
        b"STARTS_AT" => layout::STARTS_AT as u64,
        b"PAGE_AT" => layout::PAGE_AT as u64,
        b"CLOCK_AT" => layout::CLOCK_AT as u64,
        b"TEMPO_AT" => layout::TEMPO_AT as u64,
        b"LAST_AT" => layout::LAST_AT as u64,
        b"TOTAL_AT" => layout::TOTAL_AT as u64,
        b"SLOTS_AT" => layout::SLOTS_AT as u64,
        b"OUTCOMES_AT" => layout::OUTCOMES_AT as u64,
        b"MEMORY_SIZE" => layout::MEMORY_SIZE as u64,
        b"ROOM_SIZE" => layout::ROOM_SIZE as u64,
        _ => digits(word),
    }
}

fn number(word: &[u8]) -> u64 {
    let from = 0;
    let size = word.len();
    if size == 0 {
        text(b"no number\n");
    }
    let at = find(word, from, find(word, from, size, b'+'), b'-');
    let a = term(&word[from..at]);
    if size <= at {
        return a;
    }
    let next = at + 1;
    let b = term(&word[next..size]);
    if word[at] == b'-' {
        return a.wrapping_sub(b);
    }
    a.wrapping_add(b)
}

// The numbers behind a place, and how many there are; seven stands for more.
pub fn read(line: &[u8], at: usize, n: &mut Numbers) -> usize
    ensures { result ≤ 7 }
{
    let mut from = at;
    let mut count = 0;
    // Where the next number begins, `find` answers.
    while from < line.len() {
        let next = from + 1;
        let end = find(line, next, line.len(), b' ');
        if count < 7 {
            n[count] = number(&line[next..end]);
            count += 1;
        }
        from = end;
    }
    count
}
