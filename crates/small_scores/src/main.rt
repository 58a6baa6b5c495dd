// The small scores of data/scores, laid out as words and run through the evaluators: a line for each, with its triples. The file `stdout` says what is right,
// worked by hand from documents 01 and 02. A word of data/scores that can't be read is printed, and no `stdout` has it.
#![tactic(auto)]

ghost use Rattle.std.specs.Prelude.{◌≤◌, ◌<◌, length};

use fates::{Places, words};
use page::Item;
use std::fs::File;
use std::os::fd::AsRawFd;
use std::rt::HostRuntime;
use units::Grains;

const OUT: i32 = 1;

// The words of a score: event k's start and what has become of it, at place k; the item at a page place, its outcome, and the outcome that was told last; how
// many events and items it has, at most 16 of each; and its grace.
const STARTS: usize = 0;

const TAKEN: usize = 257;

const ITEMS: usize = 514;

const OUTCOMES: usize = 530;

const TOLD: usize = 546;

const EVENTS: usize = 562;

const SIZE: usize = 563;

const GRACE: usize = 564;

type Score = [u64; 565];

// What is read next: a line's first word, or what it said; of an item each field, behind the fields before it.
#[derive(Clone, Copy)]
enum Next {
    First,
    Synchrony,
    Error(u64),
    Part(u64),
    Delay(u64),
    Event(u64),
    Last(u64),
    Duration,
    Heard,
    Name,
    Comment,
    Grace,
}

// "a grace g, 0 to 630 grains"
const MOST_GRACE: u64 = 630;

// The letter of an action's message: message 0 is a.
fn letter(w: u64) -> u8 {
    b'a' + (words::item_in(w).last % 26) as u8
}

fn print_triple(k: usize, delay: u64, w: u64) {
    io::write_all(OUT, b" (");
    io::print_decimal(OUT, k as u64);
    io::write_all(OUT, b", ");
    io::print_decimal(OUT, delay);
    io::write_all(OUT, &[b',', b' ', letter(w), b')']);
}

fn print_open(w: u64) {
    io::write_all(OUT, &[b' ', letter(w)]);
    io::write_all(OUT, b" not yet");
}

// The action at a page place, if event k newly plays it; for 0, if it is still open.
fn tell(score: &mut Score, p: usize, k: usize)
    requires { p < 16 }
{
    let w = score[ITEMS + p];
    let old = score[TOLD + p];
    let new = score[OUTCOMES + p];
    score[TOLD + p] = new;
    if k == 0 && new == 0 {
        return print_open(w);
    }
    if old != new && 2 <= new {
        print_triple(k, new - 2, w);
    }
}

fn tell_all(score: &mut Score, size: usize, k: usize)
    requires { size ≤ 16 }
{
    for p in 0..size {
        tell(score, p, k);
    }
}

// Event k settles itself, and every event before it that none has settled.
fn settle(score: &mut Score, k: usize)
    requires { k ≤ 16 }
{
    for i in 0..k + 1 {
        if score[TAKEN + i] == 0 {
            score[TAKEN + i] = k as u64;
        }
    }
}

// Event k is heard, if there is one, after those heard before.
fn hear(score: &mut Score, k: usize) -> Option<Next> {
    let events = score[EVENTS] as usize % 17;
    let size = score[SIZE] as usize % 17;
    if k == 0 || events < k || score[TAKEN + k] != 0 {
        return None;
    }
    let t = Places {
        starts: STARTS,
        taken: TAKEN,
        items: ITEMS,
        outcomes: OUTCOMES,
        events,
        size,
        grace: Grains(score[GRACE] % (MOST_GRACE + 1)),
    };
    settle(score, k);
    evaluators::perform(score, t);
    tell_all(score, size, k);
    Some(Next::Heard)
}

// One more event. Where it ends, the next would begin.
fn add_event(score: &mut Score, duration: u64) -> Option<Next> {
    let k = score[EVENTS] as usize;
    if 16 <= k {
        return None;
    }
    score[EVENTS] = k as u64 + 1;
    score[k + 2] = score[k + 1] % 1000000000 + duration % 1000000;
    Some(Next::Duration)
}

// The grace, from here on.
fn set_grace(score: &mut Score, grace: u64) -> Next {
    score[GRACE] = grace;
    Next::First
}

// The item whose fields were joined.
fn item_word(fields: u64) -> u64 {
    let front = fields / 10000000000;
    words::item_word(Item {
        kind: (front / 128 % 2) as usize,
        synchrony: (front / 64 % 2) as usize,
        error: (front / 16 % 4) as usize,
        part: (front % 16) as usize,
        delay: Grains(fields / 10000 % 1000000),
        event: (fields / 100 % 100) as usize,
        last: (fields % 100) as usize,
    })
}

// One more item. Nothing comes of a group itself, so that its outcome is 1.
fn add_item(score: &mut Score, fields: u64) -> Option<Next> {
    let p = score[SIZE] as usize;
    if 16 <= p {
        return None;
    }
    let w = item_word(fields);
    score[ITEMS + p] = w;
    score[OUTCOMES + p] = words::item_in(w).kind as u64;
    score[SIZE] = p as u64 + 1;
    Some(Next::First)
}

// A number below a bound.
fn below(bound: u64, number: Option<u64>) -> Option<u64> {
    number.filter(|x| *x < bound)
}

// Where a word's first letter stands in a row of letters.
fn find(letters: &[u8], first: u8) -> Option<u64> {
    let place = letters.iter().position(|b| *b == first)?;
    Some(place as u64)
}

// How many items a group holds, or the letter of an action's message.
fn last(first: u8, number: Option<u64>) -> Option<u64> {
    match number {
        Some(_) => below(100, number),
        None => find(b"abcde", first),
    }
}

// The fields before, and one more: kind with synchrony and the error word are below 4, the part below 16, a delay has six digits, event and last have two.
fn joined(before: u64, bound: u64, x: u64) -> u64
    requires { (0 < bound) × (bound ≤ 1000000) }
    ensures { result < 1000000000000000000 }
{
    bound * (before % 100000000000) + x % bound
}

// What is still open of the score before, if there is one, and then a new score.
fn begin_score(score: &mut Score, name: &[u8]) -> Next {
    let size = score[SIZE] as usize % 17;
    if score[EVENTS] != 0 || size != 0 {
        tell_all(score, size, 0);
        io::write_all(OUT, b"\n");
    }
    *score = [0; 565];
    io::write_all(OUT, name);
    Next::First
}

// A line's first word says what is read next, by its letter. An action has no words: its line goes on with the part.
fn first_word(first: u8) -> Option<Next> {
    match first {
        b'g' => Some(Next::Synchrony),
        b'a' => Some(Next::Part(0)),
        b'e' => Some(Next::Duration),
        b'h' => Some(Next::Heard),
        b's' => Some(Next::Name),
        b'#' => Some(Next::Comment),
        b'p' => Some(Next::Grace),
        _ => None,
    }
}

// What is read behind a word; nothing if it can't be read. The first field is 2 for a loose group and 3 for a tight one.
fn read_word(
    score: &mut Score,
    next: Next,
    word: &[u8],
    first: u8,
    number: Option<u64>,
) -> Option<Next> {
    match next {
        Next::First => first_word(first),
        Next::Synchrony => Some(Next::Error(find(b"  lt", first)?)),
        Next::Error(before) => Some(Next::Part(joined(before, 4, find(b"lgpc", first)?))),
        Next::Part(before) => Some(Next::Delay(joined(before, 16, below(16, number)?))),
        Next::Delay(before) => Some(Next::Event(joined(before, 1000000, number?))),
        Next::Event(before) => Some(Next::Last(joined(before, 100, below(17, number)?))),
        Next::Last(before) => add_item(score, joined(before, 100, last(first, number)?)),
        Next::Duration => add_event(score, number?),
        Next::Heard => hear(score, below(17, number)? as usize),
        Next::Name => Some(begin_score(score, word)),
        Next::Comment => Some(next),
        Next::Grace => Some(set_grace(score, below(MOST_GRACE + 1, number)?)),
    }
}

// The word from one byte to another, if there is one. Behind one that can't be read comes a line's first word.
fn end_word(
    score: &mut Score,
    next: Option<Next>,
    file: &[u8],
    from: usize,
    to: usize,
    number: Option<u64>,
) -> Option<Next>
    requires { to < length file.now }
{
    if to <= from {
        return next;
    }
    let word = &file[from..to];
    let after = read_word(score, next.unwrap_or(Next::First), word, file[from], number);
    if after.is_none() {
        io::write_all(OUT, b" unreadable: ");
        io::write_all(OUT, word);
    }
    after
}

// The number with one more digit, of at most six.
fn longer(number: Option<u64>, b: u8) -> Option<u64> {
    let digit = find(b"0123456789", b)?;
    let before = number?;
    if 99999 < before {
        return None;
    }
    Some(10 * before + digit % 10)
}

// What is read in a line behind this one: an item goes on, and so does what can't be read.
fn next_line(next: Option<Next>) -> Option<Next> {
    match next {
        Some(Next::Duration | Next::Heard | Next::Name | Next::Comment | Next::Grace) => {
            Some(Next::First)
        }
        _ => next,
    }
}

// Every word of the file. An item that a line leaves unfinished meets the next line's first word.
fn read_scores(score: &mut Score, file: &[u8]) {
    let mut next = Some(Next::First);
    let mut from = 0;
    let mut number = Some(0);
    for (i, &b) in file.iter().enumerate() {
        if b == b' ' || b == b'\n' {
            next = end_word(score, next, file, from, i, number);
            from = i + 1;
            number = Some(0);
        } else {
            number = longer(number, b);
        }
        if b == b'\n' {
            next = next_line(next);
        }
    }
    match next {
        Some(Next::First) if from == file.len() => {}
        _ => {
            io::write_all(OUT, b" unfinished");
        }
    }
    begin_score(score, b"");
}

// The bytes of the file, of which there are none where it can't be opened.
fn read_scores_file(rt: &HostRuntime, file: &mut [u8]) -> usize
    ensures { result ≤ length file.new }
{
    match File::open(rt, "scores") {
        Ok(scores) => io::read_full(scores.as_raw_fd(), file),
        Err(_) => 0,
    }
}

fn main(rt: HostRuntime) {
    let mut file = io::large_buffer();
    let mut score = [0u64; 565];
    let n = read_scores_file(&rt, &mut file);
    read_scores(&mut score, &file[..n]);
}
