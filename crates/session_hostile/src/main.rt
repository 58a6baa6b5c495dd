// Calls on hostile memory, as the script in the file `stdin` has them; its head says what each command means. The file `stdout` says what is right; it is written by
// hand from documents 01 and 02, and docs/.
#![tactic(auto)]

ghost use Rattle.std.specs.Prelude.{◌<◌, ◌≤◌, length};

use reading::{Numbers, find};
use session::layout::{MEMORY_SIZE, ROOM_SIZE};

mod reading; // reading.rt: the numbers of a command
mod show; // show.rt: the four calls, a line for each

// Eight words more than a session has, and than the most that a call sends, so that what lies behind can be compared too.
type Memory = [u64; MEMORY_SIZE + 8];

type Room = [u64; ROOM_SIZE + 8];

// The case's name, which is a part of the script, and how many words of memory and of room are lent.
#[derive(Clone, Copy)]
struct Case<'a> {
    name: Option<&'a [u8]>,
    words: u64,
    space: u64,
}

fn text(t: &[u8]) {
    io::write_all(1, t);
}

fn put(to: &mut [u64], place: u64, value: u64) {
    let at = place as usize;
    if to.len() <= at {
        return text(b"no such place\n");
    }
    to[at] = value;
}

// So many words from a place on, each by a step more than the one before, modulo 2^64.
fn row(to: &mut [u64], from: u64, first: u64, count: u64, step: u64) {
    let mut place = from;
    let mut value = first;
    for _ in 0..count {
        put(to, place, value);
        place = place.wrapping_add(1);
        value = value.wrapping_add(step);
    }
}

// The send room before a call: no message's words.
fn clear(room: &mut Room) {
    row(room, 0, 7, ROOM_SIZE as u64 + 8, 0);
}

// All words of memory alike, but the last eight, which no call may change.
fn blank(mem: &mut Memory, room: &mut Room, value: u64) {
    row(mem, 0, value, MEMORY_SIZE as u64, 0);
    row(mem, MEMORY_SIZE as u64, 1000, 8, 0);
    clear(room);
}

// P2's file: events of 2, 1 and 1 beats, and under event 1 a tight group that holds a after 1 beat and b 1.5 beats later. It has 90 bytes; the bytes behind it are for
// a file that is too long.
fn p2() -> [u8; 96] {
    *b"\x20\0\0\0\x03\0\0\0\x2c\0\0\0\x03\0\0\0\x50\0\0\0\x02\0\0\0\x58\0\0\0\x02\0\0\0\x60\x27\0\0\xb0\x13\0\0\xb0\x13\0\0\x01\x01\0\0\0\0\0\0\x01\0\x02\0\0\0\0\0\xb0\x13\0\0\0\0\0\0\0\0\0\0\x88\x1d\0\0\0\0\x01\0\0\0\x01\0\x01\0\x01\0ab\0\0\0\0\0\0"
}

// The opening is granted, and so are the calls of `running`: what they answer is no matter here, only what they leave.
fn opened(mem: &mut Memory, room: &mut Room) {
    blank(mem, room, 0);
    let file = p2();
    let from = 0;
    let size = 90;
    let _ = opening::open_session(mem, &file[from..size], 1, 5040, 0);
}

fn running(mem: &mut Memory, room: &mut Room) {
    opened(mem, room);
    let _ = sequencer::hear(mem, room, 1, 5040);
    let _ = sequencer::pass(mem, room, 1000);
    let _ = sequencer::hear(mem, room, 2, 10080);
    clear(room);
}

// A number of the script that may be no more than all there are; one that is more is printed, and no line of `stdout` is like that.
fn least(n: u64, all: usize) -> usize
    ensures { result ≤ all }
{
    let chosen = n as usize;
    if all < chosen {
        text(b"more than there are\n");
        return all;
    }
    chosen
}

// A call that has so many numbers, on the words that are lent.
fn call(
    c: Case,
    word: &[u8],
    count: usize,
    n: &Numbers,
    was: &Memory,
    mem: &mut [u64],
    had: &Room,
    room: &mut [u64],
) {
    let words = least(c.words, mem.len());
    let space = least(c.space, room.len());
    let m = &mut mem[..words];
    let r = &mut room[..space];
    match (word, count) {
        (b"open", 3 | 6) => show::open(was, m, n),
        (b"hear", 2) => show::hear(was, m, had, r, n),
        (b"pass", 1) => show::pass(was, m, had, r, n),
        (b"report", 0) => show::report(was, m),
        (b"words", 0) => show::words(m),
        _ => text(b"no such command\n"),
    }
}

fn shown(c: Case, word: &[u8], count: usize, n: &Numbers, mem: &mut Memory, room: &mut Room) {
    let was = *mem;
    let had = *room;
    call(c, word, count, n, &was, mem, &had, room);
}

// A command that sets words, and has so many numbers.
fn stage(word: &[u8], count: usize, n: &Numbers, mem: &mut Memory, room: &mut Room) {
    match (word, count) {
        (b"put", 2) => put(mem, n[0], n[1]),
        (b"put", 4) => row(mem, n[0], n[1], n[2], n[3]),
        (b"clear", 0) => clear(room),
        (b"blank", 1) => blank(mem, room, n[0]),
        (b"opened", 0) => opened(mem, room),
        (b"running", 0) => running(mem, room),
        _ => text(b"no such command\n"),
    }
}

fn begin(name: Option<&[u8]>, words: u64, space: u64) -> Case {
    Case { name, words, space }
}

// The command of a line. A case begins with all words lent; an opening that says nothing of the file is on P2's 90 bytes.
fn act<'a>(line: &'a [u8], c: Case<'a>, mem: &mut Memory, room: &mut Room) -> Case<'a> {
    let behind = find(line, 0, line.len(), b' ');
    let word = &line[..behind];
    if let b"case" = word {
        return begin(line.get(5..), MEMORY_SIZE as u64 + 8, ROOM_SIZE as u64 + 8);
    }
    let mut n: Numbers = [0, 0, 0, 90, 90, 0, 0, 0];
    let count = reading::read(line, behind, &mut n);
    match word {
        b"lend" if count == 2 => return begin(c.name, n[0], n[1]),
        b"lend" | b"put" | b"clear" | b"blank" | b"opened" | b"running" => {
            stage(word, count, &n, mem, room);
            return c;
        }
        _ => {}
    }
    if let Some(name) = c.name {
        text(name);
        text(b": ");
    }
    show::head(word, &n, count);
    shown(c, word, count, &n, mem, room);
    c
}

// Where the part of the script at a place ends: a comment with its line, a space at once, and a command at a semicolon or with its line.
fn stop(script: &[u8], at: usize) -> usize
    requires { at < length script.now }
    ensures { (at ≤ result) × (result ≤ length script.now) }
{
    let line = find(script, at, script.len(), b'\n');
    if script[at] == b'#' {
        return line;
    }
    if script[at] == b' ' {
        return at;
    }
    find(script, at, line, b';')
}

fn run(script: &[u8], mem: &mut Memory, room: &mut Room)
    requires { length script.now < 32768 }
{
    let mut c = begin(Some(b""), 0, 0);
    let mut at = 0;
    // Where the next part begins, `stop` answers.
    while at < script.len() {
        let end = stop(script, at);
        if at < end && script[at] != b'#' {
            c = act(&script[at..end], c, mem, room);
        }
        at = end + 1;
    }
}

fn main() {
    let mut mem = [0u64; MEMORY_SIZE + 8];
    let mut room = [0u64; ROOM_SIZE + 8];
    let mut script = [0u8; 32768];
    let size = io::read_full(0, &mut script);
    if size == 32768 {
        return text(b"the script is too long\n");
    }
    run(&script[..size], &mut mem, &mut room);
}
