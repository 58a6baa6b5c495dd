// The four calls, each a line: the call, "->", the reply's number, place and figures, what became of the lent words, and what was sent.
ghost use Rattle.std.specs.Prelude.{◌≤◌};

use crate::reading::Numbers;
use crate::{Memory, Room, least, text};
use sequencer::SendingReply;
use session::layout;

fn number(n: u64) {
    text(b" ");
    io::print_decimal(1, n);
}

// A call, and its numbers: of an opening's the first two. Its grace and its file are for the case's name to say.
pub fn head(word: &[u8], n: &Numbers, count: usize) {
    text(word);
    if 0 < count {
        number(n[0]);
    }
    if 1 < count {
        number(n[1]);
    }
}

fn reply(n: usize, place: usize, figure: u64) {
    text(b" ->");
    number(n as u64);
    number(place as u64);
    number(figure);
}

// Whether a word is not what it was, 0 or 1. One that is to be listed is printed: its place, and what stands there after the call.
fn change(was: &[u64], is: &[u64], at: usize, listed: bool) -> usize
    ensures { result ≤ 1 }
{
    if is.len() <= at {
        return 0;
    }
    if was.len() <= at {
        return 1;
    }
    if was[at] == is[at] {
        return 0;
    }
    if !listed {
        return 1;
    }
    number(at as u64);
    text(b"=");
    io::print_decimal(1, is[at]);
    1
}

// How many words from a place on are not what they were.
fn changes(was: &[u64], is: &[u64], from: usize, listed: bool) -> usize {
    let mut count: usize = 0;
    for at in from..is.len() {
        count += change(was, is, at, listed);
    }
    count
}

// Words after a call, and how many of them changed: the same, changed before a place only, or overrun.
fn kept(was: &[u64], is: &[u64], end: usize) -> usize {
    let count = changes(was, is, 0, false);
    if count == 0 {
        text(b" same");
        return 0;
    }
    if changes(was, is, end, false) == 0 {
        text(b" changed");
        return count;
    }
    text(b" overrun");
    count
}

// The words that changed; of more than twelve, how many.
fn memory(was: &[u64], is: &[u64]) {
    text(b", memory");
    let count = kept(was, is, layout::MEMORY_SIZE);
    if count == 0 {
        return;
    }
    if 12 < count {
        number(count as u64);
        return text(b" words");
    }
    changes(was, is, 0, true);
}

// One of the messages sent: its due date, and part x 65,536 + message number.
fn message(room: &[u64], count: usize, i: usize) {
    if i < count {
        if i < layout::MOST_SENT as usize {
            if 2 * i + 1 < room.len() {
                number(room[2 * i]);
                number(room[2 * i + 1]);
            }
        }
    }
}

// The messages sent; of more than four the first and the last.
fn sent(room: &[u64], count: usize) {
    if count == 0 {
        return;
    }
    text(b", sent");
    message(room, count, 0);
    if 4 < count {
        text(b" ..");
        return message(room, count, count - 1);
    }
    message(room, count, 1);
    message(room, count, 2);
    message(room, count, 3);
}

fn sending(r: SendingReply, was: &[u64], mem: &[u64], had: &[u64], room: &[u64]) {
    reply(r.number, r.place, r.count as u64);
    memory(was, mem);
    text(b", room");
    if r.count <= layout::MOST_SENT as usize {
        kept(had, room, 2 * r.count);
        sent(room, r.count);
    }
    text(b"\n");
}

pub fn hear(was: &Memory, mem: &mut [u64], had: &Room, room: &mut [u64], n: &Numbers) {
    let r = sequencer::sending_reply(sequencer::hear(mem, room, n[0], n[1]));
    sending(r, was, mem, had, room);
}

pub fn pass(was: &Memory, mem: &mut [u64], had: &Room, room: &mut [u64], n: &Numbers) {
    let r = sequencer::sending_reply(sequencer::pass(mem, room, n[0]));
    sending(r, was, mem, had, room);
}

// P2's file with the byte at a place another.
fn spoilt(at: u64, byte: u64) -> [u8; 96] {
    let mut file = crate::p2();
    let i = least(at, 95);
    file[i] = least(byte, 255) as u8;
    file
}

// On so many bytes of that file.
pub fn open(was: &Memory, mem: &mut [u64], n: &Numbers) {
    let file = spoilt(n[4], n[5]);
    let from = 0;
    let end = least(n[3], 96);
    let bits = least(n[0], 65535) as u16;
    let r = opening::opening_reply(opening::open_session(mem, &file[from..end], bits, n[1], n[2]));
    reply(r.number, r.place, r.parts as u64);
    memory(was, mem);
    text(b"\n");
}

pub fn report(was: &Memory, mem: &[u64]) {
    let r = sequencer::report_reply(sequencer::read_report(mem));
    let s = r.figures;
    reply(r.number, r.place, s.clock);
    number(s.tempo);
    number(s.last);
    number(s.total);
    memory(was, mem);
    text(b"\n");
}

// Whether the words are those of a session just opened.
pub fn words(mem: &[u64]) {
    let mut other = [0u64; layout::MEMORY_SIZE + 8];
    let mut room = [0u64; layout::ROOM_SIZE + 8];
    crate::opened(&mut other, &mut room);
    alike(&other, mem);
}

fn alike(other: &Memory, mem: &[u64]) {
    kept(other, mem, 0);
    text(b"\n");
}
