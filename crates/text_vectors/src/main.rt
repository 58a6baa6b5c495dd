// Runs the cases of texts.bin through the three calls of the text form. Of a text to be read and of a file to be written: a line with number, place, line, column and size of the reply, then, where it was granted,
// the bytes in the room and a newline. Of a text that is asked for a place: number and place of the reply, line and column of what is refused, and line and column of what made the byte at the place that is asked.
// A case is a byte, 0 for a text to be read, 1 for a file to be written and 2 for a text that is asked, the room's length or the place, the input's length, each a u32, and the input. The second program makes the cases and says what is right.
#![tactic(auto)]

ghost use Rattle.std.specs.Prelude.{◌≡◌, true, ◌≤◌, length};

use std::fs::File;
use std::os::fd::AsRawFd;
use std::rt::HostRuntime;
use text::TextReply;
use tokens::Place;

const OUT: i32 = 1;

// Room for the longest input, and for the longest text.
const INPUT_ROOM: usize = 655360;

const TEXT_ROOM: usize = 262144;

// The kinds of a case but the first.
const WRITTEN: u8 = 1;

const ASKED: u8 = 2;

// The u32 in four bytes, little-endian.
fn number(head: &[u8; 9], at: usize) -> usize
    requires { at ≤ 5 }
{
    u32::from_le_bytes([head[at], head[at + 1], head[at + 2], head[at + 3]]) as usize
}

fn print_figure(n: usize, end: &[u8]) {
    io::print_decimal(OUT, n as u64);
    io::write_all(OUT, end);
}

fn print_reply(r: TextReply, room: &[u8]) {
    print_figure(r.number, b" ");
    print_figure(r.place, b" ");
    print_figure(r.line, b" ");
    print_figure(r.column, b" ");
    print_figure(r.size, b"\n");
    if r.number != 0 {
        return;
    }
    if room.len() < r.size {
        return;
    }
    io::write_all(OUT, &room[..r.size]);
    io::write_all(OUT, b"\n");
}

// Where a text is refused: its own fault, or what made the byte that the file check names.
fn refused_at(text: &[u8], r: TextReply) -> Place {
    if r.number == 16 {
        return Place {
            line: r.line,
            column: r.column,
        };
    }
    if r.number == 0 {
        return Place { line: 0, column: 0 };
    }
    origins::place_in_text(text, r.place)
}

// What is told of a text, and of the byte at this place of the file that it makes.
fn run_place(text: &[u8], place: usize, room: &mut [u8]) {
    let r = text::replied_text(reader::read_text(text, room));
    let refused = refused_at(text, r);
    let asked = origins::place_in_text(text, place);
    print_figure(r.number, b" ");
    print_figure(r.place, b" ");
    print_figure(refused.line, b" ");
    print_figure(refused.column, b" ");
    print_figure(asked.line, b" ");
    print_figure(asked.column, b"\n");
}

// Fills the first size bytes of buf: false where it has fewer, or where the input ends before.
fn read_part(fd: i32, buf: &mut [u8], size: usize) -> bool
    ensures { result ≡ true → size ≤ length buf.new }
{
    if buf.len() < size {
        return false;
    }
    io::read_full(fd, &mut buf[..size]) == size
}

fn run_part(kind: u8, input: &[u8], room: &mut [u8], length: usize) {
    if kind == ASKED {
        run_place(input, length, room);
        return;
    }
    if room.len() < length {
        return;
    }
    let room = &mut room[..length];
    let t = match kind {
        WRITTEN => writer::write_text(input, room),
        _ => reader::read_text(input, room),
    };
    print_reply(text::replied_text(t), room);
}

// One case from the file: false at its end, or where a case is cut off or longer than there is room for.
fn run_next(fd: i32, input: &mut [u8], room: &mut [u8]) -> bool {
    let mut head = [0u8; 9];
    if !read_part(fd, &mut head, 9) {
        return false;
    }
    let length = number(&head, 1);
    let size = number(&head, 5);
    let kind = head[0];
    if !read_part(fd, input, size) {
        return false;
    }
    run_part(kind, &input[..size], room, length);
    true
}

// All of them.
fn run_cases(rt: &HostRuntime, input: &mut [u8], room: &mut [u8]) {
    let Ok(file) = File::open(rt, "texts.bin") else {
        return;
    };
    let fd = file.as_raw_fd();
    for _ in 0..1000000 {
        if !run_next(fd, input, room) {
            return;
        }
    }
}

fn main(rt: HostRuntime) {
    let mut input = [0u8; INPUT_ROOM];
    let mut room = [0u8; TEXT_ROOM];
    run_cases(&rt, &mut input, &mut room);
}
