// Runs the cases of extended.bin through `unfold`: for each a line with number, place and size of the reply, then, where it was granted, the bytes in the room and a newline.
// A case is the room's length and the input's length, each a u32, and the input. The second program makes the cases and says what is right.
#![tactic(auto)]

ghost use Rattle.std.specs.Prelude.{◌≡◌, true, ◌≤◌, length};

use std::fs::File;
use std::os::fd::AsRawFd;
use std::rt::HostRuntime;
use unfolding::UnfoldReply;

const OUT: i32 = 1;

// Room for the longest input, and for more than the longest file.
const INPUT_ROOM: usize = 1500000;

const FILE_ROOM: usize = 262144;

// The u32 in four bytes, little-endian.
fn number(head: &[u8; 8], at: usize) -> usize
    requires { at ≤ 4 }
{
    u32::from_le_bytes([head[at], head[at + 1], head[at + 2], head[at + 3]]) as usize
}

fn print_figure(n: usize, end: &[u8]) {
    io::print_decimal(OUT, n as u64);
    io::write_all(OUT, end);
}

fn print_reply(r: UnfoldReply, room: &[u8]) {
    print_figure(r.number, b" ");
    print_figure(r.place, b" ");
    print_figure(r.size, b"\n");
    if r.number != 0 {
        return;
    }
    if room.len() < r.size {
        return;
    }
    io::write_all(OUT, &room[..r.size]);
    io::write_all(OUT, b"\n");
}

fn run_case(input: &[u8], room: &mut [u8]) {
    let u = unfolder::unfold(input, room);
    print_reply(unfolding::replied_unfolding(u), room);
}

// Fills the first size bytes of buf: false where it has fewer, or where the input ends before.
fn read_part(fd: i32, buf: &mut [u8], size: usize) -> bool
    ensures { result ≡ true → size ≤ length buf.new }
{
    if buf.len() < size {
        return false;
    }
    io::read_full(fd, &mut buf[..size]) == size
}

fn run_part(input: &[u8], room: &mut [u8], length: usize) {
    if room.len() < length {
        return;
    }
    run_case(input, &mut room[..length]);
}

// One case from the file: false at its end, or where a case is cut off or longer than there is room for.
fn run_next(fd: i32, input: &mut [u8], room: &mut [u8]) -> bool {
    let mut head = [0u8; 8];
    if !read_part(fd, &mut head, 8) {
        return false;
    }
    let length = number(&head, 0);
    let size = number(&head, 4);
    if !read_part(fd, input, size) {
        return false;
    }
    run_part(&input[..size], room, length);
    true
}

// All of them.
fn run_cases(rt: &HostRuntime, input: &mut [u8], room: &mut [u8]) {
    let Ok(file) = File::open(rt, "extended.bin") else {
        return;
    };
    let fd = file.as_raw_fd();
    for _ in 0..1000000 {
        if !run_next(fd, input, room) {
            return;
        }
    }
}

fn main(rt: HostRuntime) {
    let mut input = [0u8; INPUT_ROOM];
    let mut room = [0u8; FILE_ROOM];
    run_cases(&rt, &mut input, &mut room);
}
