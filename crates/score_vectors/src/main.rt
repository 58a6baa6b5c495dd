// Runs the vectors of data/vectors.bin through the file check and both look-ups, a line for each: name, number and place of the check, number of the look-up,
// and the label's bytes in hexadecimal. The file `stdout` says what is right; it comes from tests/vectors, which shares no code with the crate.
#![tactic(auto)]

ghost use Rattle.std.specs.Prelude.{◌≡◌, true, ◌≤◌, length};

use std::fs::File;
use std::os::fd::AsRawFd;
use std::rt::HostRuntime;

const OUT: i32 = 1;

// The label in hexadecimal, or a dash where there is none.
fn print_label(label: &[u8]) {
    if label.len() == 0 {
        io::write_all(OUT, b"-");
        return;
    }
    for &b in label {
        io::print_hex(OUT, u64::from(b), 2);
    }
}

fn print_vector(name: &[u8], file: &[u8], n: u64) {
    let checked = contents::replied(score::check_file(file));
    let looked = contents::replied(score::label_reply(file, n));
    io::write_all(OUT, name);
    io::write_all(OUT, b" ");
    io::print_decimal(OUT, checked.number as u64);
    io::write_all(OUT, b" ");
    io::print_decimal(OUT, checked.place as u64);
    io::write_all(OUT, b" ");
    io::print_decimal(OUT, looked.number as u64);
    io::write_all(OUT, b" ");
    print_label(score::label(file, n));
    io::write_all(OUT, b"\n");
}

// Fills the first size bytes of buf: false where it has fewer, or where the input ends before.
fn read_part(fd: i32, buf: &mut [u8], size: usize) -> bool
    ensures { result ≡ true → size ≤ length buf.new }
{
    if buf.len() < size {
        return false;
    }
    io::read_full(fd, &mut buf[..size]) == size
}

// The length in four bytes, little-endian: none at the input's end.
fn read_length(fd: i32) -> Option<usize> {
    let mut bytes = [0u8; 4];
    if !read_part(fd, &mut bytes, 4) {
        return None;
    }
    Some(u32::from_le_bytes(bytes) as usize)
}

// One record from the input: none at its end, or where a record is cut off or longer than there is room for.
fn run_vector(fd: i32, name: &mut [u8], file: &mut [u8]) -> Option<()> {
    let long = read_length(fd)?;
    if !read_part(fd, name, long) {
        return None;
    }
    let size = read_length(fd)?;
    let mut n = [0u8; 8];
    if !read_part(fd, &mut n, 8) {
        return None;
    }
    if !read_part(fd, file, size) {
        return None;
    }
    print_vector(&name[..long], &file[..size], u64::from_le_bytes(n));
    Some(())
}

fn main(rt: HostRuntime) {
    let Ok(vectors) = File::open(&rt, "vectors.bin") else {
        return;
    };
    let fd = vectors.as_raw_fd();
    let mut name = [0u8; 64];
    let mut file = [0u8; 65536];
    for _ in 0..100000 {
        if run_vector(fd, &mut name, &mut file).is_none() {
            return;
        }
    }
}
