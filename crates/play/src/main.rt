// `play`: reads score.bin and commands, and prints what the electronics are sent. It moves bytes between the system and the proved libraries.
#![tactic(auto)]

use playing::OUTPUT_ROOM;
use session::layout::{MEMORY_SIZE, ROOM_SIZE};
use std::rt::HostRuntime;
use streams::Ending;

// More than any score has, so that a longer file is refused for its length.
const FILE_ROOM: usize = 65536;

// "`play` opens with grace 0."
const NO_GRACE: u64 = 0;

// The error number of a file that is missing.
const NO_ENTRY: i32 = 2;

// Room for the line of a score file that can't be read.
const LINE_ROOM: usize = 64;

// A score file that can't be read is played as an empty one, and people are told why. Answers whether that is a failure: a missing one is none.
fn tell_unread(rt: &HostRuntime, error: i32) -> bool {
    if error == NO_ENTRY {
        streams::say(rt, b"score.bin: missing, read as an empty file\n");
        return false;
    }
    let mut text = [0u8; LINE_ROOM];
    let n = reasons::unread_line(&mut text, b"score.bin", error);
    streams::say_first(rt, &text, n);
    true
}

fn main(rt: HostRuntime) {
    let mut file = [0u8; FILE_ROOM];
    let mut mem = [0u64; MEMORY_SIZE];
    let mut room = [0u64; ROOM_SIZE];
    let mut out = [0u8; OUTPUT_ROOM];
    let read = disk::read_file(&rt, b"score.bin", &mut file);
    let mut input = rt.stdin();
    // The score is played either way: the flag is how the program ends, not whether there is a size.
    let (size, failed) = match read {
        Ok(size) => (size, false),
        Err(error) => (0, tell_unread(&rt, error)),
    };
    let ending = performance::perform(
        &rt,
        &file[..size],
        b"score.bin",
        b"line 1",
        b"standard input",
        NO_GRACE,
        &mut input,
        &mut mem,
        &mut room,
        &mut out,
    );
    if failed {
        return streams::tell_ending(Ending::Failed);
    }
    streams::tell_ending(ending);
}
