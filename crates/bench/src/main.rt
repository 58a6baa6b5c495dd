// Calls on the largest score, named by a word of four letters. Every run reads, looks for its word and prints two figures,
// so a run of a call, less a run of what it starts with, has the call's own instructions.
#![tactic(auto)]

ghost use Rattle.std.specs.Prelude.{◌≤◌, length};

use sequencer::Figures;
use session::Refusal;
use session::layout::{MEMORY_SIZE, ROOM_SIZE};
use std::fs::File;
use std::os::fd::AsRawFd;
use std::rt::{Env, HostRuntime};
use text::TextError;
use writer::TEXT_ROOM;

const OUT: i32 = 1;

const FILE_ROOM: usize = 52256;

// All sixteen parts, and the fastest tempo.
const ALL: u16 = 65535;

const FAST: u64 = 50400;

// A reply's number, and the figure that is printed beside it.
#[derive(Clone, Copy)]
struct Told {
    number: usize,
    figure: u64,
}

// What a run tells that makes no call.
const NOTHING: Told = Told {
    number: 0,
    figure: 0,
};

fn tell_check(v: Result<(), contents::Fault>) -> Told {
    let r = contents::replied(v);
    Told {
        number: r.number,
        figure: r.place as u64,
    }
}

fn tell_sent(s: Result<usize, Refusal>) -> Told {
    let r = sequencer::sending_reply(s);
    Told {
        number: r.number,
        figure: r.count as u64,
    }
}

fn tell_report(x: Result<Figures, Refusal>) -> Told {
    let r = sequencer::report_reply(x);
    Told {
        number: r.number,
        figure: r.figures.total,
    }
}

fn open_score(mem: &mut [u64], file: &[u8]) -> Told {
    let r = opening::opening_reply(opening::open_session(mem, file, ALL, FAST, 0));
    Told {
        number: r.number,
        figure: r.parts as u64,
    }
}

// Every event from the first to the last, at clock 0.
fn hear_all(mem: &mut [u64], room: &mut [u64]) -> Told {
    for event in 1..256 {
        let _ = sequencer::hear(mem, room, event, FAST);
    }
    tell_sent(sequencer::hear(mem, room, 256, FAST))
}

// The calls of a session that was opened just before.
fn run_session(word: &[u8], mem: &mut [u64], room: &mut [u64], opened: Told) -> Told {
    match word {
        b"tell" => tell_report(sequencer::read_report(mem)),
        b"pass" => tell_sent(sequencer::pass(mem, room, 1)),
        b"note" => tell_sent(sequencer::hear(mem, room, 1, FAST)),
        b"last" => tell_sent(sequencer::hear(mem, room, 256, FAST)),
        b"each" => hear_all(mem, room),
        b"full" => {
            hear_all(mem, room);
            tell_sent(sequencer::pass(mem, room, 1000))
        }
        _ => opened,
    }
}

fn tell_transcript(t: Result<usize, TextError>) -> Told {
    let r = text::replied_text(t);
    Told {
        number: r.number,
        figure: r.size as u64 % 65536,
    }
}

// The text of the score, read again.
fn read_again(written: &[u8], size: usize) -> Told {
    let mut room = [0u8; FILE_ROOM];
    match written.get(..size) {
        Some(text) => tell_transcript(reader::read_text(text, &mut room)),
        None => NOTHING,
    }
}

// The score written as text, and, for another word, that text read.
fn run_text(word: &[u8], file: &[u8]) -> Told {
    let mut written = [0u8; TEXT_ROOM];
    let t = writer::write_text(file, &mut written);
    if let b"page" = word {
        return tell_transcript(t);
    }
    read_again(&written, text::replied_text(t).size)
}

// The extended score with the largest result: read, unfolded, and, for another word, the unfolded file checked.
fn run_unfolding(rt: &HostRuntime, word: &[u8]) -> Told {
    let mut extended = [0u8; 65536];
    let size = read_file(rt, "folded.bin", &mut extended);
    if let b"seen" = word {
        return NOTHING;
    }
    let mut room = [0u8; FILE_ROOM];
    let r = unfolding::replied_unfolding(unfolder::unfold(&extended[..size], &mut room));
    if let b"fold" = word {
        return Told {
            number: r.number,
            figure: r.size as u64 % 65536,
        };
    }
    check_made(&room, r.size)
}

fn check_made(room: &[u8], size: usize) -> Told {
    match room.get(..size) {
        Some(file) => tell_check(score::check_file(file)),
        None => NOTHING,
    }
}

fn run(rt: &HostRuntime, word: &[u8], file: &[u8], mem: &mut [u64], room: &mut [u64]) -> Told {
    match word {
        b"none" => NOTHING,
        b"file" => tell_check(score::check_file(file)),
        b"text" => tell_check(score::label_reply(file, 511)),
        b"page" | b"read" => run_text(word, file),
        b"seen" | b"fold" | b"made" => run_unfolding(rt, word),
        _ => {
            let opened = open_score(mem, file);
            run_session(word, mem, room, opened)
        }
    }
}

// The figure has four digits, base 16, so that printing it costs the same in every run.
fn print(told: Told) {
    io::print_decimal(OUT, told.number as u64);
    io::write_all(OUT, b" ");
    io::print_hex(OUT, told.figure, 4);
    io::write_all(OUT, b"\n");
}

// The bytes of a file, of which there are none where it can't be opened.
fn read_file(rt: &HostRuntime, name: &str, buf: &mut [u8]) -> usize
    ensures { result ≤ length buf.new }
{
    match File::open(rt, name) {
        Ok(file) => io::read_full(file.as_raw_fd(), buf),
        Err(_) => 0,
    }
}

fn main(rt: HostRuntime) {
    let mut word = [0u8; 4];
    let mut file = [0u8; 65536];
    let mut mem = [0u64; MEMORY_SIZE];
    let mut room = [0u64; ROOM_SIZE];
    let _ = rt.arg(1, &mut word);
    let size = read_file(&rt, "largest.bin", &mut file);
    print(run(&rt, &word, &file[..size], &mut mem, &mut room));
}
