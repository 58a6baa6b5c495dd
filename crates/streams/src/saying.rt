// What people and programs are told: lines on standard output and on standard error.
// A line is lent bytes and how many of them were laid: `print` promises `false` for more than there are, and programs call it so.
ghost use Rattle.std.specs.Prelude.{◌≡◌, false, ◌<◌, length};

use crate::write_whole;
use std::io::{Cursor, Error, Write};
use std::rt::HostRuntime;
use std::str;

// Room for the words of any error of the system, and for its number.
const WORDS_ROOM: usize = 256;

// Writes bytes to standard error. Nothing is to be done where they are not taken.
pub fn say(rt: &HostRuntime, what: &[u8]) {
    let mut errors = rt.stderr();
    let _ = write_whole(rt, &mut errors, what);
}

// The first n bytes of a line to standard error.
pub fn say_first(rt: &HostRuntime, text: &[u8], n: usize) {
    if let Some(line) = text.get(..n) {
        say(rt, line);
    }
}

// The system's own words for an error, among the first n bytes: std puts the number behind them, in brackets.
fn words(text: &[u8], n: usize) -> &[u8] {
    let Some(first) = text.get(..n) else {
        return b"";
    };
    let Ok(told) = str::from_utf8(first) else {
        return b"";
    };
    match told.split_once(" (os error ") {
        Some((said, _)) => said.as_bytes(),
        None => told.as_bytes(),
    }
}

// A line on standard error: what failed, a colon and the words of its number.
fn say_failed(rt: &HostRuntime, what: &[u8], error: i32) {
    let mut text = [0u8; WORDS_ROOM];
    let mut at = Cursor::new(text.as_mut_slice());
    let _ = write!(at, "{}", Error::from_raw_os_error(error));
    let n = at.position() as usize;
    say(rt, what);
    say(rt, b": ");
    say(rt, words(&text, n));
    say(rt, b"\n");
}

// The first n bytes of what was laid out, to standard output; whether all of them were written. Where they were not, standard error says why.
pub fn print(rt: &HostRuntime, out: &[u8], n: usize) -> bool
    ensures { length out.now < n → result ≡ false }
{
    let Some(laid) = out.get(..n) else {
        return false;
    };
    let mut output = rt.stdout();
    let written = write_whole(rt, &mut output, laid);
    if let Err(error) = written {
        say_failed(rt, b"standard output: can't be written", error);
    }
    written.is_ok()
}
