// What `read`, `write` and `unfold` say of what they refuse, laid out on lent bytes, and how they end.
// Each asks for room by a clause: a type around the lent bytes would be built at each call, and taken apart again in it.
// A `match` for each command: its arms are the lines that it may say, each of other values.
#![tactic(auto)]

ghost use Rattle.std.specs.Prelude.{◌≡◌, ◌+◌, ◌≤◌, length};
ghost use Rattle.ascii.specs.Laying.{Laid};
ghost use Rattle.text.specs.Said.{said};
ghost use Rattle.script.specs.Tallies.{tally_of};
ghost use Rattle.transcribing.specs.Told.{counts_told, counts_said, hint_told, faulty_line, unfit_line, read_line, write_line, line_room, ending_of};

use contents::{Counts, Fault};
use hints::{Hint, fault_hint, hint_at};
use origins::place_in_text;
use refusals::{misfit_line, misread_line, refusal_line, room_line};
use script::tally_text;
use session::{Refusal, refusal_row};
use streams::Ending;
use text::TextError;
use tokens::Place;
pub use unfolds::{unfold_ending, unfold_line};

mod unfolds;

// The counts of what was tallied: none where there is a fault.
#[tactic(auto, unfolding(crate::specs::Told::counts_told))]
fn counts_told(t: Result<Counts, usize>) -> Counts
    ensures { result ≡ counts_told t }
{
    match t {
        Ok(counts) => counts,
        Err(_) => Counts {
            events: 0,
            items: 0,
            messages: 0,
            text: 0,
        },
    }
}

fn counts_said(text: &[u8]) -> Counts
    ensures { result ≡ counts_said (said text.now) }
{
    counts_told(tally_text(text))
}

// The hint of a text's own fault.
fn hint_told(text: &[u8], t: Result<Counts, usize>) -> Option<Hint>
    requires { t ≡ tally_of (said text.now) }
    ensures { result ≡ hint_told text.now t }
{
    match t {
        Ok(_) => None,
        Err(at) => hint_at(text, at),
    }
}

// The line of a text with a fault of its own.
fn put_faulty(out: &mut [u8], name: &[u8], text: &[u8], place: Place) -> usize
    requires { line_room + length name.now ≤ length out.old }
    ensures { Laid out.old 0 (faulty_line name.now text.now place.line place.column) out.new result }
{
    let t = tally_text(text);
    let h = hint_told(text, t);
    misread_line(out, name, place, h)
}

// The line of a text whose file would be refused, at what made the byte.
fn put_unfit(out: &mut [u8], name: &[u8], text: &[u8], x: Fault) -> usize
    requires { line_room + length name.now ≤ length out.old }
    ensures { Laid out.old 0 (unfit_line name.now text.now x) out.new result }
{
    let c = counts_said(text);
    let p = place_in_text(text, refusal_row(Refusal::File(x)).place);
    let h = fault_hint(x);
    misfit_line(out, name, p, c, Refusal::File(x), h)
}

// What `read` says of the text of this name, from the front of `out`: nothing where it was read. Answers its length.
#[tactic(auto, unfolding(crate::specs::Told::read_line))]
pub fn read_line(out: &mut [u8], name: &[u8], text: &[u8], t: Result<usize, TextError>) -> usize
    requires { line_room + length name.now ≤ length out.old }
    ensures { Laid out.old 0 (read_line name.now text.now t) out.new result }
{
    match t {
        Ok(_) => 0,
        Err(TextError::NoRoom) => room_line(out, name),
        Err(TextError::BadText { line, column }) => put_faulty(
            out,
            name,
            text,
            Place { line, column },
        ),
        Err(TextError::BadFile { fault }) => put_unfit(out, name, text, fault),
    }
}

// What `write` says of the file of this name.
#[tactic(auto, unfolding(crate::specs::Told::write_line))]
pub fn write_line(out: &mut [u8], name: &[u8], file: &[u8], t: Result<usize, TextError>) -> usize
    requires { line_room + length name.now ≤ length out.old }
    ensures { Laid out.old 0 (write_line name.now file.now t) out.new result }
{
    match t {
        Ok(_) => 0,
        Err(TextError::NoRoom) => room_line(out, name),
        Err(TextError::BadText { line, column }) => misread_line(
            out,
            name,
            Place { line, column },
            None,
        ),
        Err(TextError::BadFile { fault }) => refusal_line(out, name, file, Refusal::File(fault)),
    }
}

// How either ends: done where something was made. `unfold_ending` stands beside it, since each has a wrong build of its own, by an error that the other has not.
pub fn ending_of(t: Result<usize, TextError>) -> Ending
    ensures { result ≡ ending_of t }
{
    match t {
        Ok(_) => Ending::Done,
        Err(_) => Ending::Refused,
    }
}
