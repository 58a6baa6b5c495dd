// One line of the input of `play` carried out, and the end: what is printed is laid in lent bytes.
// Each asks for room by a clause: a type around the lent bytes would be built at each call, and taken apart again in it.
#![tactic(auto)]

ghost use Rattle.std.specs.Prelude.{◌≡◌, true, ◌≤◌, length};
ghost use Rattle.ascii.specs.Laying.{Laid};
ghost use Rattle.score.specs.File.{Accepted};
ghost use Rattle.lines.specs.Output.{line_room, bad_line};
ghost use Rattle.playing.specs.Printed.{carried, ending};
ghost use Rattle.playing.specs.Inner.{Asked, Carries};

use lines::Command;
use openings::open_line;
use score::AcceptedFile;
use sendings::{figures_of, hear_line, pass_line};

mod openings;
mod sendings;

pub use openings::why_refused;

// Bytes that always suffice for what one line prints.
pub const OUTPUT_ROOM: usize = 114688;

// A line carried out: how many bytes it prints, and whether a session is open after it.
// A `bool`, since it says nothing of the count: a line prints whether a session is open or not.
#[derive(Clone, Copy)]
pub struct Line {
    pub count: usize,
    pub opened: bool,
}

// A line that can't be read or comes out of turn.
fn bad_line(number: u64, opened: bool, out: &mut [u8]) -> Line
    requires { line_room ≤ length out.old }
    ensures { Laid out.old 0 (bad_line number) out.new result.count × (result.opened ≡ opened) }
{
    let count = lines::bad_line(out, number);
    Line { count, opened }
}

// Carries out line `number` of the input: what it prints are the first bytes of `out`, and the others stay. An opening is given the grace.
// File, memory, room and output are lent apart, since the session's calls take some of them each, and `Carries` speaks of each.
// A `match`, and no closure for a command: the arms differ in what they lend, and the command is read and carried out in one place.
pub fn play_line(
    file: &[u8],
    grace: u64,
    mem: &mut [u64],
    room: &mut [u64],
    line: &[u8],
    number: u64,
    opened: bool,
    out: &mut [u8],
) -> Line
    requires { Asked file.now opened out.old }
    ensures { Carries
        (carried file.now grace number (record { memory = mem.old; room = room.old; opened = opened }) line.now)
        out.old mem.new room.new out.new result.opened result.count
        × (result.opened ≡ true → Accepted file.now) }
{
    match lines::command_in_turn(line, number == 1, opened) {
        Some(Command::Open(parts, tempo)) => open_line(file, mem, room, parts, tempo, grace, out),
        Some(Command::Hear(event, tempo)) => hear_line(
            AcceptedFile { bytes: file },
            mem,
            room,
            event,
            tempo,
            out,
        ),
        Some(Command::Pass(ms)) => pass_line(AcceptedFile { bytes: file }, mem, room, ms, out),
        None => bad_line(number, opened, out),
    }
}

// The last line: clock and total, both 0 without a session.
pub fn end_line(mem: &[u64], out: &mut [u8]) -> usize
    requires { line_room ≤ length out.old }
    ensures { Laid out.old 0 (ending mem.now) out.new result }
{
    let s = figures_of(mem);
    lines::end_line(out, s.clock, s.total)
}
