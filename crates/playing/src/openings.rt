// What an opening prints.
ghost use Rattle.std.specs.Prelude.{◌≡◌, true, ◌≤◌, length};
ghost use Rattle.score.specs.File.{Accepted};
ghost use Rattle.opening.specs.Opening.{opened};
ghost use Rattle.lines.specs.Commands.{most_parts};
ghost use Rattle.lines.specs.Output.{line_room};
ghost use Rattle.playing.specs.Printed.{carried_opening};
ghost use Rattle.playing.specs.Refused.{why_refused};
ghost use Rattle.playing.specs.Inner.{Carries};

use crate::Line;
use session::Refusal;

// An opening's reply, and whether it was granted.
pub fn open_line(
    file: &[u8],
    mem: &mut [u64],
    room: &[u64],
    parts: u64,
    tempo: u64,
    grace: u64,
    out: &mut [u8],
) -> Line
    requires { (parts ≤ most_parts) × (line_room ≤ length out.old) }
    ensures { Carries
        (carried_opening room.now (opened mem.old file.now (record { parts = parts; tempo = tempo; grace = grace })))
        out.old mem.new room.now out.new result.opened result.count
        × (result.opened ≡ true → Accepted file.now) }
{
    let bits = parts as u16;
    let r = opening::opening_reply(opening::open_session(mem, file, bits, tempo, grace));
    let count = lines::open_line(out, r.number as u64, u64::from(r.parts));
    Line {
        count,
        opened: r.number == 0,
    }
}

// Why an opening of this file was refused, in memory that is long enough: for its first fault, else for the grace, where that number was given, else for the tempo.
pub fn why_refused(file: &[u8], nineteen: bool) -> Refusal
    ensures { result ≡ why_refused file.now nineteen }
{
    match score::check_file(file) {
        Err(x) => Refusal::File(x),
        Ok(()) => {
            if nineteen {
                return Refusal::BadGrace;
            }
            Refusal::BadTempo
        }
    }
}
