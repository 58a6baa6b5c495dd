// A score played by commands that are read, with what the electronics are sent on standard output. It moves bytes between the system and the proved libraries, and decides nothing about music.
#![tactic(auto)]

ghost use Rattle.std.specs.Prelude.{◌≡◌, ◌≤◌, length};
ghost use Rattle.playing.specs.Inner.{Asked, output_room};
ghost use Rattle.performance.specs.Refused.{ending_after};

use reading::{Names, Run, read_lines};
use std::io::Read;
use std::rt::HostRuntime;
use streams::Ending;
use telling::after_line;

mod reading;

// How a performance ends that was read and written to its end.
fn ending_after(refused: bool) -> Ending
    ensures { result ≡ ending_after refused }
{
    if refused {
        return Ending::Refused;
    }
    Ending::Done
}

// The input's end: the line that is left, if any is, and the end. How the run has come out.
fn finish(
    rt: &HostRuntime,
    file: &[u8],
    names: Names,
    mem: &mut [u64],
    room: &mut [u64],
    line: &[u8],
    s: Run,
    out: &mut [u8],
) -> Ending
    requires { (s.progress.have ≤ length line.now)
        × (s.progress.lines ≤ 5000000000000000000)
        × Asked file.now s.progress.opened out.old }
{
    let p = s.progress;
    telling::say_empty(rt, names.first, p.lines, p.have);
    let n = chunks::last_line(file, mem, room, line, p, out);
    if !streams::print(rt, out, n) {
        return Ending::Failed;
    }
    let refused = after_line(rt, file, names.score, names.first, out, n, s.refused);
    let n = playing::end_line(mem, out);
    if !streams::print(rt, out, n) {
        return Ending::Failed;
    }
    ending_after(refused)
}

// Plays the score's bytes by the commands that come from `input`, with this grace. People are told of a refused score as `score`, of a refused tempo as `first`, of a refused grace as GRACE, and of an input that can't be read as `commands`.
pub fn perform<R: Read>(
    rt: &HostRuntime,
    file: &[u8],
    score: &[u8],
    first: &[u8],
    commands: &[u8],
    grace: u64,
    input: &mut R,
    mem: &mut [u64],
    room: &mut [u64],
    out: &mut [u8],
) -> Ending
    requires { output_room ≤ length out.old }
{
    let names = Names {
        score,
        first,
        commands,
    };
    let mut line = [0u8; 24];
    let read = read_lines(rt, file, names, grace, input, mem, room, &mut line, out);
    match read {
        Ok(s) => finish(rt, file, names, mem, room, &line, s, out),
        Err(_) => Ending::Failed,
    }
}
