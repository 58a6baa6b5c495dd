// The input, chunk by chunk: its lines are carried out and what they print is written.
// The file, the memory, the room, the line and what is printed stay parameters of their own: the clauses speak of each, before and after.
ghost use Rattle.std.specs.Prelude.{◌≡◌, ◌+◌, ◌≤◌, length, drop, IfOk, MatchResult};
ghost use Rattle.lines.specs.Input.{kept_bytes};
ghost use Rattle.playing.specs.Inner.{Asked, output_room};
ghost use Rattle.chunks.specs.Reading.{bytes_read};
ghost use Rattle.chunks.specs.Inner.{reading_of, Going, WentOn};
ghost use Rattle.performance.specs.Refused.{refused_after};
ghost use Rattle.performance.specs.Runs.{Came};

use chunks::{Progress, Step};
use std::io::Read;
use std::rt::HostRuntime;
use telling::{after_line, say_unread};

// More reads than any input lasts for.
const MOST_READS: u64 = 1000000000000000;

// What people are told the score, its first line and the commands are called.
#[derive(Clone, Copy)]
pub struct Names<'a> {
    pub score: &'a [u8],
    pub first: &'a [u8],
    pub commands: &'a [u8],
}

// How far a run has come, and whether the opening was refused: that is what the run ends by, and no state of the value beside it.
#[derive(Clone, Copy)]
pub struct Run {
    pub progress: Progress,
    pub refused: bool,
}

// A step of a run: reading on, and whether the opening has been refused.
#[derive(Clone, Copy)]
struct Turn {
    step: Step,
    refused: bool,
}

// Reads on in the chunk, and prints what the line that ended has laid out. Where that can't be written, the run has failed: the step that was made all the same.
fn take_line(
    rt: &HostRuntime,
    file: &[u8],
    names: Names,
    mem: &mut [u64],
    room: &mut [u64],
    chunk: &[u8],
    at: usize,
    line: &mut [u8],
    p: Progress,
    refused: bool,
    out: &mut [u8],
) -> Result<Turn, Step>
    requires { Going file.now chunk.now at line.old p out.old }
    ensures went { MatchResult result
        (λ turn. WentOn file.now chunk.now at mem.old room.old line.old p out.old mem.new room.new line.new out.new turn.step)
        (λ step. WentOn file.now chunk.now at mem.old room.old line.old p out.old mem.new room.new line.new out.new step) }
    ensures told { IfOk result (λ turn. turn.refused
        ≡ refused_after file.now (reading_of mem.old room.old line.old p) (drop at chunk.now) refused) }
{
    let step = chunks::go_on(file, mem, room, chunk, at, line, p, out);
    if !streams::print(rt, out, step.count) {
        return Err(step);
    }
    let refused = after_line(rt, file, names.score, names.first, out, step.count, refused);
    Ok(Turn { step, refused })
}

// The lines that end in a chunk of the input are carried out, and the start of the next is kept. `Err` is a run that has failed, as far as it came.
fn take_chunk(
    rt: &HostRuntime,
    file: &[u8],
    names: Names,
    mem: &mut [u64],
    room: &mut [u64],
    chunk: &[u8],
    line: &mut [u8],
    s: Run,
    out: &mut [u8],
) -> Result<Run, Run>
    requires { Going file.now chunk.now 0 line.old s.progress out.old }
    ensures came { MatchResult result
        (λ run. Came file.now s.progress.grace (s.progress.lines + length chunk.now) run.progress out.new)
        (λ run. Came file.now s.progress.grace (s.progress.lines + length chunk.now) run.progress out.new) }
    ensures read { IfOk result (λ run. reading_of mem.new room.new line.new run.progress
        ≡ (bytes_read file.now (reading_of mem.old room.old line.old s.progress) chunk.now).reading) }
{
    // A `while`, since where a line ends is what reading on answers.
    let mut at = 0;
    let mut p = s.progress;
    let mut refused = s.refused;
    while at < chunk.len() {
        let turn = match take_line(rt, file, names, mem, room, chunk, at, line, p, refused, out) {
            Ok(turn) => turn,
            Err(step) => {
                return Err(Run {
                    progress: step.progress,
                    refused,
                });
            }
        };
        at = turn.step.next;
        p = turn.step.progress;
        refused = turn.refused;
    }
    Ok(Run {
        progress: p,
        refused,
    })
}

// The lines that end before the input does, and the start of what is left. `Err` is a run that has failed, as far as it came.
pub fn read_lines<R: Read>(
    rt: &HostRuntime,
    file: &[u8],
    names: Names,
    grace: u64,
    input: &mut R,
    mem: &mut [u64],
    room: &mut [u64],
    line: &mut [u8],
    out: &mut [u8],
) -> Result<Run, Run>
    requires { (kept_bytes ≤ length line.old) × (output_room ≤ length out.old) }
    ensures { MatchResult result
        (λ run. Came file.now grace 5000000000000000000 run.progress out.new)
        (λ run. Came file.now grace 5000000000000000000 run.progress out.new) }
{
    let mut chunk = [0u8; 4096];
    let mut s = Run {
        progress: Progress {
            lines: 0,
            have: 0,
            grace,
            opened: false,
        },
        refused: false,
    };
    for _ in 0..MOST_READS {
        match streams::read_some(rt, input, &mut chunk) {
            Ok(Some(n)) => {
                s = take_chunk(rt, file, names, mem, room, &chunk[..n], line, s, out)?;
            }
            Ok(None) => return Ok(s),
            Err(error) => {
                say_unread(rt, names.commands, error);
                return Err(s);
            }
        }
    }
    Ok(s)
}
