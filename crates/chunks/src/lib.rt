// The input in whatever chunks it comes: a line is kept until it ends, and then carried out.
#![tactic(auto)]

ghost use Rattle.std.specs.Prelude.{◌≤◌, ◌<◌, length};
ghost use Rattle.playing.specs.Inner.{Asked};
ghost use Rattle.chunks.specs.Inner.{reading_of, Going, WentOn, Ended};

use playing::play_line;

// How far the input is read: how many lines have ended, how many bytes of the next are kept, the grace that an opening is given, and whether a session is open.
// A `bool`, since lines are counted and bytes kept whether a session is open or not.
#[derive(Clone, Copy)]
pub struct Progress {
    pub lines: u64,
    pub have: usize,
    pub grace: u64,
    pub opened: bool,
}

// Reading on: where the next line begins in the chunk, how many bytes were printed, and how far the input is read.
#[derive(Clone, Copy)]
pub struct Step {
    pub next: usize,
    pub count: usize,
    pub progress: Progress,
}

// Reads on in the chunk from `at`, up to the line's end or the chunk's. The line that ends is carried out; of one that does not, the first bytes are kept.
// A place in the chunk, and not its rest: `Going` bounds the lines by the chunk's length, and `read-on` goes from one place to the next.
pub fn go_on(
    file: &[u8],
    mem: &mut [u64],
    room: &mut [u64],
    chunk: &[u8],
    at: usize,
    line: &mut [u8],
    p: Progress,
    out: &mut [u8],
) -> Step
    requires { Going file.now chunk.now at line.old p out.old }
    ensures { WentOn file.now chunk.now at mem.old room.old line.old p out.old
        mem.new room.new line.new out.new result }
{
    let fed = lines::feed(chunk, at, line, p.have);
    if fed.ended {
        let l = play_line(
            file,
            p.grace,
            mem,
            room,
            &line[..fed.have],
            p.lines + 1,
            p.opened,
            out,
        );
        return Step {
            next: fed.next,
            count: l.count,
            progress: Progress {
                lines: p.lines + 1,
                have: 0,
                grace: p.grace,
                opened: l.opened,
            },
        };
    }
    Step {
        next: fed.next,
        count: 0,
        progress: Progress {
            lines: p.lines,
            have: fed.have,
            grace: p.grace,
            opened: p.opened,
        },
    }
}

// What is left at the input's end is a line too, if there is any: how many bytes it prints.
pub fn last_line(
    file: &[u8],
    mem: &mut [u64],
    room: &mut [u64],
    line: &[u8],
    p: Progress,
    out: &mut [u8],
) -> usize
    requires { (p.have ≤ length line.now) × (p.lines < 18446744073709551615) × Asked file.now p.opened out.old }
    ensures { Ended file.now (reading_of mem.old room.old line.now p)
        out.old mem.new room.new out.new result }
{
    if p.have < 1 {
        return 0;
    }
    let n = p.have;
    let l = play_line(
        file,
        p.grace,
        mem,
        room,
        &line[..n],
        p.lines + 1,
        p.opened,
        out,
    );
    l.count
}
