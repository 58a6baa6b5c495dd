// "A line ends at a newline byte or the input's end". Input comes in chunks, and a line is kept as far as a readable one can reach.
ghost use Rattle.lines.specs.Input.{Feedable, Feeds};

use crate::Fed;
use ascii::{NEWLINE, bytes_before, put_bytes};

const KEPT_BYTES: usize = 24;

// Reads on in the chunk from `at`, up to the line's end or the chunk's. The line's first `have` bytes are what is kept of it so far.
pub fn feed(chunk: &[u8], at: usize, line: &mut [u8], have: usize) -> Fed
    requires { Feedable chunk.now at line.old have }
    ensures { Feeds chunk.now at line.old have line.new result }
{
    let rest = &chunk[at..];
    let count = bytes_before(NEWLINE, rest);
    let room = (KEPT_BYTES - have).min(count);
    let kept = put_bytes(line, have, &rest[..room]);
    let stop = at + count;
    if stop < chunk.len() {
        return Fed {
            next: stop + 1,
            have: kept,
            ended: true,
        };
    }
    Fed {
        next: stop,
        have: kept,
        ended: false,
    }
}
