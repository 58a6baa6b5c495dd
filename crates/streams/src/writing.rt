// Writing bytes to the system.
ghost use Rattle.std.specs.Prelude.{◌≡◌, length};
ghost use Rattle.streams.specs.Outcomes.{Within, Takes, took_of};

use crate::calls::{INTERRUPTED, MOST_TRIES, NOT_READY, Outcome, came_to, retry};
use std::io::Write;
use std::rt::Clock;

// The number of a write that takes no bytes, which has failed: the system gives it none.
const NO_NUMBER: i32 = 0;

fn try_write<W: Write>(to: &mut W, bytes: &[u8]) -> Outcome
    ensures { Within (length bytes.now) result }
{
    let got = to.write(bytes);
    came_to(got)
}

// How many bytes were taken, or the number of the failure.
fn took(o: Outcome) -> Result<usize, i32>
    ensures { result ≡ took_of o }
{
    match o {
        Outcome::Took(n) => Ok(n),
        Outcome::Nothing => Err(NO_NUMBER),
        Outcome::Again => Err(INTERRUPTED),
        Outcome::Wait => Err(NOT_READY),
        Outcome::Failed(error) => Err(error),
    }
}

// One write, made again where it is interrupted, and after a millisecond where there is no room yet: how many bytes it took, at least one, or the number of the failure.
fn write_some<W: Write>(rt: &impl Clock, to: &mut W, bytes: &[u8]) -> Result<usize, i32>
    ensures { Takes (length bytes.now) result }
{
    for _ in 0..MOST_TRIES {
        let o = try_write(to, bytes);
        if !retry(rt, o) {
            return took(o);
        }
    }
    Err(NOT_READY)
}

// Writes all the bytes, one behind the other, until a write fails: then with its number, which is 0 for a write that took none.
pub fn write_whole<W: Write>(rt: &impl Clock, to: &mut W, bytes: &[u8]) -> Result<(), i32>
    ensures { length bytes.now ≡ 0 → result ≡ Ok tt }
{
    // A `while`, since how far a turn gets is the write's answer.
    let mut rest = bytes;
    while !rest.is_empty() {
        let n = write_some(rt, to, rest)?;
        rest = &rest[n..];
    }
    Ok(())
}
