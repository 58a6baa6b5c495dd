// Reading bytes from the system.
ghost use Rattle.std.specs.Prelude.{◌-◌, ◌≤◌, ◌≡◌, length, take, MatchResult};
ghost use Rattle.streams.specs.Outcomes.{Within, Gives, got_of};

use crate::calls::{INTERRUPTED, MOST_TRIES, NOT_READY, Outcome, came_to, retry};
use std::io::Read;
use std::rt::Clock;

// A read that failed before the buffer was full and before the input ended: how many bytes stand at the buffer's start all the same, and the failure's number. There are always both.
#[derive(Clone, Copy)]
pub struct Broken {
    pub count: usize,
    pub error: i32,
}

// A function of its own, as `try_write` is: std's `Read` and `Write` are two traits, and only this one writes into the bytes.
fn try_read<R: Read>(from: &mut R, buf: &mut [u8]) -> Outcome
    ensures { Within (length buf.old) result }
{
    let got = from.read(buf);
    came_to(got)
}

// A function, as `took` is, and no `From`: a read of no bytes is the input's end, and a write of none has failed.
fn got_by(o: Outcome) -> Result<Option<usize>, i32>
    ensures { result ≡ got_of o }
{
    match o {
        Outcome::Took(n) => Ok(Some(n)),
        Outcome::Nothing => Ok(None),
        Outcome::Again => Err(INTERRUPTED),
        Outcome::Wait => Err(NOT_READY),
        Outcome::Failed(error) => Err(error),
    }
}

// One read, made again where it is interrupted, and after a millisecond where nothing has come yet: how many bytes stand at the buffer's start, at least one, or none at the input's end; or the failure's number.
pub fn read_some<R: Read>(
    rt: &impl Clock,
    from: &mut R,
    buf: &mut [u8],
) -> Result<Option<usize>, i32>
    ensures { Gives (length buf.old) result }
{
    // The tries stand here and in `write_some`: tried as one function over a closure, and that the bytes lie within those lent was lost between the calls. A trait that keeps it, with a type for each of the two, is longer than both loops.
    for _ in 0..MOST_TRIES {
        let o = try_read(from, buf);
        if !retry(rt, o) {
            return got_by(o);
        }
    }
    Err(NOT_READY)
}

// One read behind the first `done` bytes, which stay: the whole buffer is handed in, since that is what the clause speaks of.
fn read_behind<R: Read>(
    rt: &impl Clock,
    from: &mut R,
    buf: &mut [u8],
    done: usize,
) -> Result<Option<usize>, i32>
    requires { done ≤ length buf.old }
    ensures gives { Gives (length buf.old - done) result }
    ensures buf_unchanged { take done buf.new ≡ take done buf.old }
{
    read_some(rt, from, &mut buf[done..])
}

// Reads until the buffer is full, the input ends or a read fails: how many bytes stand at the buffer's start.
pub fn read_whole<R: Read>(rt: &impl Clock, from: &mut R, buf: &mut [u8]) -> Result<usize, Broken>
    ensures { MatchResult result (λ n. n ≤ length buf.new) (λ b. b.count ≤ length buf.new) }
{
    // A `while`, since how far a turn gets is the read's answer.
    let mut done = 0;
    while done < buf.len() {
        match read_behind(rt, from, buf, done) {
            Ok(Some(n)) => done += n,
            Ok(None) => return Ok(done),
            Err(error) => return Err(Broken { count: done, error }),
        }
    }
    Ok(done)
}
