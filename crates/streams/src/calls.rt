// What one call to read or write came to, by its answer and the error number that a failure has.
ghost use Rattle.std.specs.Prelude.{◌≡◌};
ghost use Rattle.streams.specs.Outcomes.{number_of, failure_of, moved_of, outcome_of, retried};

use std::rt::Clock;
use std::thread;
use std::time::Duration;

// More calls than any wait lasts for, at one in a millisecond.
pub const MOST_TRIES: u64 = 1000000000000000;

const MILLISECOND: u64 = 1;

// The system's numbers of a call that a signal interrupted, and of one on a descriptor that is not ready.
pub const INTERRUPTED: i32 = 4;

pub const NOT_READY: i32 = 11;

// An enum of its own: after `Again` and `Wait` the call is made again, which neither a value nor an error says.
#[derive(Clone, Copy)]
pub enum Outcome {
    Took(usize),
    Nothing,
    Again,
    Wait,
    Failed(i32),
}

// The system's number of an error, or 0 where it is none of the system's.
pub fn error_number(e: std::io::Error) -> i32
    ensures { result ≡ number_of e }
{
    e.raw_os_error().unwrap_or(0)
}

// A call that failed: "interrupted" is no failure, nor is "not ready".
fn failure(error: i32) -> Outcome
    ensures { result ≡ failure_of error }
{
    if error == INTERRUPTED {
        return Outcome::Again;
    }
    if error == NOT_READY {
        return Outcome::Wait;
    }
    Outcome::Failed(error)
}

// A call that moved so many bytes.
fn moved(n: usize) -> Outcome
    ensures { result ≡ moved_of n }
{
    if n == 0 {
        return Outcome::Nothing;
    }
    Outcome::Took(n)
}

pub fn came_to(answer: std::io::Result<usize>) -> Outcome
    ensures { result ≡ outcome_of answer }
{
    match answer {
        Ok(n) => moved(n),
        Err(e) => failure(error_number(e)),
    }
}

fn pause(rt: &impl Clock) {
    thread::sleep(rt, Duration::from_millis(MILLISECOND));
}

// Whether the call is to be made again: at once, or after a millisecond.
pub fn retry(rt: &impl Clock, o: Outcome) -> bool
    ensures { result ≡ retried o }
{
    match o {
        Outcome::Again => true,
        Outcome::Wait => {
            pause(rt);
            true
        }
        Outcome::Took(_) => false,
        Outcome::Nothing => false,
        Outcome::Failed(_) => false,
    }
}
