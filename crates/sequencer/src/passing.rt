// Passing time. It has no `requires`.
ghost use Rattle.std.specs.Prelude.{◌≡◌};
ghost use Rattle.sequencer.specs.Calls.{passing_time};

use crate::finish::finish;
use session::layout::{
    CLOCK_AT, CLOCK_END, LAST_AT, MEMORY_SIZE, MOST_MILLIS, ROOM_SIZE, TEMPO_AT,
};
use session::{Refusal, is_session};
use units::{Millis, Thousandths};

// Milliseconds pass. It answers how many messages were sent.
pub fn pass(mem: &mut [u64], room: &mut [u64], ms: u64) -> Result<usize, Refusal>
    ensures { passing_time mem.old room.old ms ≡ record { reply = result; memory = mem.new; room = room.new } }
{
    if mem.len() < MEMORY_SIZE {
        return Err(Refusal::MemoryShort);
    }
    let known = is_session(mem);
    if room.len() < ROOM_SIZE {
        return Err(Refusal::RoomShort);
    }
    if !known {
        return Err(Refusal::NoSession);
    }
    if ms < 1 {
        return Err(Refusal::BadMillis);
    }
    if MOST_MILLIS < ms {
        return Err(Refusal::BadMillis);
    }
    let tempo = mem[TEMPO_AT];
    let last = mem[LAST_AT];
    let clock = mem[CLOCK_AT] + units::moved_by(Millis(ms), tempo).0;
    if CLOCK_END < clock {
        return Err(Refusal::ClockFull);
    }
    Ok(finish(mem, room, Thousandths(clock), tempo, last))
}
