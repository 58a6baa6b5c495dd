// A heard note. Its public call has no `requires`.
ghost use Rattle.std.specs.Prelude.{◌≡◌, ◌+◌, ◌-◌, ◌≤◌, length};
ghost use Rattle.session.specs.Layout.{memory_size, event_count_at, last_at, places_of, word_at};
ghost use Rattle.session.specs.Inner.{Header};
ghost use Rattle.sequencer.specs.Calls.{took_note, noted, heard_note};

use crate::finish::finish;
use fates::Places;
use session::layout::{
    CLOCK_AT, EVENT_COUNT_AT, GRACE_AT, ITEM_COUNT_AT, LAST_AT, MEMORY_SIZE, MOST_TEMPO,
    OUTCOMES_AT, PAGE_AT, ROOM_SIZE, STARTS_AT, TAKEN_AT,
};
use session::{Refusal, is_session};
use units::{Grains, Thousandths};

// The events after the last one heard, up to this one, are settled by it.
fn take_note(mem: &mut [u64], event: usize)
    requires { (memory_size ≤ length mem.old) × Header mem.old × (event ≤ 256) }
    ensures { mem.new
        ≡ took_note event (event - word_at mem.old last_at) (word_at mem.old last_at + 1) mem.old }
{
    let first = mem[LAST_AT] as usize + 1;
    for k in first..event + 1 {
        mem[TAKEN_AT + k] = event as u64;
    }
}

// Where the evaluators find a session's words, and the grace.
fn places(mem: &[u64]) -> Places
    requires { memory_size ≤ length mem.now }
    ensures { result ≡ places_of mem.now }
{
    Places {
        starts: STARTS_AT,
        taken: TAKEN_AT,
        items: PAGE_AT,
        outcomes: OUTCOMES_AT,
        events: mem[EVENT_COUNT_AT] as usize,
        size: mem[ITEM_COUNT_AT] as usize,
        grace: Grains(mem[GRACE_AT]),
    }
}

// What the rules decide now that an event is heard, and what waits from this clock reading on.
fn note(mem: &mut [u64], event: usize)
    requires { (memory_size ≤ length mem.old) × Header mem.old × (event ≤ word_at mem.old event_count_at) }
    ensures { mem.new ≡ noted event mem.old }
{
    take_note(mem, event);
    let t = places(mem);
    evaluators::perform(mem, t);
    let clock = Thousandths(mem[CLOCK_AT]);
    let count = mem[ITEM_COUNT_AT] as usize;
    sending::slots::settle(mem, clock, count);
}

// A note is heard: an event, and the tempo from here on. It answers how many messages were sent.
pub fn hear(mem: &mut [u64], room: &mut [u64], event: u64, tempo: u64) -> Result<usize, Refusal>
    ensures { heard_note mem.old room.old event tempo ≡ record { reply = result; memory = mem.new; room = room.new } }
{
    if mem.len() < MEMORY_SIZE {
        return Err(Refusal::MemoryShort);
    }
    let known = is_session(mem);
    if room.len() < ROOM_SIZE {
        return Err(Refusal::RoomShort);
    }
    if !known {
        return Err(Refusal::NoSession);
    }
    if event < 1 {
        return Err(Refusal::NoEvent);
    }
    if mem[EVENT_COUNT_AT] < event {
        return Err(Refusal::NoEvent);
    }
    if event <= mem[LAST_AT] {
        return Err(Refusal::NotAfter);
    }
    if tempo < 1 {
        return Err(Refusal::BadTempo);
    }
    if MOST_TEMPO < tempo {
        return Err(Refusal::BadTempo);
    }
    note(mem, event as usize);
    let clock = Thousandths(mem[CLOCK_AT]);
    Ok(finish(mem, room, clock, tempo, event))
}
