// The end of a call that was granted: what is due is sent, and the header says what holds.
ghost use Rattle.std.specs.Prelude.{◌≡◌, ◌≤◌, length, Ok};
ghost use Rattle.session.specs.Layout.{memory_size, room_size, clock_end};
ghost use Rattle.session.specs.Inner.{Header};
ghost use Rattle.sequencer.specs.Calls.{sent_now};

use session::layout::{CLOCK_AT, LAST_AT, TEMPO_AT, TOTAL_AT};
use units::Thousandths;

// All that is due is sent: how many messages.
pub fn finish(mem: &mut [u64], room: &mut [u64], clock: Thousandths, tempo: u64, last: u64) -> usize
    requires { (memory_size ≤ length mem.old) × Header mem.old × (room_size ≤ length room.old) × (clock.0 ≤ clock_end) }
    ensures { sent_now clock.0 tempo last mem.old room.old ≡ record { reply = Ok result; memory = mem.new; room = room.new } }
{
    let total = mem[TOTAL_AT];
    let count = sending::due::send(mem, room, clock);
    mem[CLOCK_AT] = clock.0;
    mem[TEMPO_AT] = tempo;
    mem[LAST_AT] = last;
    mem[TOTAL_AT] = total + count as u64;
    count
}
