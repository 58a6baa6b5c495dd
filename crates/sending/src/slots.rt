// What a heard note decides: the slots of the page, by the outcomes that the evaluators left.
ghost use Rattle.std.specs.Prelude.{◌≡◌, ◌+◌, ◌<◌, ◌≤◌, length, slice_set};
ghost use Rattle.base.specs.Tests.{pick};
ghost use Rattle.session.specs.Layout.{memory_size, clock_end, slots_at, outcomes_at, word_at};
ghost use Rattle.session.specs.Parts.{sounds};
ghost use Rattle.sending.specs.Sending.{slot_by, is_open, settled};

use session::layout::{OUTCOMES_AT, PAGE_AT, PARTS_AT, SLOTS_AT};
use units::{Grains, Thousandths};

// Delays are read as numbers below 2^35.
const DELAYS: u64 = 34359738368;

// Whether a part is among the part bits.
fn has_part(bits: u64, part: usize) -> bool
    requires { part < 16 }
    ensures { result ≡ sounds bits part }
{
    (bits >> part) % 2 == 1
}

// The slot that an outcome makes.
fn slot_by(clock: Thousandths, outcome: u64) -> u64
    requires { clock.0 ≤ clock_end }
    ensures { result ≡ slot_by clock.0 outcome }
{
    if outcome == 0 {
        return 0;
    }
    if outcome == 1 {
        return 1;
    }
    let wait = units::on_clock(Grains((outcome - 2) % DELAYS));
    3 + (clock.0 + wait.0)
}

// Whether a place is still to be decided.
fn is_open(mem: &[u64], place: usize) -> bool
    requires { (memory_size ≤ length mem.now) × (place < 2048) }
    ensures { result ≡ is_open mem.now place }
{
    let item = fates::words::item_in(mem[PAGE_AT + place]);
    if item.kind != 0 {
        return false;
    }
    if !has_part(mem[PARTS_AT], item.part) {
        return false;
    }
    mem[SLOTS_AT + place] == 0
}

// One place decided, if it is open.
fn settle_place(mem: &mut [u64], clock: Thousandths, place: usize)
    requires { (memory_size ≤ length mem.old) × (place < 2048) × (clock.0 ≤ clock_end) }
    ensures { mem.new
        ≡ pick (is_open mem.old place)
        (slice_set mem.old (slots_at + place) (slot_by clock.0 (word_at mem.old (outcomes_at + place))))
        mem.old }
{
    if !is_open(mem, place) {
        return;
    }
    mem[SLOTS_AT + place] = slot_by(clock, mem[OUTCOMES_AT + place]);
}

// The first `count` places decided.
pub fn settle(mem: &mut [u64], clock: Thousandths, count: usize)
    requires { (memory_size ≤ length mem.old) × (count ≤ 2048) × (clock.0 ≤ clock_end) }
    ensures { mem.new ≡ settled clock.0 count 0 mem.old }
{
    for place in 0..count {
        settle_place(mem, clock, place);
    }
}
