// Number 10's rule.
ghost use Rattle.std.specs.Prelude.{◌≡◌, ◌≤◌, length};
ghost use Rattle.session.specs.Layout.{memory_size};
ghost use Rattle.session.specs.Session.{is_session};

use crate::layout::{
    CLOCK_AT, CLOCK_END, EVENT_COUNT_AT, GRACE_AT, ITEM_COUNT_AT, LAST_AT, MARK, MARK_AT,
    MOST_EVENTS, MOST_GRACE, MOST_ITEMS, MOST_PARTS, MOST_SENT, MOST_TEMPO, PARTS_AT, TEMPO_AT,
    TOTAL_AT,
};

// Whether the words are a session's.
pub fn is_session(mem: &[u64]) -> bool
    requires { memory_size ≤ length mem.now }
    ensures { result ≡ is_session mem.now }
{
    let events = mem[EVENT_COUNT_AT];
    let clock = mem[CLOCK_AT];
    let tempo = mem[TEMPO_AT];
    let last = mem[LAST_AT];
    if mem[MARK_AT] != MARK {
        return false;
    }
    if events < 1 {
        return false;
    }
    if MOST_EVENTS < events {
        return false;
    }
    if MOST_ITEMS < mem[ITEM_COUNT_AT] {
        return false;
    }
    if MOST_PARTS < mem[PARTS_AT] {
        return false;
    }
    if MOST_GRACE < mem[GRACE_AT] {
        return false;
    }
    if CLOCK_END < clock {
        return false;
    }
    if tempo < 1 {
        return false;
    }
    if MOST_TEMPO < tempo {
        return false;
    }
    if events < last {
        return false;
    }
    mem[TOTAL_AT] <= MOST_SENT * (clock + last)
}
