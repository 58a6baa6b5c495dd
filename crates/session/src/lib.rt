// A session's words: where each stands, when memory is a session, and why a call is refused. That memory is long enough stands in the contract of each function that
// writes to it, here and above: it is lent for writing, and Rattle keeps no ghost fact in a struct beside a `&mut`.
#![tactic(auto)]

ghost use Rattle.std.specs.Prelude.{◌≡◌};
ghost use Rattle.session.specs.declared.Refusal.TheVariants.{File};

use contents::Fault;

// The places are public for programs that forge or inspect memory; a caller of the sequencer needs none of them.
pub mod layout;
mod replies;
mod rule;

pub use replies::refusal_row;
pub use rule::is_session;

// Why a call is refused.
#[derive(Clone, Copy)]
pub enum Refusal {
    // "session memory under 8,192 words (u64)"
    MemoryShort,
    // "send room under 2,048 words (u64)"
    RoomShort,
    // the file check's own faults
    File(Fault),
    // "tempo outside 1 to 50,400"
    BadTempo,
    // "a grace above 630"
    BadGrace,
    // "not a session"
    NoSession,
    // "event number 0 or above the last"
    NoEvent,
    // "event not after the last one heard"
    NotAfter,
    // "milliseconds outside 1 to 1,000"
    BadMillis,
    // "the clock would pass 10^15"
    ClockFull,
}

// A call that checks a file passes on what that check refuses.
impl From<Fault> for Refusal {
    ghost from_gives = { λ f x. x ≡ File f };

    fn from(f: Fault) -> Refusal {
        Refusal::File(f)
    }
}
