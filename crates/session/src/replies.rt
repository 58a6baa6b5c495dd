// The reply table's number and place of every refusal.
ghost use Rattle.std.specs.Prelude.{◌≡◌};
ghost use Rattle.session.specs.Replies.{refusal_row};

use crate::Refusal;
use contents::Reply;

fn row(number: usize) -> Reply
    ensures { result ≡ record { number = number; place = 0 } }
{
    Reply { number, place: 0 }
}

// The reply table's number and place of a refusal.
pub fn refusal_row(x: Refusal) -> Reply
    ensures { result ≡ refusal_row x }
{
    match x {
        Refusal::MemoryShort => row(1),
        Refusal::RoomShort => row(2),
        Refusal::File(f) => contents::replied(Err(f)),
        Refusal::BadTempo => row(9),
        Refusal::BadGrace => row(19),
        Refusal::NoSession => row(10),
        Refusal::NoEvent => row(11),
        Refusal::NotAfter => row(12),
        Refusal::BadMillis => row(13),
        Refusal::ClockFull => row(14),
    }
}
