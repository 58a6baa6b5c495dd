// The reply to an opening.
ghost use Rattle.std.specs.Prelude.{◌≡◌};
ghost use Rattle.opening.specs.Replies.{opening_reply};

use crate::OpeningReply;
use session::{Refusal, refusal_row};

// The number of sounding parts beside number and place.
pub fn opening_reply(o: Result<u32, Refusal>) -> OpeningReply
    ensures { result ≡ opening_reply o }
{
    match o {
        Ok(n) => OpeningReply {
            number: 0,
            place: 0,
            parts: n,
        },
        Err(x) => {
            let r = refusal_row(x);
            OpeningReply {
                number: r.number,
                place: r.place,
                parts: 0,
            }
        }
    }
}
