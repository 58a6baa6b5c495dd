// The reply table: number, place and figures of every answer.
ghost use Rattle.std.specs.Prelude.{◌≡◌};
ghost use Rattle.sequencer.specs.Replies.{sending_reply, report_reply};

use crate::{Figures, ReportReply, SendingReply};
use session::{Refusal, refusal_row};

// The reply to a heard note or to passing time: the count sent.
pub fn sending_reply(s: Result<usize, Refusal>) -> SendingReply
    ensures { result ≡ sending_reply s }
{
    match s {
        Ok(c) => SendingReply {
            number: 0,
            place: 0,
            count: c,
        },
        Err(x) => {
            let r = refusal_row(x);
            SendingReply {
                number: r.number,
                place: r.place,
                count: 0,
            }
        }
    }
}

// The reply to a report: clock, tempo, last event heard and messages sent.
pub fn report_reply(a: Result<Figures, Refusal>) -> ReportReply
    ensures { result ≡ report_reply a }
{
    match a {
        Ok(s) => ReportReply {
            number: 0,
            place: 0,
            figures: s,
        },
        Err(x) => {
            let r = refusal_row(x);
            ReportReply {
                number: r.number,
                place: r.place,
                figures: Figures {
                    clock: 0,
                    tempo: 0,
                    last: 0,
                    total: 0,
                },
            }
        }
    }
}
