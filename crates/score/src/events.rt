// "Event: 4 bytes, its duration in grains, 1 to 5,040,000."
ghost use Rattle.std.specs.Prelude.{◌≡◌, length};
ghost use Rattle.contents.specs.Replies.{verdict_of};
ghost use Rattle.contents.specs.Contents.{events_at};
ghost use Rattle.contents.specs.Inner.{Sized};
ghost use Rattle.score.specs.Events.{durations_at, events_right};

use contents::bytes::read32;
use contents::limits::{CONTENTS_SIZE, EVENT_SIZE, LONGEST};
use contents::{Counts, Fault};

pub fn check_events(file: &[u8], c: Counts) -> Result<(), Fault>
    requires { Sized c (length file.now) }
    ensures { result ≡ verdict_of (events_right events_at (durations_at file.now events_at c.events)) }
{
    for k in 0..c.events {
        let at = CONTENTS_SIZE + EVENT_SIZE * k;
        let d = read32(file, at);
        if d < 1 || LONGEST < d {
            return Err(Fault::BadEvent(at));
        }
    }
    Ok(())
}
