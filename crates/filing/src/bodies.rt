// A file from its bodies, and its place in a lent room.
ghost use Rattle.std.specs.Prelude.{◌≤◌, length};
ghost use Rattle.ascii.specs.Laying.{Laid};
ghost use Rattle.filing.specs.Bodies.{Bodies, file_in, Settled};

use crate::files::put_file;
use ascii::put_bytes;
use contents::limits::{EVENT_SIZE, ITEM_SIZE, MESSAGE_SIZE};
use contents::{Counts, Fault};
use score::check_file;

// The file of the bodies at the fronts of these bytes, from the front of `out`. Answers its length.
pub fn join(
    out: &mut [u8],
    c: Counts,
    durations: &[u8],
    items: &[u8],
    entries: &[u8],
    labels: &[u8],
) -> usize
    requires { Bodies c durations.now items.now entries.now labels.now out.old }
    ensures { Laid out.old 0 (file_in c durations.now items.now entries.now labels.now) out.new result }
{
    let a = EVENT_SIZE * c.events;
    let b = ITEM_SIZE * c.items;
    let d = MESSAGE_SIZE * c.messages;
    let e = c.text;
    put_file(
        out,
        c,
        &durations[..a],
        &items[..b],
        &entries[..d],
        &labels[..e],
    )
}

// The file at the front of the room, where its check finds nothing wrong; before that the room is not touched.
pub fn settle_file(file: &[u8], room: &mut [u8]) -> Result<(), Fault>
    requires { length file.now ≤ length room.old }
    ensures { Settled file.now room.old room.new result }
{
    check_file(file)?;
    put_bytes(room, 0, file);
    Ok(())
}
