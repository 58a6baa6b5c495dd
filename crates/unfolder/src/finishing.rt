// From the bodies to the file and its answer.
ghost use Rattle.std.specs.Prelude.{◌+◌, ◌*◌, ◌≤◌, length};
ghost use Rattle.ascii.specs.Laying.{Laid};
ghost use Rattle.contents.specs.Limits.{event_size, longest_score};
ghost use Rattle.score.specs.Events.{durations_at};
ghost use Rattle.score.specs.Encode.{duration_bytes};
ghost use Rattle.extended.specs.Layout.{events_start};
ghost use Rattle.unfolder.specs.Inner.{Answers, Settles, Built};

use contents::Counts;
use contents::bytes::read32;
use contents::limits::{EVENT_SIZE, LONGEST_SCORE};
use extended::layout::EXTENDED_CONTENTS;
use filing::{join, put32, settle_file};
use unfolding::UnfoldError;

const DURATIONS_ROOM: usize = 1024;

// The durations as they stand: "Everything else is copied".
fn copy_durations(extended: &[u8], count: usize, out: &mut [u8]) -> usize
    requires { (events_start + event_size * count ≤ length extended.now) × (event_size * count ≤ length out.old) }
    ensures { Laid out.old 0 (duration_bytes (durations_at extended.now events_start count)) out.new result }
{
    let mut at = 0;
    for i in 0..count {
        let d = read32(extended, EXTENDED_CONTENTS + EVENT_SIZE * i);
        at = put32(out, at, d);
    }
    at
}

// The file in the room, where it is right.
fn settle(file: &[u8], room: &mut [u8]) -> Result<usize, UnfoldError>
    requires { length file.now ≤ length room.old }
    ensures { Settles file.now room.old room.new result }
{
    settle_file(file, room)?;
    Ok(file.len())
}

// The file of the bodies, made elsewhere, and then its answer.
fn make(
    extended: &[u8],
    k: Counts,
    items: &[u8],
    entries: &[u8],
    labels: &[u8],
    file: &mut [u8],
    room: &mut [u8],
) -> Result<usize, UnfoldError>
    requires { Built extended.now k items.now entries.now labels.now × (longest_score ≤ length file.old) × (longest_score ≤ length room.old) }
    ensures { Answers extended.now room.old room.new result }
{
    let mut durations = [0; DURATIONS_ROOM];
    copy_durations(extended, k.events, &mut durations);
    let size = join(file, k, &durations, items, entries, labels);
    settle(&file[..size], room)
}

pub fn finish(
    extended: &[u8],
    k: Counts,
    items: &[u8],
    entries: &[u8],
    labels: &[u8],
    room: &mut [u8],
) -> Result<usize, UnfoldError>
    requires { Built extended.now k items.now entries.now labels.now × (longest_score ≤ length room.old) }
    ensures { Answers extended.now room.old room.new result }
{
    let mut file = [0; LONGEST_SCORE];
    make(extended, k, items, entries, labels, &mut file, room)
}
